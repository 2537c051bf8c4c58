// The places of lists, by numbers that are the same whatever the side of a sheet: a million times what a place is of, 10000 for each sheet, 100 for each row, 1 for each column. Casts between u64 and usize are by as: neither has a From of the other.
ghost use Rattle.std.specs.Prelude.{◌≤◌};

use sizes::{SHEET, SIDE};

// What a place is of: the count, component lists, a set's sheets, its orders, the table's sheets or the diameters, the table's counts. In the order of the millions.
#[derive(Clone, Copy)]
pub enum Of {
    Count,
    Lists,
    Sheets,
    Orders,
    Worked,
    Spent,
}

// By the parts of its number: an index would not tell one of another row from one of another sheet.
#[derive(Clone, Copy)]
pub struct Place {
    pub of: Of,
    pub sheet: u8,
    pub row: u8,
    pub column: u8,
}

impl Place {
    // The place that lists of sheets have at an index.
    pub fn at(of: Of, index: usize) -> Place {
        Place {
            of,
            sheet: (index / SHEET % 64) as u8,
            row: (index % SHEET / SIDE) as u8,
            column: (index % SIDE) as u8,
        }
    }

    pub fn index(self) -> usize {
        SHEET * usize::from(self.sheet) + SIDE * usize::from(self.row) + usize::from(self.column)
    }
}

// A number by its bits, where the list has the index.
pub fn put(list: &mut [f64], index: usize, bits: u64) {
    if let Some(x) = list.get_mut(index) {
        *x = number::of_bits(bits);
    }
}

impl From<u64> for Place {
    fn from(number: u64) -> Place {
        let of = match number / 1000000 {
            0 => Of::Count,
            1 => Of::Lists,
            2 => Of::Sheets,
            3 => Of::Orders,
            4 => Of::Worked,
            _ => Of::Spent,
        };
        Place {
            of,
            sheet: (number / 10000 % 100) as u8,
            row: (number / 100 % 100) as u8,
            column: (number % 100) as u8,
        }
    }
}

impl From<Place> for u64 {
    fn from(place: Place) -> u64 {
        let sheet = u64::from(place.sheet);
        let row = u64::from(place.row);
        let column = u64::from(place.column);
        1000000 * (place.of as u64) + 10000 * sheet + 100 * row + column
    }
}
