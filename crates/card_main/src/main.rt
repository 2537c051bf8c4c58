// Runs the cards of data/cards.bin through the operations behind the C boundary. A record is 1600 bytes: the card's length, least significant byte first, in the first two; in the third 0 for an older card to be read, 1 for a newer one, 2 for an older card to be moved, 3 for a newer one; in the fifth and sixth the length of the list that a moved card is written to; the card from the ninth on. Writes for a card that is read the answer, the model, the count, and the bits of two entries of the first sheet, for one that is moved the answer, the length and the list. Then those of data/written.bin, component lists of which a card is written: 300 words, least significant byte first, laid out as docs/VECTORS.md says.
#![tactic(auto)]

ghost use Rattle.std.specs.Prelude.{◌<◌};

use card::Form;
use case_arguments::{list, whole_at};
use number::bits_of;
use records::{Records, floats, part};
use sizes::{LISTS, SHEET, SHEETS, SIDE};
use std::fs::File;
use std::io::{self, Read};

// The most records that are read of a file.
const MOST: u64 = 100_000;

// Bytes of a record of data/cards.bin, and of the room for a card that is written.
const CARD: usize = 1600;

// What is told of a refused card is what was lent: model 9, count 99 and zeros.
fn read(rt: &impl Print, card: &[u8], form: Form) -> io::Result<()> {
    let mut model = 9;
    let mut count = 99;
    let mut m = [0.0; SIDE];
    let mut lists = [0.0; LISTS];
    let mut sheets = [0.0; SHEETS];
    let mut orders = [0; SHEET];
    let answer = card_parameters::parameters(
        card,
        form,
        &mut model,
        &mut count,
        &mut m,
        &mut lists,
        &mut sheets,
        &mut orders,
    );
    let number = mie_parameters::number(answer);
    let first = bits_of(sheets[0]);
    let second = bits_of(sheets[1]);
    println!(rt; "{number} {model} {count} {first:016x} {second:016x}")
}

// What is told of a refused card is what was lent: length 9999, and each byte a5.
fn told(rt: &impl Print, number: u8, length: usize, list: &[u8]) -> io::Result<()> {
    print!(rt; "{number} {length} ")?;
    for byte in list {
        print!(rt; "{byte:02x}")?;
    }
    println!(rt; "")
}

fn moved(rt: &impl Print, card: &[u8], form: Form, list: &mut [u8]) -> io::Result<()> {
    let mut length = 9999;
    let answer = card_writer::moved(card, form, list, &mut length);
    told(rt, mie_parameters::number(answer), length, list)
}

fn length_at(record: &[u8; CARD], k: usize) -> usize
    requires { k < 1000 }
{
    usize::from(u16::from_le_bytes([record[k], record[k + 1]]))
}

// The cards that are read or moved, up to a record whose card or list is too long for it. The numbers of the tasks are matched in this place only, so an enum would say them a second time.
fn cards(rt: &impl Print, file: &mut impl Read) -> io::Result<()> {
    for record in Records::<_, CARD>::new(file, MOST) {
        let record = record?;
        let mut list = [0xa5u8; CARD];
        let Some(card) = record[8..].get(..length_at(&record, 0)) else {
            break;
        };
        let Some(room) = list.get_mut(..length_at(&record, 4)) else {
            break;
        };
        match record[2] {
            0 => read(rt, card, Form::Older)?,
            1 => read(rt, card, Form::Newer)?,
            3 => moved(rt, card, Form::Newer, room)?,
            _ => moved(rt, card, Form::Older, room)?,
        }
    }
    Ok(())
}

// ---- cards that are written

const WORDS: usize = 300;

const RECORD: usize = 8 * WORDS;

// A function for each model: it names the lists of that model's struct one by one.
fn quantum_card(f: &[f64], order: &[u8], room: &mut [u8], length: &mut usize) -> u8 {
    let lists = saftvrqmie_parameters::ComponentLists {
        count: whole_at(f, 0),
        m: list(f, 9),
        sigma: list(f, 10),
        epsilon_k: list(f, 11),
        lr: list(f, 12),
        la: list(f, 13),
        mass: list(f, 14),
        fh: order,
        k_ij: list(f, 15),
        l_ij: list(f, 16),
    };
    let answer = card_of_lists::vrq_card(&lists, room, length);
    mie_parameters::number(answer)
}

fn mie_card(f: &[f64], room: &mut [u8], length: &mut usize) -> u8 {
    let lists = saftvrmie_parameters::ComponentLists {
        count: whole_at(f, 0),
        m: list(f, 9),
        sigma: list(f, 10),
        epsilon_k: list(f, 11),
        lr: list(f, 12),
        la: list(f, 13),
        k_ij: list(f, 15),
        gamma_ij: list(f, 16),
    };
    let answer = card_of_lists::vr_card(&lists, room, length);
    mie_parameters::number(answer)
}

// The cards that are written, up to a record whose list is longer than this program has. The model's number is asked in this place only, so an enum would say it a second time.
fn written(rt: &impl Print, file: &mut impl Read) -> io::Result<()> {
    for record in Records::<_, RECORD>::new(file, MOST) {
        let record = record?;
        let f: [f64; WORDS] = floats(&record);
        let mut list = [0xa5u8; CARD];
        let Some(room) = list.get_mut(..whole_at(&f, 2)) else {
            break;
        };
        let order = part(&record, 400, whole_at(&f, 23));
        let mut length = 9999;
        let number = if whole_at(&f, 1) == 1 {
            mie_card(&f, room, &mut length)
        } else {
            quantum_card(&f, order, room, &mut length)
        };
        told(rt, number, length, room)?;
    }
    Ok(())
}

fn main(rt: HostRuntime) -> io::Result<()> {
    let mut cards_file = File::open(&rt, "cards.bin")?;
    cards(&rt, &mut cards_file)?;
    let mut written_file = File::open(&rt, "written.bin")?;
    written(&rt, &mut written_file)
}
