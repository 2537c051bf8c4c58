// What was met: how often each operation gave each number, and how many calls differ.
use std::{fmt, io};

#[derive(Clone, Copy)]
pub enum Operation {
    QuantumParameters,
    QuantumTable,
    QuantumEnergies,
    MieParameters,
    MieDiameters,
    MieDispersion,
    MieAndChain,
}

#[derive(Clone, Copy)]
struct Row {
    name: &'static str,
    met: [u64; 9],
    differ: u64,
}

impl fmt::Display for Row {
    fn fmt<W: fmt::Write>(&self, f: &mut fmt::Formatter<W>) -> fmt::Result {
        let name = self.name;
        write!(f, "{name:<21}")?;
        for (n, times) in self.met.iter().enumerate() {
            if 0 < *times {
                write!(f, "{n}: {times}, ")?;
            }
        }
        let differ = self.differ;
        write!(f, "{differ} differ")
    }
}

// A row for each operation, in their order.
#[derive(Clone, Copy)]
pub struct Tally([Row; 7]);

impl Tally {
    pub fn new() -> Tally {
        Tally([
            "quantum parameters",
            "quantum table",
            "quantum energies",
            "VR Mie parameters",
            "VR Mie diameters",
            "VR Mie dispersion",
            "VR Mie and chain",
        ]
        .map(|name| Row {
            name,
            met: [0; 9],
            differ: 0,
        }))
    }

    // The row by the operation's number: an enum's number is read by as, since it has no From.
    pub fn note(&mut self, operation: Operation, number: u64, same: bool) {
        let row = &mut self.0[operation as usize];
        if let Some(times) = row.met.get_mut(number as usize) {
            *times = times.saturating_add(1);
        }
        if !same {
            row.differ = row.differ.saturating_add(1);
        }
    }

    pub fn print(&self, rt: &impl Print) -> io::Result<()> {
        for row in self.0 {
            println!(rt; "{row}")?;
        }
        Ok(())
    }
}
