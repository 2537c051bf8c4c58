// Runs the calls of data/quantum.bin and data/mie.bin, and of 9 to 12 components those of both files beside them, and compares each answer, bit for bit, with the one in the file. A record is 24 words, least significant byte first, and a list of words; docs/VECTORS.md says which. Places of lists go by sheet, row and column, so that the files hold whatever the side is. Writes for each operation how often it gave each number (0 for accepted), and how many calls differ.
#![tactic(auto)]

mod chains;
mod hash;
mod mie;
mod place;
mod quantum;
mod record;
mod tally;

use std::io;
use std::rt::Files;

// The calls of two files.
fn calls(rt: &impl Files, quantum: &str, mie: &str) -> io::Result<tally::Tally> {
    let mut tally = tally::Tally::new();
    chains::run(rt, quantum, quantum::Quantum::new(), &mut tally)?;
    chains::run(rt, mie, mie::Mie::new(), &mut tally)?;
    Ok(tally)
}

fn main(rt: HostRuntime) -> io::Result<()> {
    let few = calls(&rt, "quantum.bin", "mie.bin")?;
    few.print(&rt)?;
    println!(rt; "9 to 12 components")?;
    let more = calls(&rt, "quantum_9_to_12.bin", "mie_9_to_12.bin")?;
    more.print(&rt)
}
