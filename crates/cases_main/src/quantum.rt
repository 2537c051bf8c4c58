// Worked cases of the quantum model: each call on the C boundary, by its number.
// Calls that take alike (a state, a pair) stay apart: one function of them would take each as a closure that writes the C call's parameters twice more, as a function handed by its name has no contract here where its module is private.
// f and b are a case's floats and bytes, x, y and z the lists lent: of a struct each call would name them field by field.

use crate::at_first;
use case_arguments::{list, number_at, whole_at};
use number::{bits_of, of_bits};
use records::part;

fn vrq_parameters(f: &[f64], b: &[u8], x: &mut [f64], y: &mut [f64], z: &mut [u8]) -> u8 {
    domthelv::domthelv_vrq_parameters(
        whole_at(f, 2),
        list(f, 9),
        list(f, 10),
        list(f, 11),
        list(f, 12),
        list(f, 13),
        list(f, 14),
        part(b, 0, whole_at(f, 23)),
        list(f, 15),
        list(f, 16),
        x,
        y,
        z,
    )
}

fn vrq_table(f: &[f64], b: &[u8], x: &mut [f64], z: &mut [u8]) -> u8 {
    domthelv::domthelv_vrq_table(
        whole_at(f, 2),
        list(f, 9),
        list(f, 21),
        part(b, 16, whole_at(f, 24)),
        number_at(f, 5),
        x,
        z,
    )
}

fn vrq_radii(f: &[f64], b: &[u8], x: &mut [f64], z: &mut [u8]) -> u8 {
    domthelv::domthelv_vrq_radii(
        whole_at(f, 2),
        list(f, 9),
        list(f, 21),
        part(b, 16, whole_at(f, 24)),
        whole_at(f, 3),
        whole_at(f, 4),
        number_at(f, 5),
        x,
        z,
    )
}

fn vrq_energies(f: &[f64], b: &[u8], x: &mut [f64]) -> u8 {
    domthelv::domthelv_vrq_energies(
        whole_at(f, 2),
        list(f, 9),
        list(f, 21),
        part(b, 16, whole_at(f, 24)),
        number_at(f, 5),
        list(f, 17),
        list(f, 18),
        list(f, 22),
        whole_at(f, 8) == 1,
        x,
    )
}

fn vrq_total(f: &[f64], b: &[u8], x: &mut [f64]) -> u8 {
    domthelv::domthelv_vrq_total(
        whole_at(f, 2),
        list(f, 9),
        list(f, 21),
        part(b, 16, whole_at(f, 24)),
        number_at(f, 5),
        list(f, 17),
        list(f, 18),
        list(f, 22),
        whole_at(f, 8) == 1,
        x,
    )
}

fn vrq_energies_ends(f: &[f64], b: &[u8], x: &mut [f64]) -> u8 {
    domthelv::domthelv_vrq_energies_ends(
        whole_at(f, 2),
        list(f, 9),
        list(f, 21),
        part(b, 16, whole_at(f, 24)),
        number_at(f, 5),
        list(f, 17),
        list(f, 18),
        list(f, 22),
        whole_at(f, 8) == 1,
        x,
    )
}

fn vrq_diameter_ends(f: &[f64], b: &[u8], x: &mut [f64]) -> u8 {
    domthelv::domthelv_vrq_diameter_ends(
        whole_at(f, 2),
        list(f, 9),
        list(f, 21),
        part(b, 16, whole_at(f, 24)),
        whole_at(f, 3),
        whole_at(f, 4),
        number_at(f, 5),
        number_at(f, 6),
        number_at(f, 7),
        x,
    )
}

fn vrq_diameter(f: &[f64], b: &[u8], x: &mut f64) -> u8 {
    domthelv::domthelv_vrq_diameter(
        whole_at(f, 2),
        list(f, 9),
        list(f, 21),
        part(b, 16, whole_at(f, 24)),
        whole_at(f, 3),
        whole_at(f, 4),
        number_at(f, 5),
        number_at(f, 6),
        number_at(f, 7),
        x,
    )
}

fn vrq_stage(f: &[f64], b: &[u8], x: &mut [f64]) -> u8 {
    domthelv::domthelv_vrq_stage(
        whole_at(f, 2),
        list(f, 9),
        list(f, 10),
        list(f, 11),
        list(f, 12),
        list(f, 13),
        list(f, 14),
        part(b, 0, whole_at(f, 23)),
        list(f, 15),
        list(f, 16),
        number_at(f, 5),
        list(f, 17),
        list(f, 18),
        whole_at(f, 8) == 1,
        x,
    )
}

// The patterns of the first floats; 0 where there are fewer.
fn patterns(floats: &[f64]) -> [u64; 4] {
    let mut patterns = [0u64; 4];
    for (n, x) in patterns.iter_mut().zip(floats) {
        *n = bits_of(*x);
    }
    patterns
}

// Whole numbers go in and out as the floats of their patterns.
fn order_counts(f: &[f64], x: &mut [f64]) -> Option<u8> {
    let mut out = patterns(x);
    let lent = out.get_mut(..x.len())?;
    let answer = domthelv::domthelv_order_counts(whole_at(f, 2), lent);
    for (x, n) in x.iter_mut().zip(out) {
        *x = of_bits(n);
    }
    Some(answer)
}

// None where no call has the case's number.
pub fn quantum(f: &[f64], b: &[u8], x: &mut [f64], y: &mut [f64], z: &mut [u8]) -> Option<u8> {
    Some(match whole_at(f, 0) {
        16 => vrq_parameters(f, b, x, y, z),
        17 => vrq_table(f, b, x, z),
        18 => vrq_radii(f, b, x, z),
        19 => vrq_energies(f, b, x),
        20 => vrq_energies_ends(f, b, x),
        21 => at_first(x, |x| vrq_diameter(f, b, x)),
        22 => vrq_diameter_ends(f, b, x),
        23 => vrq_stage(f, b, x),
        24 => domthelv::domthelv_vrq_record_m(number_at(f, 6)),
        25 => order_counts(f, x)?,
        26 => vrq_total(f, b, x),
        _ => return None,
    })
}
