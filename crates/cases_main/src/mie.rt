// Worked cases of SAFT-VR Mie: each call on the C boundary, by its number. What the quantum model has too is written here anew, as its C calls take other lists. Calls that take alike (a state, a pair) stay apart as quantum.rt says.

use crate::at_first;
use case_arguments::{list, number_at, whole_at};

fn vr_parameters(f: &[f64], x: &mut [f64], y: &mut [f64]) -> u8 {
    domthelv::domthelv_vr_parameters(
        whole_at(f, 2),
        list(f, 9),
        list(f, 10),
        list(f, 11),
        list(f, 12),
        list(f, 13),
        list(f, 15),
        list(f, 16),
        x,
        y,
    )
}

fn vr_diameters(f: &[f64], x: &mut [f64]) -> u8 {
    domthelv::domthelv_vr_diameters(whole_at(f, 2), list(f, 20), list(f, 21), number_at(f, 5), x)
}

fn vr_radius(f: &[f64], x: &mut f64) -> u8 {
    domthelv::domthelv_vr_radius(
        whole_at(f, 2),
        list(f, 20),
        list(f, 21),
        whole_at(f, 3),
        whole_at(f, 4),
        number_at(f, 5),
        x,
    )
}

fn vr_dispersion(f: &[f64], x: &mut f64) -> u8 {
    domthelv::domthelv_vr_dispersion(
        whole_at(f, 2),
        list(f, 20),
        list(f, 21),
        number_at(f, 5),
        list(f, 17),
        list(f, 18),
        list(f, 19),
        whole_at(f, 8) == 1,
        x,
    )
}

fn vr_dispersion_ends(f: &[f64], x: &mut [f64]) -> u8 {
    domthelv::domthelv_vr_dispersion_ends(
        whole_at(f, 2),
        list(f, 20),
        list(f, 21),
        number_at(f, 5),
        list(f, 17),
        list(f, 18),
        list(f, 19),
        whole_at(f, 8) == 1,
        x,
    )
}

fn vr_diameter_ends(f: &[f64], x: &mut [f64]) -> u8 {
    domthelv::domthelv_vr_diameter_ends(
        whole_at(f, 2),
        list(f, 20),
        list(f, 21),
        whole_at(f, 3),
        whole_at(f, 4),
        number_at(f, 5),
        number_at(f, 7),
        x,
    )
}

fn vr_diameter(f: &[f64], x: &mut f64) -> u8 {
    domthelv::domthelv_vr_diameter(
        whole_at(f, 2),
        list(f, 20),
        list(f, 21),
        whole_at(f, 3),
        whole_at(f, 4),
        number_at(f, 5),
        number_at(f, 7),
        x,
    )
}

fn vr_stage(f: &[f64], x: &mut f64) -> u8 {
    domthelv::domthelv_vr_stage(
        whole_at(f, 2),
        list(f, 9),
        list(f, 10),
        list(f, 11),
        list(f, 12),
        list(f, 13),
        list(f, 15),
        list(f, 16),
        number_at(f, 5),
        list(f, 17),
        list(f, 18),
        whole_at(f, 8) == 1,
        x,
    )
}

// None where no call has the case's number.
pub fn mie(f: &[f64], x: &mut [f64], y: &mut [f64]) -> Option<u8> {
    Some(match whole_at(f, 0) {
        32 => vr_parameters(f, x, y),
        33 => vr_diameters(f, x),
        34 => at_first(x, |x| vr_radius(f, x)),
        35 => at_first(x, |x| vr_dispersion(f, x)),
        36 => vr_dispersion_ends(f, x),
        37 => at_first(x, |x| vr_diameter(f, x)),
        38 => vr_diameter_ends(f, x),
        39 => at_first(x, |x| vr_stage(f, x)),
        _ => return None,
    })
}
