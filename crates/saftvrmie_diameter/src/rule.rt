// The 10-node rule, in any run. Two tables, as the Rust and the definitions have them; each is read by a function of its own.
#![tactic(auto)]

ghost use Rattle.std.specs.Prelude.{◌≡◌, Bool};
ghost use Rattle.number.specs.Functions.{entry};
ghost use Rattle.saftvrmie_diameter.specs.Diameter.{positions, weights};

use crate::GLQ10;
use dual_num::DualNum;
use enclosure::{Enclosed, table_entry};

// The numbers of GLQ10, each with the two floats that enclose its decimal.
static POSITIONS: [Enclosed; 10] = [
    Enclosed {
        value: GLQ10[0][0],
        below: -0.14887433898163122,
        above: -0.1488743389816312,
    },
    Enclosed {
        value: GLQ10[1][0],
        below: 0.1488743389816312,
        above: 0.14887433898163122,
    },
    Enclosed {
        value: GLQ10[2][0],
        below: -0.4333953941292472,
        above: -0.43339539412924716,
    },
    Enclosed {
        value: GLQ10[3][0],
        below: 0.43339539412924716,
        above: 0.4333953941292472,
    },
    Enclosed {
        value: GLQ10[4][0],
        below: -0.6794095682990244,
        above: -0.6794095682990243,
    },
    Enclosed {
        value: GLQ10[5][0],
        below: 0.6794095682990243,
        above: 0.6794095682990244,
    },
    Enclosed {
        value: GLQ10[6][0],
        below: -0.8650633666889845,
        above: -0.8650633666889844,
    },
    Enclosed {
        value: GLQ10[7][0],
        below: 0.8650633666889844,
        above: 0.8650633666889845,
    },
    Enclosed {
        value: GLQ10[8][0],
        below: -0.9739065285171717,
        above: -0.9739065285171716,
    },
    Enclosed {
        value: GLQ10[9][0],
        below: 0.9739065285171716,
        above: 0.9739065285171717,
    },
];

static WEIGHTS: [Enclosed; 10] = [
    Enclosed {
        value: GLQ10[0][1],
        below: 0.29552422471475287,
        above: 0.2955242247147529,
    },
    Enclosed {
        value: GLQ10[1][1],
        below: 0.29552422471475287,
        above: 0.2955242247147529,
    },
    Enclosed {
        value: GLQ10[2][1],
        below: 0.2692667193099963,
        above: 0.26926671930999635,
    },
    Enclosed {
        value: GLQ10[3][1],
        below: 0.2692667193099963,
        above: 0.26926671930999635,
    },
    Enclosed {
        value: GLQ10[4][1],
        below: 0.21908636251598199,
        above: 0.219086362515982,
    },
    Enclosed {
        value: GLQ10[5][1],
        below: 0.21908636251598199,
        above: 0.219086362515982,
    },
    Enclosed {
        value: GLQ10[6][1],
        below: 0.1494513491505806,
        above: 0.14945134915058061,
    },
    Enclosed {
        value: GLQ10[7][1],
        below: 0.1494513491505806,
        above: 0.14945134915058061,
    },
    Enclosed {
        value: GLQ10[8][1],
        below: 0.0666713443086881,
        above: 0.06667134430868811,
    },
    Enclosed {
        value: GLQ10[9][1],
        below: 0.0666713443086881,
        above: 0.06667134430868811,
    },
];

// The entries at k; beyond the nodes 0.
pub fn position<D: DualNum>(k: usize) -> D::Plain
    ensures { (w : Bool) → D.plain w result ≡ entry (D.functions w) positions k }
{
    D::constant(table_entry(&POSITIONS, k))
}

pub fn weight<D: DualNum>(k: usize) -> D::Plain
    ensures { (w : Bool) → D.plain w result ≡ entry (D.functions w) weights k }
{
    D::constant(table_entry(&WEIGHTS, k))
}
