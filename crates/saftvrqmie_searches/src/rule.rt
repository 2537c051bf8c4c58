// The 21-node rule of QUADPACK, in any run. Two tables, as the Rust and the definitions have them; each is read by a function of its own.
#![tactic(auto)]

ghost use Rattle.std.specs.Prelude.{◌≡◌, Bool};
ghost use Rattle.number.specs.Functions.{entry};
ghost use Rattle.saftvrqmie_searches.specs.Diameter.{abscissas, weights};

use crate::{W_K21, X_K21};
use dual_num::DualNum;
use enclosure::{Enclosed, table_entry};

// The numbers of X_K21 and W_K21, each with the two floats that enclose its decimal.
static ABSCISSAS: [Enclosed; 21] = [
    Enclosed {
        value: X_K21[0],
        below: -0.9956571630258081,
        above: -0.995657163025808,
    },
    Enclosed {
        value: X_K21[1],
        below: -0.9739065285171717,
        above: -0.9739065285171716,
    },
    Enclosed {
        value: X_K21[2],
        below: -0.9301574913557082,
        above: -0.9301574913557081,
    },
    Enclosed {
        value: X_K21[3],
        below: -0.8650633666889845,
        above: -0.8650633666889844,
    },
    Enclosed {
        value: X_K21[4],
        below: -0.7808177265864169,
        above: -0.7808177265864168,
    },
    Enclosed {
        value: X_K21[5],
        below: -0.6794095682990244,
        above: -0.6794095682990243,
    },
    Enclosed {
        value: X_K21[6],
        below: -0.5627571346686048,
        above: -0.5627571346686047,
    },
    Enclosed {
        value: X_K21[7],
        below: -0.4333953941292472,
        above: -0.43339539412924716,
    },
    Enclosed {
        value: X_K21[8],
        below: -0.2943928627014602,
        above: -0.29439286270146015,
    },
    Enclosed {
        value: X_K21[9],
        below: -0.14887433898163122,
        above: -0.1488743389816312,
    },
    Enclosed {
        value: X_K21[10],
        below: 0.0,
        above: 0.0,
    },
    Enclosed {
        value: X_K21[11],
        below: 0.1488743389816312,
        above: 0.14887433898163122,
    },
    Enclosed {
        value: X_K21[12],
        below: 0.29439286270146015,
        above: 0.2943928627014602,
    },
    Enclosed {
        value: X_K21[13],
        below: 0.43339539412924716,
        above: 0.4333953941292472,
    },
    Enclosed {
        value: X_K21[14],
        below: 0.5627571346686047,
        above: 0.5627571346686048,
    },
    Enclosed {
        value: X_K21[15],
        below: 0.6794095682990243,
        above: 0.6794095682990244,
    },
    Enclosed {
        value: X_K21[16],
        below: 0.7808177265864168,
        above: 0.7808177265864169,
    },
    Enclosed {
        value: X_K21[17],
        below: 0.8650633666889844,
        above: 0.8650633666889845,
    },
    Enclosed {
        value: X_K21[18],
        below: 0.9301574913557081,
        above: 0.9301574913557082,
    },
    Enclosed {
        value: X_K21[19],
        below: 0.9739065285171716,
        above: 0.9739065285171717,
    },
    Enclosed {
        value: X_K21[20],
        below: 0.995657163025808,
        above: 0.9956571630258081,
    },
];

static WEIGHTS: [Enclosed; 21] = [
    Enclosed {
        value: W_K21[0],
        below: 0.011694638867371874,
        above: 0.011694638867371876,
    },
    Enclosed {
        value: W_K21[1],
        below: 0.032558162307964725,
        above: 0.03255816230796473,
    },
    Enclosed {
        value: W_K21[2],
        below: 0.054755896574351995,
        above: 0.054755896574352,
    },
    Enclosed {
        value: W_K21[3],
        below: 0.07503967481091994,
        above: 0.07503967481091996,
    },
    Enclosed {
        value: W_K21[4],
        below: 0.0931254545836976,
        above: 0.09312545458369761,
    },
    Enclosed {
        value: W_K21[5],
        below: 0.10938715880229763,
        above: 0.10938715880229764,
    },
    Enclosed {
        value: W_K21[6],
        below: 0.12349197626206584,
        above: 0.12349197626206586,
    },
    Enclosed {
        value: W_K21[7],
        below: 0.1347092173114733,
        above: 0.13470921731147334,
    },
    Enclosed {
        value: W_K21[8],
        below: 0.14277593857706006,
        above: 0.14277593857706009,
    },
    Enclosed {
        value: W_K21[9],
        below: 0.14773910490133849,
        above: 0.1477391049013385,
    },
    Enclosed {
        value: W_K21[10],
        below: 0.1494455540029169,
        above: 0.14944555400291692,
    },
    Enclosed {
        value: W_K21[11],
        below: 0.14773910490133849,
        above: 0.1477391049013385,
    },
    Enclosed {
        value: W_K21[12],
        below: 0.14277593857706006,
        above: 0.14277593857706009,
    },
    Enclosed {
        value: W_K21[13],
        below: 0.1347092173114733,
        above: 0.13470921731147334,
    },
    Enclosed {
        value: W_K21[14],
        below: 0.12349197626206584,
        above: 0.12349197626206586,
    },
    Enclosed {
        value: W_K21[15],
        below: 0.10938715880229763,
        above: 0.10938715880229764,
    },
    Enclosed {
        value: W_K21[16],
        below: 0.0931254545836976,
        above: 0.09312545458369761,
    },
    Enclosed {
        value: W_K21[17],
        below: 0.07503967481091994,
        above: 0.07503967481091996,
    },
    Enclosed {
        value: W_K21[18],
        below: 0.054755896574351995,
        above: 0.054755896574352,
    },
    Enclosed {
        value: W_K21[19],
        below: 0.032558162307964725,
        above: 0.03255816230796473,
    },
    Enclosed {
        value: W_K21[20],
        below: 0.011694638867371874,
        above: 0.011694638867371876,
    },
];

// The entries at k; beyond the nodes 0.
pub fn abscissa<D: DualNum>(k: usize) -> D::Plain
    ensures { (w : Bool) → D.plain w result ≡ entry (D.functions w) abscissas k }
{
    D::constant(table_entry(&ABSCISSAS, k))
}

pub fn weight<D: DualNum>(k: usize) -> D::Plain
    ensures { (w : Bool) → D.plain w result ≡ entry (D.functions w) weights k }
{
    D::constant(table_entry(&WEIGHTS, k))
}
