// The operation from a card to the parameters of either model.
// n ≤ side stands plain: it bounds one index, and a name would be longer.
// An enum's number is read by `as`; it has no From.
#![tactic(auto)]

ghost use Rattle.std.specs.Prelude.{◌≡◌, true, ◌+◌, ◌*◌, ◌-◌, ◌≤◌, length};
ghost use Rattle.sizes.specs.Sizes.{side};
ghost use Rattle.number.specs.Answer.{answer};
ghost use Rattle.mie_parameters.specs.Answer.{outcome, verdict, stored};
ghost use Rattle.saftvrqmie_parameters.specs.Parameters as Quantum;
ghost use Rattle.saftvrmie_parameters.specs.Parameters as Mie;
ghost use Rattle.card.specs.Card.{Card, form_of, is_newer};
ghost use Rattle.card_lists.specs.Lists.{quantum_lists, mie_lists};
ghost use Rattle.card_parameters.specs.Parameters.{CardLent, card_lengths, card_parameters};

use card::{Form, Kind, VALUES, mie, pair, quantum};
use card_lists::PairNumbers;
use number::Refusal;
use saftvrmie_parameters::SaftVRMiePars;
use saftvrqmie_parameters::SaftVRQMiePars;
use sizes::SIDE;

// The quantum set of a card's numbers, whose count was tested. A function for each model: it names the lists of that model's struct one by one, so that a trait's method would be all of it.
fn quantum_set(values: &[u64], n: usize) -> Result<SaftVRQMiePars, Refusal>
    requires { (n ≤ side) × (length values.now ≡ n * 6 + n * (n - 1)) }
    ensures { let c : Card = record { kind = 0; count = n; values = values.now } in
        answer result ≡ Quantum.saft_vrq_mie_pars (quantum_lists c) }
{
    let square = n * n;
    let m = [1.0; SIDE];
    let sigma = card_lists::column(values, quantum::SIZE, n, quantum::SIGMA);
    let epsilon_k = card_lists::column(values, quantum::SIZE, n, quantum::EPSILON_K);
    let lr = card_lists::column(values, quantum::SIZE, n, quantum::LR);
    let la = card_lists::column(values, quantum::SIZE, n, quantum::LA);
    let mass = card_lists::column(values, quantum::SIZE, n, quantum::MASS);
    let order = card_lists::orders(values, n);
    let pairs = PairNumbers {
        values,
        start: n * quantum::SIZE,
        n,
    };
    let k_ij = pairs.list(pair::K);
    let l_ij = pairs.list(pair::SECOND);
    saftvrqmie_parameters::saft_vrq_mie_pars(&saftvrqmie_parameters::ComponentLists {
        count: n,
        m: &m[0..n],
        sigma: &sigma[0..n],
        epsilon_k: &epsilon_k[0..n],
        lr: &lr[0..n],
        la: &la[0..n],
        mass: &mass[0..n],
        fh: &order[0..n],
        k_ij: &k_ij[0..square],
        l_ij: &l_ij[0..square],
    })
}

// The set of SAFT-VR Mie likewise.
fn mie_set(values: &[u64], n: usize) -> Result<SaftVRMiePars, Refusal>
    requires { (n ≤ side) × (length values.now ≡ n * 5 + n * (n - 1)) }
    ensures { let c : Card = record { kind = 1; count = n; values = values.now } in
        answer result ≡ Mie.saft_vr_mie_pars (mie_lists c) }
{
    let square = n * n;
    let m = card_lists::column(values, mie::SIZE, n, mie::M);
    let sigma = card_lists::column(values, mie::SIZE, n, mie::SIGMA);
    let epsilon_k = card_lists::column(values, mie::SIZE, n, mie::EPSILON_K);
    let lr = card_lists::column(values, mie::SIZE, n, mie::LR);
    let la = card_lists::column(values, mie::SIZE, n, mie::LA);
    let pairs = PairNumbers {
        values,
        start: n * mie::SIZE,
        n,
    };
    let k_ij = pairs.list(pair::K);
    let gamma_ij = pairs.list(pair::SECOND);
    saftvrmie_parameters::saft_vr_mie_pars(&saftvrmie_parameters::ComponentLists {
        count: n,
        m: &m[0..n],
        sigma: &sigma[0..n],
        epsilon_k: &epsilon_k[0..n],
        lr: &lr[0..n],
        la: &la[0..n],
        k_ij: &k_ij[0..square],
        gamma_ij: &gamma_ij[0..square],
    })
}

fn card_lengths(m: &[f64], lists: &[f64], sheets: &[f64], orders: &[u8]) -> bool
    ensures { result ≡ card_lengths m.now lists.now sheets.now orders.now }
{
    set_lists::quantum_lengths(m, sheets, orders) & set_lists::mie_lengths(lists, sheets)
}

// A card's model and count, and its set in the lists of that model. 1, then the card's refusals, then the parameters'. The lent lists are the C call's own, one by one: in a struct of six `&mut` each would be named once more at both calls and in this contract.
pub fn parameters(
    card: &[u8],
    form: Form,
    model: &mut u8,
    count: &mut usize,
    m: &mut [f64],
    lists: &mut [f64],
    sheets: &mut [f64],
    orders: &mut [u8],
) -> Result<(), Refusal>
    ensures { let l : CardLent =
        record {
          model = model.entry.now;
          count = count.old;
          m = m.old;
          lists = lists.old;
          sheets = sheets.old;
          orders = orders.old;
        } in
        let q = card_parameters (form_of (is_newer form)) card.now l in
        (outcome result true ≡ verdict q) × (model.exit.now ≡ (stored l q).model) × (count.new ≡ (stored l q).count) × (m.new ≡ (stored l q).m)
        × (lists.new ≡ (stored l q).lists) × (sheets.new ≡ (stored l q).sheets) × (orders.new ≡ (stored l q).orders) }
{
    if !card_lengths(m, lists, sheets, orders) {
        return Err(Refusal::Length);
    }
    let mut values = [0; VALUES];
    let head = card::read(card, form, &mut values)?;
    let n = head.count;
    let total = head.value_count();
    match head.kind {
        Kind::Quantum => {
            let set = quantum_set(&values[0..total], n)?;
            set_lists::write_quantum(set, m, sheets, orders);
        }
        Kind::Mie => {
            let set = mie_set(&values[0..total], n)?;
            set_lists::write_mie(set, lists, sheets);
        }
    }
    *model = head.kind as u8;
    *count = n;
    Ok(())
}
