// The fuel card at the C boundary, written: from component lists, or moved from one form to the other.
ghost use Rattle.std.specs.Prelude.{◌≡◌};
ghost use Rattle.mie_parameters.specs.Answer.{status, stored};
ghost use Rattle.saftvrqmie_parameters.specs.Parameters as Quantum;
ghost use Rattle.saftvrmie_parameters.specs.Parameters as Mie;
ghost use Rattle.card.specs.Card as Card;
ghost use Rattle.card_writer.specs.Writing.{CardRoom, card_moved};
ghost use Rattle.card_of_lists.specs.Cards.{vrq_card, vr_card};

use card::Form;

// The older card of a quantum fluid into a lent list, and its length. The parameters' 1, 2, 3, 4 or 5, then 10 for more than eight components, then 12.
pub fn domthelv_vrq_card(
    count: usize,
    m: &[f64],
    sigma: &[f64],
    epsilon_k: &[f64],
    lr: &[f64],
    la: &[f64],
    mass: &[f64],
    order: &[u8],
    k_ij: &[f64],
    l_ij: &[f64],
    card: &mut [u8],
    length: &mut usize,
) -> u8
    ensures { let x : Quantum.Lists =
        record {
          count = count;
          m = m.now;
          sigma = sigma.now;
          epsilon_k = epsilon_k.now;
          lr = lr.now;
          la = la.now;
          mass = mass.now;
          fh = order.now;
          k_ij = k_ij.now;
          l_ij = l_ij.now;
        } in
        let l : CardRoom = record { card = card.entry.now; length = length.old } in
        let q = vrq_card x l in
        (result ≡ status q) × (card.exit.now ≡ (stored l q).card) × (length.new ≡ (stored l q).length) }
{
    let lists = saftvrqmie_parameters::ComponentLists {
        count,
        m,
        sigma,
        epsilon_k,
        lr,
        la,
        mass,
        fh: order,
        k_ij,
        l_ij,
    };
    mie_parameters::number(card_of_lists::vrq_card(&lists, card, length))
}

// The older card of a fluid of SAFT-VR Mie likewise. The parameters' 1, 2, then 10, then 12.
pub fn domthelv_vr_card(
    count: usize,
    m: &[f64],
    sigma: &[f64],
    epsilon_k: &[f64],
    lr: &[f64],
    la: &[f64],
    k_ij: &[f64],
    gamma_ij: &[f64],
    card: &mut [u8],
    length: &mut usize,
) -> u8
    ensures { let x : Mie.Lists =
        record {
          count = count;
          m = m.now;
          sigma = sigma.now;
          epsilon_k = epsilon_k.now;
          lr = lr.now;
          la = la.now;
          k_ij = k_ij.now;
          gamma_ij = gamma_ij.now;
        } in
        let l : CardRoom = record { card = card.entry.now; length = length.old } in
        let q = vr_card x l in
        (result ≡ status q) × (card.exit.now ≡ (stored l q).card) × (length.new ≡ (stored l q).length) }
{
    let lists = saftvrmie_parameters::ComponentLists {
        count,
        m,
        sigma,
        epsilon_k,
        lr,
        la,
        k_ij,
        gamma_ij,
    };
    mie_parameters::number(card_of_lists::vr_card(&lists, card, length))
}

// An older card as a newer one, and its length. 9, 10, 11, then 12.
pub fn domthelv_card_to_newer(card: &[u8], newer: &mut [u8], length: &mut usize) -> u8
    ensures { let l : CardRoom = record { card = newer.old; length = length.old } in
        let q = card_moved Card.older Card.newer_form card.entry.now l in
        (result ≡ status q) × (newer.new ≡ (stored l q).card) × (length.new ≡ (stored l q).length) }
{
    let answer = card_writer::moved(card, Form::Older, newer, length);
    mie_parameters::number(answer)
}

// A newer card as an older one, and its length. 9, 10, 15, 11, then 16 for more than eight components, then 12.
pub fn domthelv_card_to_older(card: &[u8], older: &mut [u8], length: &mut usize) -> u8
    ensures { let l : CardRoom = record { card = older.old; length = length.old } in
        let q = card_moved Card.newer_form Card.older card.entry.now l in
        (result ≡ status q) × (older.new ≡ (stored l q).card) × (length.new ≡ (stored l q).length) }
{
    let answer = card_writer::moved(card, Form::Newer, older, length);
    mie_parameters::number(answer)
}
