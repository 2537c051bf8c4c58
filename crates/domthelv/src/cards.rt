// The fuel card at the C boundary.
ghost use Rattle.std.specs.Prelude.{◌≡◌};
ghost use Rattle.mie_parameters.specs.Answer.{status, stored};
ghost use Rattle.card.specs.Card.{older, newer_form};
ghost use Rattle.card_parameters.specs.Parameters.{CardLent, card_parameters};

use card::Form;

// From a card to the parameters: its model (0 quantum, 1 SAFT-VR Mie), its count, and the set in the lists of that model; lists of the other keep their bits. 1, 9, 10, 11, then the parameters' 2, 3, 4 or 5, 6.
pub fn domthelv_card_parameters(
    card: &[u8],
    model: &mut u8,
    count: &mut usize,
    set_m: &mut [f64],
    set_lists: &mut [f64],
    set_sheets: &mut [f64],
    set_orders: &mut [u8],
) -> u8
    ensures { let l : CardLent =
        record {
          model = model.entry.now;
          count = count.old;
          m = set_m.old;
          lists = set_lists.old;
          sheets = set_sheets.old;
          orders = set_orders.old;
        } in
        let q = card_parameters older card.now l in
        (result ≡ status q) × (model.exit.now ≡ (stored l q).model) × (count.new ≡ (stored l q).count) × (set_m.new ≡ (stored l q).m)
        × (set_lists.new ≡ (stored l q).lists) × (set_sheets.new ≡ (stored l q).sheets) × (set_orders.new ≡ (stored l q).orders) }
{
    let answer = card_parameters::parameters(
        card,
        Form::Older,
        model,
        count,
        set_m,
        set_lists,
        set_sheets,
        set_orders,
    );
    mie_parameters::number(answer)
}

// The same from a newer card, of up to twelve components; the model is told as of the older. 1; 9, 10 and 15 as the fields come; 11, then the parameters' 2, 3, 4 or 5, 6.
pub fn domthelv_newer_card_parameters(
    card: &[u8],
    model: &mut u8,
    count: &mut usize,
    set_m: &mut [f64],
    set_lists: &mut [f64],
    set_sheets: &mut [f64],
    set_orders: &mut [u8],
) -> u8
    ensures { let l : CardLent =
        record {
          model = model.entry.now;
          count = count.old;
          m = set_m.old;
          lists = set_lists.old;
          sheets = set_sheets.old;
          orders = set_orders.old;
        } in
        let q = card_parameters newer_form card.now l in
        (result ≡ status q) × (model.exit.now ≡ (stored l q).model) × (count.new ≡ (stored l q).count) × (set_m.new ≡ (stored l q).m)
        × (set_lists.new ≡ (stored l q).lists) × (set_sheets.new ≡ (stored l q).sheets) × (set_orders.new ≡ (stored l q).orders) }
{
    let answer = card_parameters::parameters(
        card,
        Form::Newer,
        model,
        count,
        set_m,
        set_lists,
        set_sheets,
        set_orders,
    );
    mie_parameters::number(answer)
}
