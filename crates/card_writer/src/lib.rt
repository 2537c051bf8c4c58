// The fuel card, written by the list of fields that it is read by, and moved from one form to the other.
// An enum's number is read by `as`, since it has no From, and u64 has none of usize.
#![tactic(auto)]

ghost use Rattle.std.specs.Prelude.{true, ◌≡◌, not, ◌++◌, ◌+◌, ◌*◌, ◌^◌, ◌<◌, ◌≤◌, length, drop};
ghost use Rattle.bit_fields.specs.Bits.{bits_of, over};
ghost use Rattle.mie_parameters.specs.Answer.{outcome, verdict, stored};
ghost use Rattle.card.specs.Card.{Card, form_of, is_newer, number_of, fields_of, Complete};
ghost use Rattle.card_writer.specs.Writing.{write_field, write_fields, card_bits, byte_count, card_bytes, CardRoom, card_stored, card_moved};

use card::{Field, Form, Heading, VALUES};
use number::Refusal;

// How many bits a number takes.
fn field_length(field: Field, value: u64) -> usize
    requires { field.width ≤ 64 }
    ensures { (result ≡ length (write_field field value)) × (result ≤ 65) }
{
    if field.spared {
        if value == 0 {
            return 1;
        }
        return field.width + 1;
    }
    field.width
}

// How many bits a card takes, whose count is within the limits.
fn card_length(head: Heading, values: &[u64]) -> usize
    requires { Complete head values.now }
    ensures { (result ≡ 6 + length (write_fields (fields_of head) values.now)) × (result < 2 ^ 16) }
{
    let mut bits = 6;
    for (k, value) in values.iter().enumerate() {
        let field = head.field_at(k);
        bits = bits + field_length(field, *value);
    }
    bits
}

// A number in its place, of a card that is long enough; where the next begins.
fn write_field(card: &mut [u8], at: usize, field: Field, value: u64) -> usize
    requires { (at + length (write_field field value) ≤ 8 * length card.old) × (field.width ≤ 64) × (at < 2 ^ 16) }
    ensures { (bits_of card.new ≡ over at (write_field field value) (bits_of card.old)) × (result ≡ at + length (write_field field value)) }
{
    if field.spared {
        if value == 0 {
            bit_fields::put(card, at, 1, 0);
            return at + 1;
        }
        bit_fields::put(card, at, 1, 1);
        bit_fields::put(card, at + 1, field.width, value);
        return at + 1 + field.width;
    }
    bit_fields::put(card, at, field.width, value);
    at + field.width
}

// The numbers behind a heading, of a card that is long enough. It goes along the fields as card_length does, which goes first: nothing is written to a list that is too short.
fn write_values(card: &mut [u8], head: Heading, values: &[u64])
    requires { (6 + length (write_fields (fields_of head) values.now) ≤ 8 * length card.old) × Complete head values.now }
    ensures { bits_of card.new ≡ over 6 (write_fields (fields_of head) values.now) (bits_of card.old) }
{
    let mut end = 6;
    for (k, value) in values.iter().enumerate() {
        let field = head.field_at(k);
        end = write_field(card, end, field, *value);
    }
}

// The model's number of a card's kind and form.
fn model_of(head: Heading) -> u64
    ensures { result ≡ (form_of (is_newer head.form)).first + number_of head.kind }
{
    head.form.first() + head.kind as u64
}

// A card of a known count into a lent list, and its length; 12.
pub fn store(
    head: Heading,
    values: &[u64],
    card: &mut [u8],
    told: &mut usize,
) -> Result<(), Refusal>
    requires { Complete head values.now }
    ensures { let c : Card = record { kind = number_of head.kind; count = head.count; values = values.now } in
        let l : CardRoom = record { card = card.entry.now; length = told.old } in
        let q = card_stored (card_bytes (form_of (is_newer head.form)) c) l in
        (outcome result true ≡ verdict q) × (card.exit.now ≡ (stored l q).card) × (told.new ≡ (stored l q).length) }
{
    let bits = card_length(head, values);
    let bytes = bits.div_ceil(8);
    if card.len() < bytes {
        return Err(Refusal::Room);
    }
    bit_fields::put(card, 0, 2, model_of(head));
    bit_fields::put(card, 2, 4, head.count as u64);
    write_values(card, head, values);
    bit_fields::put(card, bits, 8 * bytes - bits, 0);
    *told = bytes;
    Ok(())
}

// A card of the one form written in the other: the refusals of reading, 16 for more components than an older card holds, 12.
pub fn moved(card: &[u8], form: Form, to: &mut [u8], told: &mut usize) -> Result<(), Refusal>
    ensures { let l : CardRoom = record { card = to.old; length = told.old } in
        let newer = is_newer form in
        let q = card_moved (form_of newer) (form_of (not newer)) card.entry.now l in
        (outcome result true ≡ verdict q) × (to.new ≡ (stored l q).card) × (told.new ≡ (stored l q).length) }
{
    let mut values = [0; VALUES];
    let head = card::read(card, form, &mut values)?;
    let other = form.other();
    if other.most() < head.count {
        return Err(Refusal::Components);
    }
    let total = head.value_count();
    let moved = Heading {
        form: other,
        ..head
    };
    store(moved, &values[0..total], to, told)
}
