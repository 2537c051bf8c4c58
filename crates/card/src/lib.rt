// The fuel card, read as patterns of 64 bits: field by field, by its list of fields.
// usize and u64 have no From of each other: they are cast.
#![tactic(auto)]

ghost use Rattle.std.specs.Prelude.{◌≡◌, not, ◌+◌, ◌*◌, ◌-◌, ◌^◌, ◌<◌, ◌≤◌, get_or, drop};
ghost use Rattle.bit_fields.specs.Bits.{bits_of};
ghost use Rattle.card.specs.Fields.{IsWidth, read_plain, read_spared, read_field, read_fields};
ghost use Rattle.card.specs.Card.{form_of, is_newer, float, most_components, size, number_of, kind_of, fields_of, total_of, Within, read_card, field_answer, end_of, end_answer, reach_of, card_answer, form_read, known, filling};

use number::Refusal;

pub mod mie;
pub mod pair;
pub mod quantum;

// The most components on a card: its own limit, whatever the side of a sheet.
pub const MOST: usize = 8;

// The most components on a newer card.
pub const NEWER_MOST: usize = 12;

// The most numbers behind a heading: twelve components of the quantum model, six each, and two for each pair.
pub const VALUES: usize = 204;

// How a field is stored: its width, and whether a bit first says that it is 0. A flag: a pair's field takes it from the form (`spares_zero`), and an enum of two cases would hold the width in both, where it is asked for in both.
#[derive(Clone, Copy)]
pub struct Field {
    pub width: usize,
    pub spared: bool,
}

#[derive(Clone, Copy)]
pub struct FieldValue {
    pub value: u64,
    pub end: usize,
}

// A card's kind: the model that its fluid is of. The definitions count the kinds; `number_of` is that number.
#[derive(Clone, Copy)]
pub enum Kind {
    /// SAFT-VRQ Mie.
    Quantum = 0,
    /// SAFT-VR Mie.
    Mie = 1,
}

impl Kind {
    // How many numbers a component has.
    pub fn size(self) -> usize
        ensures { (result ≡ size (number_of self)) × (result ≤ 6) }
    {
        match self {
            Kind::Quantum => quantum::SIZE,
            Kind::Mie => mie::SIZE,
        }
    }
}

// Any number stands for a kind, 0 for quantum and every other for SAFT-VR Mie: who has a number k hands `Kind::from(k)`, whose fields are those of k (`layout_any`, `count_any` in proofs/Fields).
impl From<u64> for Kind {
    ghost from_gives = { λ n r. r ≡ kind_of n };

    fn from(n: u64) -> Kind {
        match n {
            0 => Kind::Quantum,
            _ => Kind::Mie,
        }
    }
}

// A card's form. The definitions ask whether it is the newer one: `is_newer`.
#[derive(Clone, Copy)]
pub enum Form {
    Older,
    Newer,
}

impl Form {
    // The quantum model's number on a card; SAFT-VR Mie's is one more.
    pub fn first(self) -> u64
        ensures { (result ≡ (form_of (is_newer self)).first) × (result ≤ 2) }
    {
        match self {
            Form::Older => 0,
            Form::Newer => 2,
        }
    }

    // The most components.
    pub fn most(self) -> usize
        ensures { result ≡ (form_of (is_newer self)).most }
    {
        match self {
            Form::Older => MOST,
            Form::Newer => NEWER_MOST,
        }
    }

    // Whether a pair's number is not stored where it is +0.
    fn spares_zero(self) -> bool
        ensures { result ≡ (form_of (is_newer self)).spared }
    {
        match self {
            Form::Older => false,
            Form::Newer => true,
        }
    }

    // The form that a card of this one is moved to.
    pub fn other(self) -> Form
        ensures { is_newer result ≡ not (is_newer self) }
    {
        match self {
            Form::Older => Form::Newer,
            Form::Newer => Form::Older,
        }
    }
}

// What a card's fields hang on: its kind, how many components it has, and its form.
#[derive(Clone, Copy)]
pub struct Heading {
    pub kind: Kind,
    pub count: usize,
    pub form: Form,
}

// No card comes near 2^16 bits.
fn plain(card: &[u8], at: usize, width: usize) -> Result<FieldValue, Refusal>
    requires { (at < 2 ^ 16) × IsWidth width }
    ensures { (field_answer card.now result ≡ read_plain width (drop at (bits_of card.now))) × (end_of result ≤ at + width) }
{
    if card.len() < (at + width).div_ceil(8) {
        return Err(Refusal::Short);
    }
    let value = bit_fields::field(card, at, width);
    Ok(FieldValue {
        value,
        end: at + width,
    })
}

// A field that is spared where its number is 0: a bit first says so.
fn spared(card: &[u8], at: usize, width: usize) -> Result<FieldValue, Refusal>
    requires { (at + 1 < 2 ^ 16) × IsWidth width }
    ensures { (field_answer card.now result ≡ read_spared width (drop at (bits_of card.now))) × (end_of result ≤ at + 1 + width) }
{
    let flag = plain(card, at, 1)?;
    if flag.value == 0 {
        return Ok(flag);
    }
    let stored = plain(card, flag.end, width)?;
    if stored.value == 0 {
        return Err(Refusal::StoredZero);
    }
    Ok(stored)
}

fn read_field(card: &[u8], at: usize, field: Field) -> Result<FieldValue, Refusal>
    requires { (at + 1 < 2 ^ 16) × IsWidth field.width }
    ensures { (field_answer card.now result ≡ read_field field (drop at (bits_of card.now))) × (end_of result ≤ at + 65) }
{
    if field.spared {
        return spared(card, at, field.width);
    }
    plain(card, at, field.width)
}

impl Heading {
    // Field k behind a heading. Readers and writers have tested the count and go no further than the last field.
    pub fn field_at(self, k: usize) -> Field
        requires { (self.count ≤ most_components) × (k < total_of self) }
        ensures { (result ≡ get_or (fields_of self) k float) × IsWidth result.width }
    {
        if self.count * self.kind.size() <= k {
            return Field {
                width: 64,
                spared: self.form.spares_zero(),
            };
        }
        let width = match self.kind {
            Kind::Quantum if k % quantum::SIZE == quantum::ORDER => 2,
            _ => 64,
        };
        Field {
            width,
            spared: false,
        }
    }

    // How many numbers a card has behind its heading, of a count within the limits: a heading outside them was refused with 10, so that no product wraps.
    pub fn value_count(self) -> usize
        requires { Within self }
        ensures { result ≡ total_of self }
    {
        self.count * self.kind.size() + self.count * (self.count - 1)
    }
}

// The numbers behind a heading, whose count is within the card's limits. By index: it places the field and its number both, and of what an adapter of iter_mut writes a proof knows nothing.
fn read_values(
    card: &[u8],
    at: usize,
    head: Heading,
    values: &mut [u64; VALUES],
) -> Result<usize, Refusal>
    requires { (at ≤ 6) × Within head }
    ensures { let l = card.now in
        (end_answer l (total_of head) values.new result ≡ read_fields (fields_of head) (drop at (bits_of l)))
        × (reach_of result < 2 ^ 16) }
{
    let total = head.value_count();
    let mut end = at;
    for k in 0usize..total {
        let field = head.field_at(k);
        let v = read_field(card, end, field)?;
        values[k] = v.value;
        end = v.end;
    }
    Ok(end)
}

fn known(form: Form, model: u64, count: u64) -> bool
    ensures { result ≡ known (form_of (is_newer form)) model count }
{
    let first = form.first();
    let most = form.most() as u64;
    (first <= model) & (model <= first + 1) & (1 <= count) & (count <= most)
}

// Whether fewer than eight bits are left, all of them zero.
fn filling(card: &[u8], end: usize) -> bool
    requires { end < 2 ^ 16 }
    ensures { result ≡ filling (drop end (bits_of card.now)) }
{
    let bytes = end.div_ceil(8);
    if bytes < card.len() {
        return false;
    }
    if card.len() < bytes {
        return true;
    }
    bit_fields::field(card, end, 8 * bytes - end) == 0
}

// The kind of a known model.
fn kind_of(form: Form, model: u64) -> Kind
    requires { (form_of (is_newer form)).first ≤ model }
    ensures { result ≡ kind_of (model - (form_of (is_newer form)).first) }
{
    Kind::from(model - form.first())
}

// A card's heading, its numbers in an array that is lent; of a card that is refused the array holds what was read before.
// How many they are is the heading's: no heap, and it is known once the heading is read.
pub fn read(card: &[u8], form: Form, values: &mut [u64; VALUES]) -> Result<Heading, Refusal>
    ensures { (card_answer values.new result ≡ read_card (form_of (is_newer form)) card.now) × (form_read form result ≡ form) }
{
    let model = plain(card, 0, 2)?;
    let count = plain(card, model.end, 4)?;
    if !known(form, model.value, count.value) {
        return Err(Refusal::Heading);
    }
    let kind = kind_of(form, model.value);
    let head = Heading {
        kind,
        count: count.value as usize,
        form,
    };
    let end = read_values(card, count.end, head, values)?;
    if !filling(card, end) {
        return Err(Refusal::Filling);
    }
    Ok(head)
}
