// The numbered refusals of every operation (document 01's list, and document 02's).
ghost use Rattle.std.specs.Prelude.{◌≡◌};
ghost use Rattle.number.specs.Answer.{code};

#[derive(Clone, Copy, Debug, PartialEq, Eq)]
pub enum Refusal {
    /// A count or a list's length is outside.
    Length = 1,
    /// A number is outside its limit.
    Limit = 2,
    /// An m of the quantum model is not 1.
    Segments = 3,
    /// An order is above 2.
    Order = 4,
    /// Orders 1 and 2 meet in a pair.
    MixedOrders = 5,
    /// An elementary function's argument is outside its domain.
    Domain = 6,
    /// A result is not finite, or a slope that is supplied.
    NotFinite = 7,
    /// Two ends cannot be given.
    Unsound = 8,
    /// A card is too short for the field in hand.
    Short = 9,
    /// A card's model is not known, or its count is outside.
    Heading = 10,
    /// A filling bit of a card is 1, or bytes are left over.
    Filling = 11,
    /// A lent list is shorter than the card that it is to hold.
    Room = 12,
    /// A tank's layer count is outside.
    Layers = 14,
    /// A newer card stores a pair's +0.
    StoredZero = 15,
    /// A newer card has more components than an older one holds.
    Components = 16,
    /// All places of a desk are occupied.
    Occupied = 17,
}

impl Refusal {
    // The number at the C boundary. An enum's number is read by as; it has no From.
    pub fn code(self) -> u8
        ensures { result ≡ code self }
    {
        self as u8
    }
}
