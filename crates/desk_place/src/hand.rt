// What a place whose query waits has in hand: its bytes tell it once, and its functions take it from there.
ghost use Rattle.std.specs.Prelude.{◌≡◌, true};
ghost use Rattle.limits.specs.Limits.{index_within};

// The query's count, and the row and column of a pair within it.
#[derive(Clone, Copy)]
pub struct InHand {
    pub count: usize,
    pub row: usize,
    pub column: usize,
    pub ghost within: { index_within count row column ≡ true },
}
