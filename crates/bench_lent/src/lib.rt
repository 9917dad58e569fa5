// The buffers that the bench lends: of the length that a line asks for, filled with AA.
#![tactic(auto)]

ghost use Rattle.std.specs.Prelude.{◌≡◌, ◌≤◌, length as size};
ghost use Rattle.bench_lent.specs.Lent as lent;

// The longest buffer that a line can ask for.
pub const LONGEST_BUFFER: usize = 256;

// A lent buffer of the longest length, filled with AA.
#[tactic(auto, unfolding(crate::specs::Lent::filled))]
pub fn filled() -> [u8; LONGEST_BUFFER]
    ensures { (result ≡ lent.filled) × (256 ≡ size result) }
{
    [0xAA; LONGEST_BUFFER]
}

// A buffer's length within the longest.
#[tactic(auto, unfolding(crate::specs::Lent::within))]
pub fn within(n: usize) -> usize
    ensures { (result ≡ lent.within n) × (result ≤ 256) }
{
    n.min(LONGEST_BUFFER)
}
