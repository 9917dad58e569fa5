// Pairs as flat bytes, register first.
ghost use Rattle.std.specs.Prelude.{◌≡◌, ℕ, Bool, true, ◌<◌, ◌≤◌, length};
ghost use Rattle.bus.specs.Lent.{laid_over};
ghost use Rattle.bus.specs.Pairs.{is_even, are_pairs, every as everyRegister, with_registers};

use crate::register;
use crate::register::Change;

// Whether the bytes are whole pairs, at least one and at most 16.
pub(crate) fn are_pairs(bytes: &[u8]) -> bool
    ensures { result ≡ are_pairs bytes.now }
{
    let length = bytes.len();
    (length % 2 == 0) & ((1 <= length) & (length <= 2 * paper::MOST_PAIRS))
}

// Whether each register of the pairs passes the test.
pub(crate) fn every<F: Fn(u8) -> bool>(pairs: &[u8], test: F) -> bool
    requires { F.IsAlwaysCallable test }
    ensures { (asked : ℕ → Bool) → ((byte : ℕ) (answer : Bool) → byte < 256 → F.post test byte answer → answer ≡ asked byte) → result ≡ everyRegister asked pairs.now }
{
    pairs.iter().step_by(2).all(|register| test(*register))
}

// Writes the pairs with each register changed to the front of the lent buffer.
pub(crate) fn write_changed(change: Change, pairs: &[u8], lent: &mut [u8])
    requires { (is_even pairs.now ≡ true) × (length pairs.now ≤ length lent.old) }
    ensures { lent.new ≡ laid_over (with_registers change pairs.now) lent.old }
{
    for k in 0..pairs.len() / 2 {
        lent[2 * k] = register::changed(change, pairs[2 * k]);
        lent[2 * k + 1] = pairs[2 * k + 1];
    }
}
