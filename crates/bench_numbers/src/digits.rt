// What single digits stand for.
ghost use Rattle.std.specs.Prelude.{◌≡◌, ◌<◌, ◌≤◌, MatchResult};
ghost use Rattle.bench_numbers.specs.declared.Reason.TheVariants.{NotANumber};
ghost use Rattle.bench_numbers.specs.Reading as reading;

use crate::Reason;

// What a digit of a base of at most 16 stands for: 0 to 9, and from 10 on a letter of either case.
pub(crate) fn value(byte: u8, base: u32) -> Result<u32, Reason>
    requires { (2 ≤ base) × (base ≤ 16) }
    ensures { MatchResult result (λ digit. (digit < base) × (digit ≡ reading.digit_value byte)) (λ reason. (base ≤ reading.digit_value byte) × (reason ≡ NotANumber)) }
{
    char::from(byte).to_digit(base).ok_or(Reason::NotANumber)
}
