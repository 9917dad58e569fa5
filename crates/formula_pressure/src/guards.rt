// The guards of the plain road: what comes in, the dividend and the divisor have to be such that no step can leave its type.
// Real air lies well within; what lies outside takes the checked road.
ghost use Rattle.std.specs.Prelude.{◌≡◌};
ghost use Rattle.formula_pressure.specs.Plain.{is_plain, is_dividing};

use formula::is_usual;

// Whether the fine temperature is a usual one, P1 at most 45000, and the count at most 2 to the 20.
// Then the steps up to the division stay within 64 bits.
pub(crate) fn is_plain(p1: u16, fine: i32, count: u32) -> bool
    ensures { result ≡ is_plain p1 fine count }
{
    is_usual(fine) & (p1 <= 45000) & (count <= 1048576)
}

// Whether the pressure's dividend is one from 0 to 2 to the 51, and its divisor 2 to the 27 or more.
// Then the quotient is below 2 to the 36, and the steps after it stay within 64 bits.
pub(crate) fn is_dividing(dividend: i64, divisor: i64) -> bool
    ensures { result ≡ is_dividing dividend divisor }
{
    (0 <= dividend) & (dividend < 2251799813685248) & (134217728 <= divisor)
}
