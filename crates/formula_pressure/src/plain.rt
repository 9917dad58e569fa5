// The plain road of the pressure: the maker's lines with no check, where the fine temperature and P1 are usual.
ghost use Rattle.std.specs.Prelude.{◌≡◌, ◌≤◌, nat_abs};
ghost use Rattle.steps.specs.declared.Signed.TheVariants.{Bits64};
ghost use Rattle.formula.specs.Plain.{Gives, channel_plainly};
ghost use Rattle.formula_pressure.specs.Plain.{Plain, Dividing, dividend_line, division_line, divides};
ghost use Rattle.formula_pressure.specs.Pressure.{offset_lines, scale_lines, refined_lines, pressure_of};

use super::{guards, lines};
use calibration::PressureWords;

// The offset that the dividend loses.
fn offset(words: PressureWords, difference: i64) -> i64
    requires { nat_abs difference ≤ 350000 }
    ensures { Gives Bits64 6700000000000000 (offset_lines words difference) result }
{
    let p4 = words.p4 as i64;
    let p5 = words.p5 as i64;
    let p6 = words.p6 as i64;
    difference * difference * p6 + difference * p5 * 131072 + p4 * 34359738368
}

// The divisor, which may be zero yet.
fn divisor(words: PressureWords, difference: i64) -> i64
    requires { (nat_abs difference ≤ 350000) × (words.p1 ≤ 45000) }
    ensures { Gives Bits64 1073741824 (scale_lines words difference) result }
{
    let p1 = words.p1 as i64;
    let p2 = words.p2 as i64;
    let p3 = words.p3 as i64;
    let var1 = (difference * difference * p3 >> 8) + difference * p2 * 4096;
    (140737488355328 + var1) * p1 >> 33
}

// The dividend, before the product with 3125.
fn dividend(count: u32, var2: i64) -> i64
    requires { (count ≤ 1048576) × (nat_abs var2 ≤ 6700000000000000) }
    ensures { Gives Bits64 11300000000000000 (dividend_line count var2) result }
{
    (1048576 - count as i64) * 2147483648 - var2
}

// The quotient.
fn quotient(dividend: i64, divisor: i64) -> i64
    requires { Dividing dividend divisor }
    ensures { Gives Bits64 68719476736 (division_line dividend divisor) result }
{
    dividend * 3125 / divisor
}

// The lines after the division.
fn refine(words: PressureWords, p: i64) -> i64
    requires { nat_abs p ≤ 68719476736 }
    ensures { Gives Bits64 4294967296 (refined_lines words p) result }
{
    let p7 = words.p7 as i64;
    let p8 = words.p8 as i64;
    let p9 = words.p9 as i64;
    let var1 = p9 * (p >> 13) * (p >> 13) >> 25;
    let var2 = p8 * p >> 19;
    (p + var1 + var2 >> 8) + p7 * 16
}

// The pressure, where the fine temperature and P1 are usual and the count has its twenty bits.
// The road ends before a division whose quotient may not be small.
pub(crate) fn pressure(words: PressureWords, fine: i32, count: u32) -> Option<u32>
    requires { Plain words.p1 fine count }
    ensures { result ≡ channel_plainly (divides words fine count) (pressure_of words fine count) }
{
    let difference = fine as i64 - 128000;
    let var2 = offset(words, difference);
    let var1 = divisor(words, difference);
    let above = dividend(count, var2);
    if guards::is_dividing(above, var1) {
        return lines::in_range(refine(words, quotient(above, var1))).ok();
    }
    None
}
