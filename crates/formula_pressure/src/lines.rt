// The maker's lines of the pressure, at 64 bits.
ghost use Rattle.std.specs.Prelude.{◌≡◌};
ghost use Rattle.paper.specs.Numbers as no;
ghost use Rattle.steps.specs.declared.Signed.TheVariants.{Bits64};
ghost use Rattle.steps.specs.Step.{passed};
ghost use Rattle.steps.specs.Work.{run};
ghost use Rattle.formula.specs.Answers.{answered};
ghost use Rattle.formula_pressure.specs.Pressure.{offset_lines, divisor_lines, quotient_lines, curve_line, slope_line, last_line, refined_lines, pressure_lines, is_pressure};

use calibration::PressureWords;
use formula::{ChannelAnswer, difference, number};
use paper::Missing;
use steps::{Num, Signed, add, divide, multiply, refuse_zero, shift_left, shift_right, subtract};

// The maker's var2, in its three lines, from the first var1.
fn offset(words: PressureWords, difference: i64) -> Num
    ensures { result ≡ run Bits64 (offset_lines words difference) }
{
    let w = Signed::Bits64;
    let p4 = number(words.p4);
    let p5 = number(words.p5);
    let p6 = number(words.p6);
    let var1 = Ok(difference);
    let square = multiply(w, multiply(w, var1, var1), p6);
    let line = shift_left(w, multiply(w, var1, p5), 17);
    add(w, add(w, square, line), shift_left(w, p4, 35))
}

// The maker's second var1, in its two lines, from the first. It divides, so it is refused where it is zero.
fn divisor(words: PressureWords, difference: i64) -> Num
    ensures { result ≡ run Bits64 (divisor_lines words difference) }
{
    let w = Signed::Bits64;
    let p1 = number(words.p1);
    let p2 = number(words.p2);
    let p3 = number(words.p3);
    let var1 = Ok(difference);
    let square = shift_right(w, multiply(w, multiply(w, var1, var1), p3), 8);
    let line = shift_left(w, multiply(w, var1, p2), 12);
    let sum = add(w, shift_left(w, Ok(1), 47), add(w, square, line));
    refuse_zero(shift_right(w, multiply(w, sum, p1), 33))
}

// The maker's p, in its two lines: what the count leaves of 1048576, less var2, over var1.
fn quotient(count: u32, var2: i64, var1: i64) -> Num
    ensures { result ≡ run Bits64 (quotient_lines count var2 var1) }
{
    let w = Signed::Bits64;
    let p = subtract(w, Ok(1048576), number(count));
    let above = subtract(w, shift_left(w, p, 31), Ok(var2));
    divide(w, multiply(w, above, Ok(3125)), Ok(var1))
}

// The maker's third var1, with P9.
fn curve(words: PressureWords, p: i64) -> Num
    ensures { result ≡ run Bits64 (curve_line words p) }
{
    let w = Signed::Bits64;
    let p9 = number(words.p9);
    let coarse = shift_right(w, Ok(p), 13);
    shift_right(w, multiply(w, multiply(w, p9, coarse), coarse), 25)
}

// The maker's second var2, with P8.
fn slope(words: PressureWords, p: i64) -> Num
    ensures { result ≡ run Bits64 (slope_line words p) }
{
    let w = Signed::Bits64;
    shift_right(w, multiply(w, number(words.p8), Ok(p)), 19)
}

// The maker's last line: P7 times 16 is added after the shift by 8.
fn last(words: PressureWords, p: i64, var1: i64, var2: i64) -> Num
    ensures { result ≡ run Bits64 (last_line words p var1 var2) }
{
    let w = Signed::Bits64;
    let p7 = number(words.p7);
    let sum = add(w, add(w, Ok(p), Ok(var1)), Ok(var2));
    add(w, shift_right(w, sum, 8), shift_left(w, p7, 4))
}

// The lines after the division.
#[tactic(auto, using(steps::proofs::Laws::back), unfolding(steps::specs::Work::run, steps::specs::Step::on_value, crate::specs::Pressure::refined_lines))]
fn refine(words: PressureWords, p: i64) -> Num
    ensures { result ≡ run Bits64 (refined_lines words p) }
{
    let var1 = curve(words, p)?;
    let var2 = slope(words, p)?;
    last(words, p, var1, var2)
}

// The lines one after the other: the first refusal decides.
#[tactic(auto, using(steps::proofs::Laws::back), unfolding(steps::specs::Work::run, steps::specs::Step::on_value, crate::specs::Pressure::difference_line, crate::specs::Pressure::pressure_lines))]
pub fn pressure(words: PressureWords, fine: i32, count: u32) -> Num
    ensures { result ≡ run Bits64 (pressure_lines words fine count) }
{
    let difference = difference(Signed::Bits64, fine, 128000)?;
    let var2 = offset(words, difference)?;
    let var1 = divisor(words, difference)?;
    let p = quotient(count, var2, var1)?;
    refine(words, p)
}

// The pressure, where it lies from 0 to 4294967295.
pub fn in_range(p: i64) -> ChannelAnswer
    ensures { result ≡ answered (passed (is_pressure p) no.pressure_outside p) }
{
    // Two comparisons: with `u32::try_from` a day's reading takes 152 instructions, which misses the bar beside C (docs/SPEED.md).
    if p < 0 || p > 4294967295 {
        return Err(Missing {
            number: paper::PRESSURE_OUTSIDE,
        });
    }
    Ok(p as u32)
}
