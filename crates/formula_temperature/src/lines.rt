// The maker's lines of the temperature, at 32 bits.
ghost use Rattle.std.specs.Prelude.{◌≡◌};
ghost use Rattle.steps.specs.declared.Signed.TheVariants.{Bits32};
ghost use Rattle.steps.specs.Work.{run};
ghost use Rattle.formula_temperature.specs.Temperature.{slope_line, curve_line, fine_lines, degrees_line};

use calibration::TemperatureWords;
use formula::number;
use steps::{Num, Signed, add, multiply, shift_left, shift_right, subtract};

// The maker's var1: the count's distance from T1, times T2.
fn slope(words: TemperatureWords, count: u32) -> Num
    ensures { result ≡ run Bits32 (slope_line words count) }
{
    let w = Signed::Bits32;
    let adc = number(count);
    let t1 = number(words.t1);
    let t2 = number(words.t2);
    let difference = subtract(w, shift_right(w, adc, 3), shift_left(w, t1, 1));
    shift_right(w, multiply(w, difference, t2), 11)
}

// The maker's var2: the square of that distance, times T3.
fn curve(words: TemperatureWords, count: u32) -> Num
    ensures { result ≡ run Bits32 (curve_line words count) }
{
    let w = Signed::Bits32;
    let adc = number(count);
    let t1 = number(words.t1);
    let t3 = number(words.t3);
    let difference = subtract(w, shift_right(w, adc, 4), t1);
    let square = shift_right(w, multiply(w, difference, difference), 12);
    shift_right(w, multiply(w, square, t3), 14)
}

// The fine temperature: the sum of the two.
#[tactic(auto, using(steps::proofs::Laws::back), unfolding(steps::specs::Work::run, steps::specs::Step::on_value, steps::specs::Step::on_values, steps::specs::Step::added, crate::specs::Temperature::fine_lines))]
pub fn fine(words: TemperatureWords, count: u32) -> Num
    ensures { result ≡ run Bits32 (fine_lines words count) }
{
    add(Signed::Bits32, slope(words, count), curve(words, count))
}

// The temperature in hundredths of a degree, from the fine temperature.
#[tactic(auto, using(steps::proofs::Laws::back), unfolding(steps::specs::Work::run, steps::specs::Step::added, steps::specs::Step::multiplied, steps::specs::Step::shifted_right, crate::specs::Temperature::degrees_line))]
pub fn degrees(fine: i64) -> Num
    ensures { result ≡ run Bits32 (degrees_line fine) }
{
    let w = Signed::Bits32;
    let product = multiply(w, Ok(fine), Ok(5));
    shift_right(w, add(w, product, Ok(128)), 8)
}
