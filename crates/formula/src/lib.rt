// What the maker's three formulas share: their answers, the numbers that they are given, their first step,
// and the guard of the plain roads on the fine temperature.
#![tactic(auto)]

ghost use Rattle.std.specs.Prelude.{◌≡◌, IsOkAnd};
ghost use Rattle.steps.specs.Work.{run, given, num, ◌-ʷ◌};
ghost use Rattle.formula.specs.Plain.{is_usual};

use paper::Missing;
use steps::{Num, Signed, subtract};

// A temperature in hundredths of a degree, with the fine temperature that goes into the other two formulas.
#[derive(Clone, Copy, Debug, PartialEq, Eq)]
pub struct Temperature {
    pub value: i32,
    pub fine: i32,
}

// A temperature, or what stands in its place.
pub type TemperatureAnswer = Result<Temperature, Missing>;

// A pressure in Pa times 256 or a humidity in %RH times 1024, or what stands in its place.
pub type ChannelAnswer = Result<u32, Missing>;

// A count, a word or a fine temperature, as the number that a formula is given.
pub fn number<N: Into<i64>>(x: N) -> Num
    ensures { IsOkAnd result (N.converts x) }
{
    Ok(x.into())
}

// How far a fine temperature lies above where a formula starts, as one step.
pub fn difference(width: Signed, fine: i32, start: u32) -> Num
    ensures { result ≡ run width (given fine -ʷ num start) }
{
    subtract(width, number(fine), number(start))
}

// Whether a fine temperature is one from -43 to 93 degrees.
// Then the pressure's and the humidity's first differences are small.
pub fn is_usual(fine: i32) -> bool
    ensures { result ≡ is_usual fine }
{
    (-222000 <= fine) & (fine <= 478000)
}
