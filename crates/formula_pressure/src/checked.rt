// The checked road: the maker's lines with every step tested, for all words, fine temperatures and counts.
ghost use Rattle.std.specs.Prelude.{◌≡◌};
ghost use Rattle.formula_pressure.specs.Pressure.{pressure_of};

use super::lines;
use calibration::PressureWords;
use formula::ChannelAnswer;

// The pressure.
#[tactic(auto, using(steps::proofs::Laws::back), unfolding(steps::specs::Work::run, steps::specs::Step::on_value, crate::specs::Pressure::pressure_formula, crate::specs::Pressure::pressure_of))]
pub fn pressure(words: PressureWords, fine: i32, count: u32) -> ChannelAnswer
    ensures { result ≡ pressure_of words fine count }
{
    lines::in_range(lines::pressure(words, fine, count)?)
}
