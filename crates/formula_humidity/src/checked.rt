// The checked road: the maker's lines with every step tested, for all words, fine temperatures and counts.
ghost use Rattle.std.specs.Prelude.{◌≡◌};
ghost use Rattle.formula_humidity.specs.Humidity.{humidity_of};

use super::lines;
use calibration::HumidityWords;
use formula::ChannelAnswer;

// The humidity.
#[tactic(auto, using(steps::proofs::Laws::back), unfolding(steps::specs::Work::run, steps::specs::Step::on_value, crate::specs::Humidity::humidity_formula, crate::specs::Humidity::humidity_of))]
pub fn humidity(words: HumidityWords, fine: i32, count: u32) -> ChannelAnswer
    ensures { result ≡ humidity_of words fine count }
{
    Ok(lines::last(lines::humidity(words, fine, count)?))
}
