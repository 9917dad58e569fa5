// A channel as a whole number.
ghost use Rattle.std.specs.Prelude.{◌≡◌};
ghost use Rattle.rooms.specs.Compared as compared;

use crate::Whole;
use formula::{ChannelAnswer, TemperatureAnswer};

// A temperature's whole number.
pub fn temperature(answer: TemperatureAnswer) -> Whole
    ensures { result ≡ compared.temperature_whole answer }
{
    answer.map(|t| t.value as i64)
}

// The whole number of a pressure or a humidity.
pub fn level(answer: ChannelAnswer) -> Whole
    ensures { result ≡ compared.channel_whole answer }
{
    answer.map(|value| value as i64)
}
