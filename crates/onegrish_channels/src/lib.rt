// A reading laid in lent slices: the paper's number, and the channels on 0 alone.
#![tactic(auto)]

ghost use Rattle.std.specs.Prelude.{◌≡◌, ◌≤◌, ◌<◌, length};
ghost use Rattle.onegrish_channels.specs.Channels as into;

use compensation::{Answer, Reading};
use formula::{ChannelAnswer, TemperatureAnswer};

// The number of a temperature; its values are written where it is 0.
fn hand_temperature(answer: TemperatureAnswer, values: &mut [i64]) -> u8
    requires { 4 ≤ length values.old }
    ensures { (result, values.new) ≡ into.temperature_into answer values.old }
{
    match answer {
        Ok(t) => {
            values[0] = t.value as i64;
            values[1] = t.fine as i64;
            paper::DONE
        }
        Err(missing) => missing.number,
    }
}

// The number of a pressure or a humidity; its value is written at its place where it is 0.
fn hand_channel(answer: ChannelAnswer, place: usize, values: &mut [i64]) -> u8
    requires { place < length values.old }
    ensures { (result, values.new) ≡ into.channel_into answer place values.old }
{
    match answer {
        Ok(value) => {
            values[place] = value as i64;
            paper::DONE
        }
        Err(missing) => missing.number,
    }
}

// The three channels of a reading, each at its places.
fn hand_channels(reading: Reading, numbers: &mut [u8], values: &mut [i64])
    requires { (3 ≤ length numbers.old) × (4 ≤ length values.old) }
    ensures { (numbers.new, values.new) ≡ into.channels_into reading numbers.old values.old }
{
    numbers[0] = hand_temperature(reading.temperature, values);
    numbers[1] = hand_channel(reading.pressure, 2, values);
    numbers[2] = hand_channel(reading.humidity, 3, values);
}

// The number of a reading; its channels are written where it is 0.
// A reading that is done asks for three numbers and four values, and is answered 9 without them.
pub fn hand_reading(answer: Answer, numbers: &mut [u8], values: &mut [i64]) -> u8
    ensures { (result, numbers.new, values.new) ≡ into.reading_into answer numbers.old values.old }
{
    match answer {
        Ok(reading) => {
            if numbers.len() < 3 || values.len() < 4 {
                return paper::BUFFER_TOO_SHORT;
            }
            hand_channels(reading, numbers, values);
            paper::DONE
        }
        Err(why) => why.number,
    }
}
