// What a chip's bytes say: the words of its blocks, and a reading.
#![tactic(auto)]

ghost use Rattle.std.specs.Prelude.{◌≡◌, [], ◌∷◌};
ghost use Rattle.bench_page.specs.Page.{◌▹◌};
ghost use Rattle.bench_reading.specs.Reading as text;

use bench_page::Page;
use compensation::{Answer, Reading};
use formula::{ChannelAnswer, Temperature, TemperatureAnswer};

// Writes the words of two calibration blocks, or the number that refuses them.
pub fn cal(one: &[u8], two: &[u8], page: &mut Page)
    ensures { page.new ≡ page.old ▹ text.cal one.now two.now }
{
    bench_calibration::write_calibration(calibration::calibrate(one, two), page);
}

// Writes a reading, or the number that refuses it.
pub fn comp(answer: Answer, page: &mut Page)
    ensures { page.new ≡ page.old ▹ text.answered answer }
{
    match answer {
        Ok(reading) => write_reading(reading, page),
        Err(refusal) => page.write_decimal(refusal.number as u64),
    }
}

// Writes the number that says there is a reading, and its channels.
#[tactic(auto, using(bench_page::proofs::Laws::joined), unfolding(crate::specs::Reading::reading))]
fn write_reading(reading: Reading, page: &mut Page)
    ensures { page.new ≡ page.old ▹ text.reading reading }
{
    page.write_decimal(paper::DONE as u64);
    write_channels(reading, page);
}

// Writes the three channels of a reading, each after a space.
#[tactic(auto, using(bench_page::proofs::Laws::joined), unfolding(crate::specs::Reading::channels))]
pub fn write_channels(reading: Reading, page: &mut Page)
    ensures { page.new ≡ page.old ▹ text.channels reading }
{
    write_temperature(reading.temperature, page);
    write_channel(b'p', reading.pressure, page);
    write_channel(b'h', reading.humidity, page);
}

// Writes a temperature with its fine temperature, or the number in their place.
fn write_temperature(channel: TemperatureAnswer, page: &mut Page)
    ensures { page.new ≡ page.old ▹ text.temperature channel }
{
    match channel {
        Ok(known) => write_known(known, page),
        Err(m) => write_number(b't', b'!', m.number as u64, page),
    }
}

// Writes a temperature with its fine temperature.
fn write_known(known: Temperature, page: &mut Page)
    ensures { page.new ≡ page.old ▹ text.known known }
{
    bench_row::fill_signed(b" t=# fine=#", &[known.value, known.fine], page);
}

// Writes a pressure or a humidity after its letter, or the number in its place.
fn write_channel(letter: u8, channel: ChannelAnswer, page: &mut Page)
    ensures { page.new ≡ page.old ▹ text.channel (letter ∷ []) channel }
{
    match channel {
        Ok(value) => write_number(letter, b'=', value as u64, page),
        Err(m) => write_number(letter, b'!', m.number as u64, page),
    }
}

// Writes a number after a letter, with the mark that says whether it is a value.
fn write_number(letter: u8, mark: u8, n: u64, page: &mut Page)
    ensures { page.new ≡ page.old ▹ text.one (letter ∷ []) (mark ∷ []) n }
{
    bench_row::fill(&[b' ', letter, mark, b'#'], &[n], page);
}
