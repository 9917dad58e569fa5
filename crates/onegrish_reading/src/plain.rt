// A reading whose three channels are enabled and take the plain road, handed over with no answer in between.
// Each function says whether it was; where it was not, nothing is written.
ghost use Rattle.std.specs.Prelude.{◌≡◌, ◌≤◌, length};
ghost use Rattle.paper.specs.Registers as reg;
ghost use Rattle.data.specs.Counts.{counts_of};
ghost use Rattle.compensation.specs.Compensation.{reading, compensated_with};
ghost use Rattle.onegrish_channels.specs.Channels.{channels_into, reading_into};
ghost use Rattle.onegrish_reading.specs.Plain.{is_tried, done_with, Handed};

use calibration::{Calibration, Words};
use data::Counts;

// The three channels of counts, where each takes the plain road.
fn hand_counts(words: Words, counts: Counts, numbers: &mut [u8], values: &mut [i64]) -> bool
    requires { (3 ≤ length numbers.old) × (4 ≤ length values.old) }
    ensures { Handed result (done_with (channels_into (reading words counts 1 1 1) numbers.old values.old))
        (numbers.old, values.old) (numbers.new, values.new) }
{
    let Some(plain) = plain_reading::read_counts(words, counts) else {
        return false;
    };
    onegrish_channels::hand_reading(plain_reading::answer(plain), numbers, values);
    true
}

// Whether the plain road is tried: with eight bytes, enabled codes, and room for three numbers and four values.
fn is_tried(bytes: usize, t: u8, p: u8, h: u8, numbers: usize, values: usize) -> bool
    ensures { result ≡ is_tried bytes t p h numbers values }
{
    bytes == paper::DATA && plain_reading::are_enabled(t, p, h) && 3 <= numbers && 4 <= values
}

// The counts in eight bytes.
fn count(bytes: &[u8]) -> Counts
    requires { length bytes.now ≡ reg.data_length }
    ensures { result ≡ counts_of bytes.now }
{
    data::count(<[u8; paper::DATA]>::try_from(bytes).unwrap())
}

// The reading that eight bytes make with the words that two blocks gave, or with what refused them.
pub fn hand(
    known: Calibration,
    bytes: &[u8],
    t: u8,
    p: u8,
    h: u8,
    numbers: &mut [u8],
    values: &mut [i64],
) -> bool
    ensures { Handed result (reading_into (compensated_with known bytes.now t p h) numbers.old values.old)
        (numbers.old, values.old) (numbers.new, values.new) }
{
    let Ok(words) = known else {
        return false;
    };
    if !is_tried(bytes.len(), t, p, h, numbers.len(), values.len()) {
        return false;
    }
    hand_counts(words, count(bytes), numbers, values)
}
