// The library for C, for a caller who keeps a chip's words: they are read once, and readings are compensated with them.
// It stands apart from the crate onegrish because the compiler puts the formulas whole into a call only where no other call has them.
#![tactic(auto)]

ghost use Rattle.std.specs.Prelude.{◌≡◌};
ghost use Rattle.calibration.specs.Calibration.{calibrated};
ghost use Rattle.onegrish_laid.specs.Written.{words_into};
ghost use Rattle.onegrish_channels.specs.Channels.{reading_into};
ghost use Rattle.onegrish_words.specs.Kept.{compensated_kept};

// The 18 words T1 to T3, P1 to P9, H1 to H6 of the two calibration blocks, at the front of `words`.
// 2 for blocks that are not 26 and 7 bytes long, then 9 for fewer than 18 places.
#[unsafe(no_mangle)]
pub extern "C" fn onegrish_words(one: &[u8], two: &[u8], words: &mut [i16]) -> u8
    ensures { (result, words.new) ≡ words_into (calibrated one.now two.now) words.old }
{
    onegrish_laid::hand_words(calibration::calibrate(one, two), words)
}

// One reading with kept words: its channels' numbers at the front of `numbers`, and at the front of `values` the temperature, the fine
// temperature, the pressure and the humidity. A channel whose number is not 0 leaves its places in `values` as they were.
// 2 for lengths, which are all looked at first, 7 for words and codes, then 9 for fewer than 3 numbers or 4 values.
#[unsafe(no_mangle)]
pub extern "C" fn onegrish_compensate_words(
    words: &[i16],
    bytes: &[u8],
    t: u8,
    p: u8,
    h: u8,
    numbers: &mut [u8],
    values: &mut [i64],
) -> u8
    ensures { (result, numbers.new, values.new)
        ≡ reading_into (compensated_kept words.now bytes.now t p h) numbers.old values.old }
{
    if bytes.len() == paper::DATA {
        return onegrish_reading::hand_compensated(
            onegrish_kept::take_words(words),
            bytes,
            t,
            p,
            h,
            numbers,
            values,
        );
    }
    paper::WRONG_LENGTH
}
