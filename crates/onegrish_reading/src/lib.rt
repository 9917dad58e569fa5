// A reading handed to C: the paper's number, and the channels in lent slices, which are written on 0 alone.
#![tactic(auto)]

ghost use Rattle.std.specs.Prelude.{◌≡◌};
ghost use Rattle.compensation.specs.Compensation.{compensated_with};
ghost use Rattle.onegrish_channels.specs.Channels.{reading_into};

mod plain; // one whose three channels take the plain road

use calibration::Calibration;

// The number of the reading that bytes make with a chip's words; its channels are written where it is 0.
// What refused the words refuses the reading. Real air takes the plain road, and needs no answer in between.
// Codes and lent slices come one by one, as C hands them over: a struct of them would be built for this one call and taken apart in it.
pub fn hand_compensated(
    known: Calibration,
    bytes: &[u8],
    t: u8,
    p: u8,
    h: u8,
    numbers: &mut [u8],
    values: &mut [i64],
) -> u8
    ensures { (result, numbers.new, values.new)
        ≡ reading_into (compensated_with known bytes.now t p h) numbers.old values.old }
{
    if plain::hand(known, bytes, t, p, h, numbers, values) {
        return paper::DONE;
    }
    onegrish_channels::hand_reading(
        compensation::compensate_with(known, bytes, t, p, h),
        numbers,
        values,
    )
}
