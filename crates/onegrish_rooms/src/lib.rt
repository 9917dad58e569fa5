// The library for C, for a map of rooms: a reading's map point in lent doubles and flags, and two rooms compared.
// Each function but onegrish_compare answers the paper's number, and nothing is written but on 0.
#![tactic(auto)]

ghost use Rattle.std.specs.Prelude.{◌≡◌};
ghost use Rattle.compensation.specs.Compensation.{compensated};
ghost use Rattle.rooms.specs.Compared.{compared_channels, compared_rooms};
ghost use Rattle.onegrish_rooms.specs.Points.{point_into};
ghost use Rattle.onegrish_rooms.specs.Verdicts.{channel_of, verdict_number, tolerances_of, verdicts_into};

mod points; // a map point in lent places
mod verdicts; // verdicts as numbers, and in lent places

use rooms::{MapPoint, Tolerances};

// What is handed over of a reading: its map point, and the number of each cell.
#[derive(Clone, Copy)]
pub struct Marks {
    pub point: MapPoint,
    pub temperature: u8,
    pub pressure: u8,
    pub humidity: u8,
}

// The map point of one reading: at the front of `doubles` the channels in hundredths of a degree, Pa and %RH, at the front of `known` 1 for
// one that has a value and 0 for one that is missing, and at the front of `numbers` its number. A reading that is refused whole is a point
// too, with three missing. 9 for fewer than 3 of any.
#[unsafe(no_mangle)]
pub extern "C" fn onegrish_point(
    one: &[u8],
    two: &[u8],
    bytes: &[u8],
    t: u8,
    p: u8,
    h: u8,
    doubles: &mut [f64],
    known: &mut [u8],
    numbers: &mut [u8],
) -> u8
    ensures { (result, doubles.new, known.new, numbers.new)
        ≡ point_into (compensated one.now two.now bytes.now t p h)
        doubles.old known.old numbers.old }
{
    points::hand_marks(
        points::mark(compensation::compensate(one, two, bytes, t, p, h)),
        doubles,
        known,
        numbers,
    )
}

// What two channels are to each other, each with the number and the value that onegrish_compensate hands over: unknown, agree or differ.
// Where a number is not 0 the verdict is unknown, whatever stands for the value. It answers no number of the paper's.
#[unsafe(no_mangle)]
pub extern "C" fn onegrish_compare(
    here_number: u8,
    here_value: i64,
    there_number: u8,
    there_value: i64,
    tolerance: u32,
) -> u8
    ensures { result ≡ verdict_number (compared_channels (channel_of here_number here_value) (channel_of there_number there_value) tolerance) }
{
    verdicts::verdict_number(rooms::compare_channels(
        verdicts::take_channel(here_number, here_value),
        verdicts::take_channel(there_number, there_value),
        tolerance,
    ))
}

// What two rooms are to each other by a reading of each, at the front of `verdicts`: temperature, pressure, humidity, each by its tolerance.
// A reading that is refused whole is unknown in all three. 9 for fewer than 3 verdicts.
#[unsafe(no_mangle)]
pub extern "C" fn onegrish_compare_rooms(
    here_one: &[u8],
    here_two: &[u8],
    here_bytes: &[u8],
    here_t: u8,
    here_p: u8,
    here_h: u8,
    there_one: &[u8],
    there_two: &[u8],
    there_bytes: &[u8],
    there_t: u8,
    there_p: u8,
    there_h: u8,
    temperature: u32,
    pressure: u32,
    humidity: u32,
    verdicts: &mut [u8],
) -> u8
    ensures { (result, verdicts.new) ≡ verdicts_into
        (compared_rooms
        (compensated here_one.now here_two.now here_bytes.now here_t here_p here_h)
        (compensated there_one.now there_two.now there_bytes.now there_t there_p there_h)
        (tolerances_of temperature pressure humidity))
        verdicts.old }
{
    verdicts::hand_verdicts(
        rooms::compare_rooms(
            compensation::compensate(here_one, here_two, here_bytes, here_t, here_p, here_h),
            compensation::compensate(there_one, there_two, there_bytes, there_t, there_p, there_h),
            Tolerances {
                temperature,
                pressure,
                humidity,
            },
        ),
        verdicts,
    )
}
