// Two values and two readings compared.
ghost use Rattle.std.specs.Prelude.{◌≡◌};
ghost use Rattle.rooms.specs.Compared as compared;

use crate::{Tolerances, Verdict, Verdicts, compare_channels, wholes};
use compensation::Reading;

// What two values are to each other that are so far apart.
pub fn judge(distance: u64, tolerance: u32) -> Verdict
    ensures { result ≡ compared.judged distance tolerance }
{
    if distance <= tolerance as u64 {
        Verdict::Agree
    } else {
        Verdict::Differ
    }
}

// What two readings are to each other.
pub fn compare_readings(one: Reading, two: Reading, tolerances: Tolerances) -> Verdicts
    ensures { result ≡ compared.compared_readings one two tolerances }
{
    Verdicts {
        temperature: compare_channels(
            wholes::temperature(one.temperature),
            wholes::temperature(two.temperature),
            tolerances.temperature,
        ),
        pressure: compare_channels(
            wholes::level(one.pressure),
            wholes::level(two.pressure),
            tolerances.pressure,
        ),
        humidity: compare_channels(
            wholes::level(one.humidity),
            wholes::level(two.humidity),
            tolerances.humidity,
        ),
    }
}
