// Compensation by the kind of part: its lengths, and whether it has humidity, are those of the table of chip facts.
// The blocks come as two slices and the codes as three bytes: C lends and hands them so, and docs/PROMISES.md promises the call.
#![tactic(auto)]

ghost use Rattle.std.specs.Prelude.{◌≡◌};
ghost use Rattle.compensation.specs.Compensation.{reading_answer};
ghost use Rattle.compensation_kinds.specs.Kinds.{compensated_by};

mod bmp280;

use compensation::Answer;
use kinds::Kind;

// The reading that the calibration blocks and the data bytes of a part make, at the codes of temperature, pressure and humidity.
// Lengths other than the part's refuse it with 2, and then a code above 7 with 7. A BMP280 has no humidity: its channel is always 10.
pub fn compensate(kind: Kind, one: &[u8], two: &[u8], bytes: &[u8], t: u8, p: u8, h: u8) -> Answer
    ensures { reading_answer result ≡ reading_answer (compensated_by kind one.now two.now bytes.now t p h) }
{
    match kind {
        Kind::Bme280 => compensation::compensate(one, two, bytes, t, p, h),
        Kind::Bmp280 => bmp280::compensate(one, two, bytes, t, p, h),
    }
}
