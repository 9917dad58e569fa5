// The library for C, for a BMP280: one reading, by the same steps and in the same lent places as a BME280's.
#![tactic(auto)]

ghost use Rattle.std.specs.Prelude.{◌≡◌};
ghost use Rattle.kinds.specs.declared.Kind.TheVariants.{Bmp280};
ghost use Rattle.compensation_kinds.specs.Kinds.{compensated_by};
ghost use Rattle.onegrish_channels.specs.Channels.{reading_into};

use kinds::Kind;

// One reading of a BMP280, out of block one, an empty block two and six data bytes: its channels' numbers at the front of `numbers`, and at the front
// of `values` the temperature, the fine temperature and the pressure. Humidity's number is 10. A channel whose number is not 0 leaves its places in
// `values` as they were. 2 for lengths, 7 for codes, the third too, then 9 for fewer than 3 numbers or 4 values.
#[unsafe(no_mangle)]
pub extern "C" fn onegrish_compensate_bmp280(
    one: &[u8],
    two: &[u8],
    bytes: &[u8],
    t: u8,
    p: u8,
    h: u8,
    numbers: &mut [u8],
    values: &mut [i64],
) -> u8
    ensures { (result, numbers.new, values.new)
        ≡ reading_into (compensated_by Bmp280 one.now two.now bytes.now t p h) numbers.old values.old }
{
    onegrish_channels::hand_reading(
        compensation_kinds::compensate(Kind::Bmp280, one, two, bytes, t, p, h),
        numbers,
        values,
    )
}
