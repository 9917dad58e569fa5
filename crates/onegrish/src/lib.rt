// The library for C: numbers and lent slices alone. include/onegrish.h declares these functions.
// Each answers the paper's number, and nothing is written but on 0. C has a name of its own for each bus and each estimate, and no struct or enum
// is handed over, so calls that differ in one constant stand side by side.
#![tactic(auto)]

ghost use Rattle.std.specs.Prelude.{◌≡◌};
ghost use Rattle.compensation.specs.Compensation.{compensated};
ghost use Rattle.waiting.specs.Waiting.{maximum, typical, waited};
ghost use Rattle.waiting.specs.Polling.{polled};
ghost use Rattle.bus.specs.declared.Bus.TheVariants.{I2c, Spi};
ghost use Rattle.bus.specs.declared.Device.TheVariants.{At, Selected};
ghost use Rattle.bus.specs.Writing.{encoded_write, decoded_write};
ghost use Rattle.bus.specs.Reading.{encoded_read};
ghost use Rattle.onegrish_channels.specs.Channels.{reading_into};
ghost use Rattle.onegrish_answers.specs.Handed.{number_into, place_into, polls_of};
ghost use Rattle.onegrish.specs.Lent.{bytes_into, pairs_into};
ghost use Rattle.onegrish_answers.specs.Version.{version};

use bus::{Bus, Device};
use onegrish_answers::{messages, times};
use waiting::Estimate;

// The version of the interface that the library was built with.
// It answers no number of the paper's.
#[unsafe(no_mangle)]
pub extern "C" fn onegrish_version() -> u32
    ensures { result ≡ version }
{
    onegrish_answers::version()
}

// One reading: its channels' numbers at the front of `numbers`, and at the front of `values` the temperature, the fine
// temperature, the pressure and the humidity. A channel whose number is not 0 leaves its places in `values` as they were.
// 2 for lengths, 7 for codes, then 9 for fewer than 3 numbers or 4 values.
#[unsafe(no_mangle)]
pub extern "C" fn onegrish_compensate(
    one: &[u8],
    two: &[u8],
    bytes: &[u8],
    t: u8,
    p: u8,
    h: u8,
    numbers: &mut [u8],
    values: &mut [i64],
) -> u8
    ensures { (result, numbers.new, values.new)
        ≡ reading_into (compensated one.now two.now bytes.now t p h) numbers.old values.old }
{
    onegrish_reading::hand_compensated(
        calibration::calibrate(one, two),
        bytes,
        t,
        p,
        h,
        numbers,
        values,
    )
}

// The microseconds that a conversion takes at most.
// 7 for a code above 7.
#[unsafe(no_mangle)]
pub extern "C" fn onegrish_maximum_wait(t: u8, p: u8, h: u8, microseconds: &mut u32) -> u8
    ensures { (result, microseconds.new) ≡ number_into (waited maximum t p h) microseconds.old }
{
    times::hand_wait(
        waiting::estimate_wait(Estimate::Maximum, t, p, h),
        microseconds,
    )
}

// The microseconds that a conversion typically takes.
// 7 for a code above 7.
#[unsafe(no_mangle)]
pub extern "C" fn onegrish_typical_wait(t: u8, p: u8, h: u8, microseconds: &mut u32) -> u8
    ensures { (result, microseconds.new) ≡ number_into (waited typical t p h) microseconds.old }
{
    times::hand_wait(
        waiting::estimate_wait(Estimate::Typical, t, p, h),
        microseconds,
    )
}

// The place of the first ready status byte.
// 17 where none is ready before the bytes or the allowance run out.
#[unsafe(no_mangle)]
pub extern "C" fn onegrish_poll(status: &[u8], allowance: usize, place: &mut usize) -> u8
    ensures { (result, place.new) ≡ place_into (polled status.now allowance) place.old }
{
    times::hand_place(waiting::poll(status, allowance), place)
}

// How many polls that took, whether a byte was ready or not.
#[unsafe(no_mangle)]
pub extern "C" fn onegrish_polls(status: &[u8], allowance: usize) -> usize
    ensures { result ≡ polls_of (polled status.now allowance) }
{
    times::polls_made(waiting::poll(status, allowance))
}

// The I2C message that writes the pairs to the device at `address`, at the front of `lent`, and its length.
// 4 for the device address, 15, 4 for registers, 9.
#[unsafe(no_mangle)]
pub extern "C" fn onegrish_i2c_write(
    address: u8,
    pairs: &[u8],
    lent: &mut [u8],
    length: &mut usize,
) -> u8
    ensures { (result, length.new, lent.new) ≡ bytes_into (encoded_write (At address) pairs.now lent.old) length.old }
{
    messages::hand_length(bus::encode_write(Device::At(address), pairs, lent), length)
}

// The SPI message that writes the pairs, at the front of `lent`, and its length.
// 15, 4 for registers, 9.
#[unsafe(no_mangle)]
pub extern "C" fn onegrish_spi_write(pairs: &[u8], lent: &mut [u8], length: &mut usize) -> u8
    ensures { (result, length.new, lent.new) ≡ bytes_into (encoded_write Selected pairs.now lent.old) length.old }
{
    messages::hand_length(bus::encode_write(Device::Selected, pairs, lent), length)
}

// Both messages of an I2C read of a register, at the front of `lent`, and their length.
// 4 for the device address, 4 for the register, 9.
#[unsafe(no_mangle)]
pub extern "C" fn onegrish_i2c_read(
    address: u8,
    register: u8,
    lent: &mut [u8],
    length: &mut usize,
) -> u8
    ensures { (result, length.new, lent.new) ≡ bytes_into (encoded_read (At address) register lent.old) length.old }
{
    messages::hand_length(
        bus::encode_read(Device::At(address), register, lent),
        length,
    )
}

// The SPI message that reads a register, at the front of `lent`, and its length.
// 4 for the register, 9.
#[unsafe(no_mangle)]
pub extern "C" fn onegrish_spi_read(register: u8, lent: &mut [u8], length: &mut usize) -> u8
    ensures { (result, length.new, lent.new) ≡ bytes_into (encoded_read Selected register lent.old) length.old }
{
    messages::hand_length(bus::encode_read(Device::Selected, register, lent), length)
}

// The pairs that an I2C write carries, at the front of `lent`, with the device's address and the pairs' length.
// 16, 15, 4, 9.
#[unsafe(no_mangle)]
pub extern "C" fn onegrish_i2c_decode(
    bytes: &[u8],
    lent: &mut [u8],
    address: &mut u8,
    length: &mut usize,
) -> u8
    ensures { (result, address.new, length.new, lent.new)
        ≡ pairs_into (decoded_write I2c bytes.now lent.old) address.old length.old }
{
    messages::hand_pairs(bus::decode_write(Bus::I2c, bytes, lent), address, length)
}

// The pairs that an SPI write carries, at the front of `lent`, and their length.
// 16, 15, 4, 9.
#[unsafe(no_mangle)]
pub extern "C" fn onegrish_spi_decode(bytes: &[u8], lent: &mut [u8], length: &mut usize) -> u8
    ensures { (result, length.new, lent.new) ≡ bytes_into (decoded_write Spi bytes.now lent.old) length.old }
{
    messages::hand_pairs_length(bus::decode_write(Bus::Spi, bytes, lent), length)
}
