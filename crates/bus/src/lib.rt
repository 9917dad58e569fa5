// Bus bytes: writes and reads as the byte sequences of I2C and SPI.
#![tactic(auto)]

ghost use Rattle.std.specs.Prelude.{◌≡◌};
ghost use Rattle.bus.specs.Writing.{encoded_write, encoded_answer, decoded_write, decoded_answer};
ghost use Rattle.bus.specs.Reading.{encoded_read};

mod addressing;
mod checks;
mod message;
mod pairs;
mod question;
mod register;
mod shape;

use paper::Refusal;

// The two buses.
#[derive(Clone, Copy, Debug, PartialEq, Eq)]
pub enum Bus {
    I2c,
    Spi,
}

// The device that a message is for: on I2C at its address, on SPI selected by its own line.
#[derive(Clone, Copy, Debug, PartialEq, Eq)]
pub enum Device {
    At(u8),
    Selected,
}

// What a write decodes to: the device that it is for, and how many bytes of pairs were written to the lent buffer.
#[derive(Clone, Copy, Debug, PartialEq, Eq)]
pub struct Decoded {
    pub device: Device,
    pub bytes: usize,
}

// Writes the message that sets each register of the pairs to its value.
// Refuses with 4 for the device address, 15, 4 for registers, 9.
pub fn encode_write(device: Device, pairs: &[u8], lent: &mut [u8]) -> Result<usize, Refusal>
    ensures { (encoded_answer result, lent.new) ≡ encoded_write device pairs.now lent.old }
{
    let length = message::message_length(device, pairs);
    checks::check_encoding(device, pairs, length, lent.len())?;
    message::write_message(device, pairs, lent);
    Ok(length)
}

// Writes the pairs that a write's bytes carry, and gives the device that they are for.
// Refuses with 16, 15, 4, 9.
pub fn decode_write(bus: Bus, bytes: &[u8], lent: &mut [u8]) -> Result<Decoded, Refusal>
    ensures { (decoded_answer result, lent.new) ≡ decoded_write bus bytes.now lent.old }
{
    checks::check_decoding(bus, bytes, lent.len())?;
    let body = shape::body(bus, bytes);
    pairs::write_changed(register::receiving(bus), body, lent);
    Ok(Decoded {
        device: addressing::addressed(bus, bytes[0]),
        bytes: body.len(),
    })
}

// Writes the bytes that ask the device for a register: on I2C both messages, one after the other.
// Refuses with 4 for the device address, 4 for the register, 9.
pub fn encode_read(device: Device, register: u8, lent: &mut [u8]) -> Result<usize, Refusal>
    ensures { (encoded_answer result, lent.new) ≡ encoded_read device register lent.old }
{
    let length = question::question_length(device, register);
    checks::check_reading(device, register, length, lent.len())?;
    question::write_question(device, register, lent);
    Ok(length)
}
