// The checks in the paper's order: the first that fails refuses with its number.
ghost use Rattle.std.specs.Prelude.{◌≡◌, leb, length, Err};
ghost use Rattle.paper.specs.Numbers as no;
ghost use Rattle.paper.specs.Answers.{refusal};
ghost use Rattle.bus.specs.Lent.{check, checked};
ghost use Rattle.bus.specs.RegisterByte.{is_changed_writable};
ghost use Rattle.bus.specs.Writing.{pairs_number, encode_number, decode_number, pairs_of};
ghost use Rattle.bus.specs.Reading.{read_number};

use crate::register::Change;
use crate::{Bus, Device, addressing, pairs, register, shape};
use paper::Refusal;

// No answer, for the reason that the number names.
fn refused(number: u8) -> Result<(), Refusal>
    ensures { result ≡ Err (refusal number) }
{
    Err(Refusal { number })
}

// Whether the room is enough: 9.
fn check_room(needed: usize, room: usize) -> Result<(), Refusal>
    ensures { result ≡ checked (check (leb needed room) no.buffer_too_short no.done) }
{
    if room < needed {
        return refused(paper::BUFFER_TOO_SHORT);
    }
    Ok(())
}

// Of pairs whose registers, once changed, are to be written: 15, 4, 9.
fn check_pairs(change: Change, pairs: &[u8], needed: usize, room: usize) -> Result<(), Refusal>
    ensures { result ≡ checked (pairs_number (is_changed_writable change) pairs.now needed room) }
{
    if !pairs::are_pairs(pairs) {
        return refused(paper::PAIRS_OUTSIDE);
    }
    if !pairs::every(pairs, |byte| register::is_changed_writable(change, byte)) {
        return refused(paper::ADDRESS_NOT_ALLOWED);
    }
    check_room(needed, room)
}

// Of pairs to be sent to the device: 4 for the device address, 15, 4 for registers, 9.
pub(crate) fn check_encoding(
    device: Device,
    pairs: &[u8],
    needed: usize,
    room: usize,
) -> Result<(), Refusal>
    ensures { result ≡ checked (encode_number device pairs.now needed room) }
{
    if !addressing::is_device(device) {
        return refused(paper::ADDRESS_NOT_ALLOWED);
    }
    check_pairs(Change::Keep, pairs, needed, room)
}

// Of bytes received on the bus: 16, 15, 4, 9.
pub(crate) fn check_decoding(bus: Bus, bytes: &[u8], room: usize) -> Result<(), Refusal>
    ensures { result ≡ checked (decode_number bus bytes.now (length (pairs_of bus bytes.now)) room) }
{
    if !shape::is_shaped(bus, bytes) {
        return refused(paper::WRONG_SHAPE);
    }
    let pairs = shape::body(bus, bytes);
    check_pairs(register::receiving(bus), pairs, pairs.len(), room)
}

// Of a register to be asked for: 4 for the device address, 4 for the register, 9.
pub(crate) fn check_reading(
    device: Device,
    register: u8,
    needed: usize,
    room: usize,
) -> Result<(), Refusal>
    ensures { result ≡ checked (read_number device register needed room) }
{
    if !addressing::is_device(device) {
        return refused(paper::ADDRESS_NOT_ALLOWED);
    }
    if !paper::is_readable(register) {
        return refused(paper::ADDRESS_NOT_ALLOWED);
    }
    check_room(needed, room)
}
