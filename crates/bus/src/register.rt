// The register byte: what a bus does to it, and which a write can have there.
ghost use Rattle.std.specs.Prelude.{◌≡◌};
ghost use Rattle.bus.specs.RegisterByte.{is_carried, is_changed_writable, changed as changedBy, sending as sendingOn, receiving as receivingOn};

use crate::Bus;

const BIT_7: u8 = 0x80;

// What is done to a register byte. The definitions `sending` and `receiving` name it for each bus, so it is no closure.
#[derive(Clone, Copy)]
pub(crate) enum Change {
    Keep,
    ClearBit7,
    SetBit7,
}

// The register byte changed.
pub(crate) fn changed(change: Change, register: u8) -> u8
    ensures { result ≡ changedBy change register }
{
    match change {
        Change::Keep => register,
        Change::ClearBit7 => register % BIT_7,
        Change::SetBit7 => register % BIT_7 + BIT_7,
    }
}

// What sending on this bus does to a register byte.
pub(crate) fn sending(bus: Bus) -> Change
    ensures { result ≡ sendingOn bus }
{
    match bus {
        Bus::I2c => Change::Keep,
        Bus::Spi => Change::ClearBit7,
    }
}

// What receiving on this bus does to a register byte.
pub(crate) fn receiving(bus: Bus) -> Change
    ensures { result ≡ receivingOn bus }
{
    match bus {
        Bus::I2c => Change::Keep,
        Bus::Spi => Change::SetBit7,
    }
}

// Whether a write on this bus can have the register byte.
pub(crate) fn is_carried(bus: Bus, byte: u8) -> bool
    ensures { result ≡ is_carried bus byte }
{
    match bus {
        Bus::I2c => true,
        Bus::Spi => byte < BIT_7,
    }
}

// Whether the register that a byte means once changed may be written.
pub(crate) fn is_changed_writable(change: Change, byte: u8) -> bool
    ensures { result ≡ is_changed_writable change byte }
{
    paper::is_writable(changed(change, byte))
}
