// The bytes that ask a device for a register.
ghost use Rattle.std.specs.Prelude.{◌≡◌, true, ◌≤◌, length};
ghost use Rattle.bus.specs.Lent.{laid_over};
ghost use Rattle.bus.specs.Devices.{is_device};
ghost use Rattle.bus.specs.Reading.{question};

use crate::register::Change;
use crate::{Device, register};

// How many bytes ask this device for a register.
pub(crate) fn question_length(device: Device, register: u8) -> usize
    ensures { result ≡ length (question device register) }
{
    match device {
        Device::At(_) => 3,
        Device::Selected => 1,
    }
}

// Writes the bytes that ask the device for the register to the front of the lent buffer.
pub(crate) fn write_question(device: Device, register: u8, lent: &mut [u8])
    requires { (is_device device ≡ true) × (length (question device register) ≤ length lent.old) }
    ensures { lent.new ≡ laid_over (question device register) lent.old }
{
    match device {
        Device::At(address) => {
            lent[0] = address * 2;
            lent[1] = register;
            lent[2] = address * 2 + 1;
        }
        Device::Selected => {
            lent[0] = register::changed(Change::SetBit7, register);
        }
    }
}
