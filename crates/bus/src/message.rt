// The bytes of a write.
ghost use Rattle.std.specs.Prelude.{◌≡◌, true, ◌≤◌, length};
ghost use Rattle.bus.specs.Lent.{laid_over};
ghost use Rattle.bus.specs.Devices.{is_device};
ghost use Rattle.bus.specs.Pairs.{is_even};
ghost use Rattle.bus.specs.Writing.{message};

use crate::{Device, addressing, pairs, register};

// How many bytes the message has that sends the pairs to this device.
pub(crate) fn message_length(device: Device, pairs: &[u8]) -> usize
    ensures { result ≡ length (message device pairs.now) }
{
    addressing::leading_length(addressing::bus_of(device)) + pairs.len()
}

// Writes the message that sends the pairs to the device to the front of the lent buffer.
pub(crate) fn write_message(device: Device, pairs: &[u8], lent: &mut [u8])
    requires { (is_device device ≡ true) × (is_even pairs.now ≡ true) × (length (message device pairs.now) ≤ length lent.old) }
    ensures { lent.new ≡ laid_over (message device pairs.now) lent.old }
{
    let bus = addressing::bus_of(device);
    let start = addressing::leading_length(bus);
    addressing::write_leading(device, lent);
    pairs::write_changed(register::sending(bus), pairs, &mut lent[start..]);
}
