// The shape of a write's bytes.
ghost use Rattle.std.specs.Prelude.{◌≡◌, ◌≤◌, length};
ghost use Rattle.bus.specs.Writing.{is_shaped, body as body_of};

use crate::{Bus, addressing, pairs, register};

// Whether the bytes have the shape of a write on this bus.
pub(crate) fn is_shaped(bus: Bus, bytes: &[u8]) -> bool
    ensures { result ≡ is_shaped bus bytes.now }
{
    if bytes.len() < 1 {
        return false;
    }
    if !addressing::is_led(bus, bytes[0]) {
        return false;
    }
    let pairs = body(bus, bytes);
    if pairs.len() % 2 != 0 {
        return false;
    }
    pairs::every(pairs, |byte| register::is_carried(bus, byte))
}

// What stands after the I2C address, and all there is on SPI.
pub(crate) fn body(bus: Bus, bytes: &[u8]) -> &[u8]
    requires { 1 ≤ length bytes.now }
    ensures { result.now ≡ body_of bus bytes.now }
{
    let start = addressing::leading_length(bus);
    &bytes[start..]
}
