// Devices: which there can be, and the bytes that say which one is meant.
ghost use Rattle.std.specs.Prelude.{◌≡◌, true, ◌≤◌, length};
ghost use Rattle.bus.specs.Lent.{laid_over};
ghost use Rattle.bus.specs.Devices.{bus_of, is_address, is_device, leading, leading_length, is_doubled, is_led, addressed as addressedBy};

use crate::{Bus, Device};

// The bus that the device is on.
pub(crate) fn bus_of(device: Device) -> Bus
    ensures { result ≡ bus_of device }
{
    match device {
        Device::At(_) => Bus::I2c,
        Device::Selected => Bus::Spi,
    }
}

// Whether there can be such a device: on I2C only at two addresses.
pub(crate) fn is_device(device: Device) -> bool
    ensures { result ≡ is_device device }
{
    match device {
        Device::At(address) => is_address(address),
        Device::Selected => true,
    }
}

// How many bytes a write has before its pairs.
pub(crate) fn leading_length(bus: Bus) -> usize
    ensures { (result ≡ leading_length bus) × (result ≤ 1) }
{
    match bus {
        Bus::I2c => 1,
        Bus::Spi => 0,
    }
}

// Writes what a write has before its pairs to the front of the lent buffer.
pub(crate) fn write_leading(device: Device, lent: &mut [u8])
    requires { (is_device device ≡ true) × (length (leading device) ≤ length lent.old) }
    ensures { lent.new ≡ laid_over (leading device) lent.old }
{
    match device {
        Device::At(address) => {
            lent[0] = address * 2;
        }
        Device::Selected => {}
    }
}

// Whether a write's first byte fits the bus: on I2C an address doubled, on SPI any.
pub(crate) fn is_led(bus: Bus, first: u8) -> bool
    ensures { result ≡ is_led bus first }
{
    match bus {
        Bus::I2c => is_doubled(first),
        Bus::Spi => true,
    }
}

// The device that a write with this first byte is for.
pub(crate) fn addressed(bus: Bus, first: u8) -> Device
    ensures { result ≡ addressedBy bus first }
{
    match bus {
        Bus::I2c => Device::At(first / 2),
        Bus::Spi => Device::Selected,
    }
}

// Whether the number is a device address on I2C.
fn is_address(address: u8) -> bool
    ensures { result ≡ is_address address }
{
    (address == paper::I2C_LOW) | (address == paper::I2C_HIGH)
}

// Whether the byte is a device address doubled.
fn is_doubled(byte: u8) -> bool
    ensures { result ≡ is_doubled byte }
{
    (byte == paper::I2C_LOW * 2) | (byte == paper::I2C_HIGH * 2)
}
