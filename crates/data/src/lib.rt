// One layout of the eight data bytes, both ways: the counts of the three channels are taken out of them, and laid out in them.
#![tactic(auto)]

ghost use Rattle.std.specs.Prelude.{◌≡◌};
ghost use Rattle.data.specs.Counts as counted;

// The counts of the three channels.
#[derive(Clone, Copy)]
pub struct Counts {
    pub temperature: u32,
    pub pressure: u32,
    pub humidity: u32,
}

// The counts in the eight bytes 0xF7 to 0xFE: pressure, temperature, humidity, high byte first.
// They are read as one number, which the compiler loads at once. The low nibbles of 0xF9 and 0xFC are disregarded.
pub fn count(bytes: [u8; 8]) -> Counts
    ensures { result ≡ counted.counts_of bytes }
{
    part(u64::from_be_bytes(bytes))
}

// The counts in the eight bytes as one number: 20 bits from the top, 20 from the bit 20 on, and the last 16.
// The four bits below each of the first two are disregarded.
fn part(all: u64) -> Counts
    ensures { result ≡ counted.parted all }
{
    Counts {
        temperature: (all / 0x100000 % 0x100000) as u32,
        pressure: (all / 0x100000000000) as u32,
        humidity: (all % 0x10000) as u32,
    }
}

// The eight bytes 0xF7 to 0xFE of three counts: pressure, temperature, humidity, high bits first.
// The low nibbles of 0xF9 and 0xFC are 0.
pub fn lay(temperature: u32, pressure: u32, humidity: u32) -> [u8; 8]
    ensures { result ≡ counted.laid temperature pressure humidity }
{
    // Written out: for `to_be_bytes` each count would first be cut to its bits and shifted to its place in one number.
    [
        (pressure / 4096 % 256) as u8,
        (pressure / 16 % 256) as u8,
        (pressure % 16 * 16) as u8,
        (temperature / 4096 % 256) as u8,
        (temperature / 16 % 256) as u8,
        (temperature % 16 * 16) as u8,
        (humidity / 256 % 256) as u8,
        (humidity % 256) as u8,
    ]
}
