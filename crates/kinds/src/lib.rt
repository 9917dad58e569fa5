// The kinds of part, and what each has of its own: one table of chip facts.
#![tactic(auto)]

ghost use Rattle.std.specs.Prelude.{◌≡◌};
ghost use Rattle.kinds.specs.Chips as chips;

// The kind of a part. It is chosen with the fresh state, and stays.
#[derive(Clone, Copy)]
pub enum Kind {
    Bme280,
    Bmp280,
}

// What a kind of part has of its own: the byte at 0xD0; whether there are humidity and its register F2; the last data address; the lengths of the
// calibration blocks and of the data; and the data bytes of the fresh state. Data bytes have eight places, and those past a part's own are 0.
#[derive(Clone, Copy)]
pub struct Chip {
    pub id: u8,
    pub humidity: bool,
    pub last: u8,
    pub one: usize,
    pub two: usize,
    pub bytes: usize,
    pub fresh: [u8; 8],
}

// The table's row for a kind.
pub fn facts(kind: Kind) -> Chip
    ensures { result ≡ chips.facts kind }
{
    match kind {
        Kind::Bme280 => Chip {
            id: paper::BME280,
            humidity: true,
            last: paper::LAST_DATA,
            one: paper::BLOCK_ONE,
            two: paper::BLOCK_TWO,
            bytes: paper::DATA,
            fresh: paper::FRESH_BYTES,
        },
        Kind::Bmp280 => Chip {
            id: 0x58,
            humidity: false,
            last: 0xFC,
            one: paper::BLOCK_ONE,
            two: 0,
            bytes: 6,
            fresh: [0x80, 0x00, 0x00, 0x80, 0x00, 0x00, 0x00, 0x00],
        },
    }
}

// Whether a register of a part may be written: F4, F5 and E0, and F2 where it is there.
pub fn is_writable(kind: Kind, register: u8) -> bool
    ensures { result ≡ chips.is_writable kind register }
{
    let chip = facts(kind);
    ((register != paper::CTRL_HUM) | chip.humidity) & paper::is_writable(register)
}
