// A page and what is written on it: single bytes, texts, and numbers as digits.
#![tactic(auto)]

ghost use Rattle.std.specs.Prelude.{◌≡◌, nat_abs, [], ◌∷◌};
ghost use Rattle.bench_page.specs.Page.{◌▹◌};
ghost use Rattle.bench_page.specs.Digits as spelt;

mod digits;

// Bytes that are lent to be written on, and the place of the next.
// Past the end nothing is written, and the place stays.
#[derive(Drop)]
pub struct Page<'a> {
    pub out: &'a mut [u8],
    pub at: usize,
}

impl Page<'_> {
    // Writes one byte at the place, and moves the place on by one.
    #[tactic(auto, unfolding(crate::specs::Page::written_byte, crate::specs::Page::written))]
    pub fn write_byte(&mut self, byte: u8)
        ensures { self.new ≡ self.old ▹ byte ∷ [] }
    {
        if self.at < self.out.len() {
            self.out[self.at] = byte;
            self.at += 1;
        }
    }

    // Writes a text.
    pub fn write_text(&mut self, text: &[u8])
        ensures { self.new ≡ self.old ▹ text.now }
    {
        for &byte in text {
            self.write_byte(byte);
        }
    }

    // Writes a number in decimal: the digits of a tenth of it where that has any, and then its last digit.
    pub fn write_decimal(&mut self, n: u64)
        ensures { self.new ≡ self.old ▹ spelt.decimal n }
    {
        if n >= 10 {
            self.write_decimal(n / 10);
        }
        self.write_byte(digits::last_digit(n));
    }

    // Writes a signed number in decimal, with a minus where it is negative.
    pub fn write_signed(&mut self, z: i32)
        ensures { self.new ≡ self.old ▹ spelt.signed z }
    {
        if z < 0 {
            self.write_byte(digits::MINUS);
        }
        self.write_decimal(magnitude(z));
    }

    // Writes a byte as two hex digits, in upper case.
    #[tactic(auto, unfolding(crate::specs::Page::written, crate::specs::Digits::pair))]
    pub fn write_pair(&mut self, byte: u8)
        ensures { self.new ≡ self.old ▹ spelt.pair byte }
    {
        self.write_byte(digits::hex(byte / 16));
        self.write_byte(digits::hex(byte % 16));
    }

    // Writes bytes as hex pairs run together, and a dash for none.
    pub fn write_bytes(&mut self, bytes: &[u8])
        ensures { self.new ≡ self.old ▹ spelt.shown bytes.now }
    {
        if bytes.is_empty() {
            self.write_byte(b'-');
        }
        for &byte in bytes {
            self.write_pair(byte);
        }
    }
}

// How far from zero a signed number lies.
pub fn magnitude(z: i32) -> u64
    ensures { result ≡ nat_abs z }
{
    u64::from(z.unsigned_abs())
}
