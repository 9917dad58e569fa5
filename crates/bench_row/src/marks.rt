// The numbers that a mark of a form may stand for.
ghost use Rattle.std.specs.Prelude.{◌≡◌, ℕ, List};
ghost use Rattle.bench_page.specs.Page.{◌▹◌};
ghost use Rattle.bench_row.specs.Row as row;

use bench_page::Page;

// A number that is written at a mark.
pub trait Marked: Copy {
    ghost shown: { ℕ → Self → List ℕ };

    // Writes what stands for one byte of a form: the number at its mark, and any other byte as it is.
    fn write(self, byte: u8, page: &mut Page)
        ensures { page.new ≡ page.old ▹ shown byte self };
}

impl Marked for u64 {
    ghost shown = { row.place };

    // '#' marks a number in decimal, and '@' its last byte as two hex digits.
    fn write(self, byte: u8, page: &mut Page) {
        match byte {
            b'#' => page.write_decimal(self),
            b'@' => page.write_pair((self % 256) as u8),
            _ => page.write_byte(byte),
        }
    }
}

impl Marked for i32 {
    ghost shown = { row.signed_place };

    // '#' marks a signed number.
    fn write(self, byte: u8, page: &mut Page) {
        match byte {
            b'#' => page.write_signed(self),
            _ => page.write_byte(byte),
        }
    }
}
