// A row: a form, which is a text with a mark for each number, and the numbers that it is filled with.
#![tactic(auto)]

ghost use Rattle.std.specs.Prelude.{◌≡◌, ◌+◌, ◌≤◌, ◌<◌, get_or};
ghost use Rattle.bench_page.specs.Page.{◌▹◌};
ghost use Rattle.bench_row.specs.Row as row;

mod marks;

use bench_page::Page;
use marks::Marked;

// Writes a form with its numbers: '#' marks one shown in decimal, and '@' a byte shown as two hex digits.
pub fn fill(form: &[u8], numbers: &[u64], page: &mut Page)
    ensures { page.new ≡ page.old ▹ row.filled form.now numbers.now }
{
    fill_marks(form, numbers, 0, page);
}

// The same with signed numbers: '#' marks one.
pub fn fill_signed(form: &[u8], numbers: &[i32], page: &mut Page)
    ensures { page.new ≡ page.old ▹ row.filled_signed form.now numbers.now }
{
    fill_marks(form, numbers, 0, page);
}

// Writes a form with numbers of either kind; the number of a mark past the last is given.
fn fill_marks<N: Marked>(form: &[u8], numbers: &[N], past: N, page: &mut Page)
    ensures { page.new ≡ page.old ▹ row.filled_from N.shown past form.now numbers.now 0 }
{
    let mut k = 0;
    for &byte in form {
        number_at(numbers, k, past).write(byte, page);
        k = after(byte, k);
    }
}

// Writes what a lent buffer holds.
pub fn write_buffer(lent: &[u8], page: &mut Page)
    ensures { page.new ≡ page.old ▹ row.buffer lent.now }
{
    page.write_text(b" buf=");
    page.write_bytes(lent);
}

// The number of a mark, and what is given past the last.
fn number_at<N: Copy>(numbers: &[N], k: usize, past: N) -> N
    ensures { result ≡ get_or numbers.now k past }
{
    numbers.get(k).copied().unwrap_or(past)
}

// The place of the number that the next mark after a byte shows.
fn after(byte: u8, k: usize) -> usize
    requires { k < 0xFFFFFFFFFFFFFFFF }
    ensures { (result ≡ row.after byte k) × (result ≤ k + 1) }
{
    match byte {
        b'#' | b'@' => k + 1,
        _ => k,
    }
}
