// Pieces of an answer on a page.
#![tactic(auto)]

ghost use Rattle.std.specs.Prelude.{◌≡◌};
ghost use Rattle.bench_phrases.specs.Phrases as phrases;

use bench_numbers::Reason;
use bench_page::Page;

// Writes the newline that ends an answer.
pub fn end(page: &mut Page)
    ensures { page.new ≡ phrases.ended page.old }
{
    page.write_text(b"\n");
}

// Writes a line that says why a line is not answered.
pub fn refuse(reason: Reason, page: &mut Page)
    ensures { page.new ≡ phrases.refused reason page.old }
{
    page.write_text(line(reason));
}

// The line for each reason.
fn line(reason: Reason) -> &'static [u8]
    ensures { result.now ≡ phrases.line reason }
{
    match reason {
        Reason::UnknownWord => b"? unknown word\n",
        Reason::WrongNumberOfWords => b"? wrong number of words\n",
        Reason::NotANumber => b"? not a number\n",
        Reason::OddHex => b"? odd hex\n",
        Reason::TooLong => b"? too long\n",
    }
}
