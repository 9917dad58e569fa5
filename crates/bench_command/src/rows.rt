// A row of the table beside a line.
ghost use Rattle.std.specs.Prelude.{◌≡◌};
ghost use Rattle.bench_command.specs.Arguments.{is_argument};
ghost use Rattle.bench_command.specs.Table as table;

use crate::text;

// Whether a character of a row stands for an argument: it is a capital.
pub fn is_argument(character: u8) -> bool
    ensures { result ≡ is_argument character }
{
    character.is_ascii_uppercase()
}

// Whether the words of a row, up to its arguments, are the first words of a line, as far as the line goes.
pub fn fits(row: &[u8], line: &[u8]) -> bool
    ensures { result ≡ table.fits row.now line.now }
{
    for (i, &character) in row.iter().enumerate() {
        if is_argument(character) {
            return true;
        }
        if line.len() <= i {
            return character == b' ';
        }
        if character != line[i] {
            return false;
        }
    }
    line.len() <= row.len() || line[row.len()] == b' '
}

// Whether any words may follow those of a row: it ends in an S.
#[tactic(auto, using(crate::proofs::Opening::is, crate::proofs::Opening::is_not, crate::proofs::Opening::is_empty))]
fn is_open(row: &[u8]) -> bool
    ensures { result ≡ table.is_open row.now }
{
    matches!(row, [.., b'S'])
}

// Whether a line of so many words is of a row: its first words are the row's, and it has as many words, or more where the row is open.
pub fn is_of(row: &[u8], line: &[u8], words: usize) -> bool
    ensures { result ≡ table.is_of row.now line.now words }
{
    if !fits(row, line) {
        return false;
    }
    let count = text::count(row);
    if is_open(row) {
        count <= words
    } else {
        count == words
    }
}
