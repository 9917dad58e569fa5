// Places in a text.
ghost use Rattle.std.specs.Prelude.{◌≡◌, ◌≤◌, length};
ghost use Rattle.std.specs.List.{count_by};
ghost use Rattle.bench_command.specs.Words as words;

use memchr::memchr_iter;

// How many words a text has: one more than spaces.
#[tactic(auto, using(crate::proofs::Counting::counted))]
pub fn count(text: &[u8]) -> usize
    ensures { result ≡ words.count text.now }
{
    spaces(text) + 1
}

// How many spaces stand in a text.
#[tactic(auto, using(crate::proofs::Counting::found))]
fn spaces(text: &[u8]) -> usize
    ensures value { result ≡ count_by words.is_space text.now }
    ensures bound { result ≤ length text.now }
{
    memchr_iter(b' ', text).count()
}

// The place after one, and past the text's end the same.
pub fn past(text: &[u8], at: usize) -> usize
    ensures { result ≡ words.past text.now at }
{
    if at < text.len() { at + 1 } else { at }
}
