// The words of a line.
ghost use Rattle.std.specs.Prelude.{◌≡◌, ℕ, ◌+◌, ◌<◌, ◌≤◌, ◌≢◌, ◌^◌, length as size, drop, slice_index};
ghost use Rattle.bench_numbers.specs.Words.{word};

use memchr::memchr;

// The word that begins at a place of a line: what stands there before the next space, or before the line's end.
pub fn word(line: &[u8], from: usize) -> &[u8]
    ensures value { result.now ≡ word (drop from line.now) }
    ensures fits { from + size result.now < 2 ^ 64 }
{
    let rest = bench_bytes::rest(line, from);
    &rest[..before_space(rest)]
}

// How many bytes stand before a text's first space: all where it has none.
fn before_space(text: &[u8]) -> usize
    ensures within { result ≤ size text.now }
    ensures before { (k : ℕ) → k < result → slice_index text.now k ≢ 32 }
    ensures found { result < size text.now → slice_index text.now result ≡ 32 }
{
    memchr(b' ', text).unwrap_or(text.len())
}
