// The parts of a text, with marks between them.
ghost use Rattle.std.specs.Prelude.{◌≡◌, ℕ, ◌<◌, ◌≤◌, ◌≢◌, length as size, get_or, slice_index};
ghost use Rattle.bench_step.specs.Reading as reading;

// The place of the first mark in a text, or the text's end where there is none.
pub fn find(text: &[u8], mark: u8) -> usize
    ensures within { result ≤ size text.now }
    ensures before { (k : ℕ) → k < result → slice_index text.now k ≢ mark }
    ensures found { result < size text.now → slice_index text.now result ≡ mark }
{
    text.iter()
        .position(|&byte| byte == mark)
        .unwrap_or(text.len())
}

// What stands in a text after the first mark: nothing where there is none.
pub fn after(text: &[u8], mark: u8) -> &[u8]
    ensures { result.now ≡ reading.after mark text.now }
{
    let end = find(text, mark);
    if end < text.len() {
        return bench_bytes::rest(text, end + 1);
    }
    bench_bytes::rest(text, end)
}

// The first character of a text, and 0 where it has none.
pub fn first(text: &[u8]) -> u8
    ensures { result ≡ get_or text.now 0 0 }
{
    text.first().copied().unwrap_or(0)
}
