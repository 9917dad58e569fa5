// The parts of bytes that stand one after another.
#![tactic(auto)]

ghost use Rattle.std.specs.Prelude.{◌≡◌, ◌≤◌, length as size, take, drop};

// The first n bytes, or all where there are fewer.
pub fn front(bytes: &[u8], n: usize) -> &[u8]
    ensures { result.now ≡ take n bytes.now }
{
    let end = cut(bytes, n);
    &bytes[..end]
}

// What stands after the first n bytes, and none where there are fewer.
pub fn rest(bytes: &[u8], n: usize) -> &[u8]
    ensures { result.now ≡ drop n bytes.now }
{
    let start = cut(bytes, n);
    &bytes[start..]
}

// The place where the first n bytes end, which is the end of all where there are fewer.
fn cut(bytes: &[u8], n: usize) -> usize
    ensures { (result ≤ size bytes.now) × (take result bytes.now ≡ take n bytes.now) × (drop result bytes.now ≡ drop n bytes.now) }
{
    n.min(bytes.len())
}
