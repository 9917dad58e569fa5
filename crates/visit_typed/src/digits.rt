// Digits read one after another.
ghost use Rattle.std.specs.Prelude.{◌≡◌, ◌<◌, IfSome, length as size};
ghost use Rattle.visit_typed.specs.Typed as typed;

// The number that digits make, and the place after them.
#[derive(Clone, Copy)]
pub struct Digits {
    pub value: u64,
    pub end: usize,
}

// Ten digits make a number below this. One that is not takes no digit more.
pub const TEN_DIGITS: u64 = 10000000000;

// What a digit stands for, where the character is one.
#[tactic(auto, unfolding(crate::specs::Typed::digit))]
fn digit(byte: u8) -> Option<u64>
    ensures value { result ≡ typed.digit byte }
    ensures below { IfSome result (λ d. d < 10) }
{
    match byte {
        b'0'..=b'9' => Some(u64::from(byte - b'0')),
        _ => None,
    }
}

// What the digit at a place of a text stands for, where there is one.
#[tactic(auto, unfolding(crate::specs::Typed::digit_at))]
fn digit_at(text: &[u8], at: usize) -> Option<u64>
    ensures value { result ≡ typed.digit_at text.now at }
    ensures below { IfSome result (λ d. (d < 10) × (at < size text.now)) }
{
    digit(*text.get(at)?)
}

// A number with one digit more.
#[tactic(auto, unfolding(crate::specs::Typed::with_digit))]
fn with_digit(value: u64, digit: u64) -> u64
    requires { digit < 10 }
    ensures value { result ≡ typed.with_digit value digit }
    ensures bounded { value < 100000000000 → result < 100000000000 }
{
    if value < TEN_DIGITS {
        value * 10 + digit
    } else {
        value
    }
}

// The decimal at a text's front: one to ten digits.
#[tactic(auto, unfolding(crate::specs::Typed::digits, crate::specs::Typed::is_decimal))]
pub(crate) fn read(text: &[u8]) -> Option<Digits>
    ensures value { result ≡ typed.digits text.now }
    ensures bounded { IfSome result (λ d. (d.value < 100000000000) × (d.end < 11)) }
{
    let read = read_all(text);
    matches!(read.end, 1..=10).then_some(read)
}

// All digits at a text's front.
fn read_all(text: &[u8]) -> Digits
    ensures value { result ≡ typed.digits_on 0 text.now 0 }
    ensures bounded { result.value < 100000000000 }
{
    let mut value = 0;
    for (end, byte) in text.iter().enumerate() {
        let Some(d) = digit(*byte) else {
            return Digits { value, end };
        };
        value = with_digit(value, d);
    }
    Digits {
        value,
        end: text.len(),
    }
}

// So many decimals from a place on, with zeros for those that do not stand there.
// There are none where the first does not stand there.
#[tactic(auto, unfolding(crate::specs::Typed::part))]
pub(crate) fn read_part(text: &[u8], from: usize, places: u64) -> Option<Digits>
    ensures value { result ≡ typed.part text.now from places }
    ensures bounded { IfSome result (λ d. d.value < 100000000000) }
{
    let mut value = 0;
    let mut end = from;
    for _done in 0..places {
        let d = digit_at(text, end);
        value = with_digit(value, d.unwrap_or(0));
        if d.is_some() {
            end += 1;
        }
    }
    (from < end).then_some(Digits { value, end })
}
