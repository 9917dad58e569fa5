// A number's digits, each as a character.
ghost use Rattle.std.specs.Prelude.{◌≡◌, ◌<◌};
ghost use Rattle.bench_page.specs.Digits as spelt;

pub const MINUS: u8 = b'-';

// The upper-case hex digit of a number below 16.
#[tactic(auto, unfolding(crate::specs::Digits::hex_digit))]
pub(crate) fn hex(n: u8) -> u8
    requires { n < 16 }
    ensures { result ≡ spelt.hex_digit n }
{
    if n < 10 { b'0' + n } else { b'A' + (n - 10) }
}

// The last decimal digit of a number, as a character.
pub fn last_digit(n: u64) -> u8
    ensures { result ≡ spelt.last_digit n }
{
    b'0' + (n % 10) as u8
}
