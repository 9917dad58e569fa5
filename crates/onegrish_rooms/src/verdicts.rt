// Verdicts as numbers, and in lent places.
ghost use Rattle.std.specs.Prelude.{◌≡◌, ◌≤◌, length};
ghost use Rattle.onegrish_rooms.specs.Verdicts as into;

use paper::Missing;
use rooms::{Verdict, Verdicts, Whole};

// The verdicts by their numbers, which include/onegrish.h names too.
const UNKNOWN: u8 = 0;

const AGREE: u8 = 1;

const DIFFER: u8 = 2;

// The number of a verdict.
pub fn verdict_number(verdict: Verdict) -> u8
    ensures { result ≡ into.verdict_number verdict }
{
    match verdict {
        Verdict::Unknown => UNKNOWN,
        Verdict::Agree => AGREE,
        Verdict::Differ => DIFFER,
    }
}

// A channel as C hands it over, a number with a value beside it: its value where its number is 0.
pub fn take_channel(number: u8, value: i64) -> Whole
    ensures { result ≡ into.channel_of number value }
{
    if number == paper::DONE {
        Ok(value)
    } else {
        Err(Missing { number })
    }
}

// 0, and three verdicts at the front of what is lent.
// 9 for fewer than three places, and then nothing is written.
pub fn hand_verdicts(verdicts: Verdicts, lent: &mut [u8]) -> u8
    ensures { (result, lent.new) ≡ into.verdicts_into verdicts lent.old }
{
    if 3 <= lent.len() {
        lay_verdicts(verdicts, lent);
        return paper::DONE;
    }
    paper::BUFFER_TOO_SHORT
}

// The numbers of three verdicts.
fn lay_verdicts(verdicts: Verdicts, lent: &mut [u8])
    requires { 3 ≤ length lent.old }
    ensures { lent.new ≡ into.with_verdicts verdicts lent.old }
{
    lent[0] = verdict_number(verdicts.temperature);
    lent[1] = verdict_number(verdicts.pressure);
    lent[2] = verdict_number(verdicts.humidity);
}
