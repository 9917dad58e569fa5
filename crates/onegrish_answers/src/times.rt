// Waiting and polling, handed over as numbers.
ghost use Rattle.std.specs.Prelude.{◌≡◌};
ghost use Rattle.waiting.specs.Waiting.{wait_answer};
ghost use Rattle.waiting.specs.Polling.{poll_answer};
ghost use Rattle.onegrish_answers.specs.Handed as into;

use crate::handing;
use paper::Refusal;
use waiting::{NeverReady, Ready};

// The number of a wait; its microseconds are written where it is 0.
pub fn hand_wait(wait: Result<u32, Refusal>, microseconds: &mut u32) -> u8
    ensures { (result, microseconds.new) ≡ into.number_into (wait_answer wait) microseconds.old }
{
    handing::hand(wait, microseconds)
}

// The number of a poll; its place is written where it is 0.
pub fn hand_place(polled: Result<Ready, NeverReady>, place: &mut usize) -> u8
    ensures { (result, place.new) ≡ into.place_into (poll_answer polled) place.old }
{
    match polled {
        Ok(ready) => {
            *place = ready.place;
            paper::DONE
        }
        Err(_) => paper::NEVER_READY,
    }
}

// The polls made, whether a byte was ready or not.
pub fn polls_made(polled: Result<Ready, NeverReady>) -> usize
    ensures { result ≡ into.polls_of (poll_answer polled) }
{
    match polled {
        Ok(ready) => ready.polls,
        Err(unready) => unready.polls,
    }
}
