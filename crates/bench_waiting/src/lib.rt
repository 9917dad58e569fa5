// Waiting times and polls: wait, poll.
#![tactic(auto)]

ghost use Rattle.std.specs.Prelude.{◌≡◌};
ghost use Rattle.bench_page.specs.Page.{◌▹◌};
ghost use Rattle.waiting.specs.Waiting.{maximum, typical, waited, wait_answer};
ghost use Rattle.waiting.specs.Polling.{polled, poll_answer};
ghost use Rattle.bench_waiting.specs.Times as times;

use bench_page::Page;
use paper::Refusal;
use waiting::{Estimate, NeverReady, Ready};

// A command asks for each wait by a name of its own: with the estimate as an argument the same constant would stand at each call instead of here.

// Writes the microseconds that a conversion at three codes takes at most, or the number that refuses them.
pub fn wait_maximum(t: u8, p: u8, h: u8, page: &mut Page)
    ensures { page.new ≡ page.old ▹ times.wait (waited maximum t p h) }
{
    write_wait(waiting::estimate_wait(Estimate::Maximum, t, p, h), page);
}

// Writes the microseconds that a conversion at three codes typically takes, or the number that refuses them.
pub fn wait_typical(t: u8, p: u8, h: u8, page: &mut Page)
    ensures { page.new ≡ page.old ▹ times.wait (waited typical t p h) }
{
    write_wait(waiting::estimate_wait(Estimate::Typical, t, p, h), page);
}

// Writes the place of the first ready status byte and the polls made, or 17 with the polls made.
pub fn poll(status: &[u8], allowance: usize, page: &mut Page)
    ensures { page.new ≡ page.old ▹ times.poll (polled status.now allowance) }
{
    write_poll(waiting::poll(status, allowance), page);
}

// Writes microseconds, or the number in their place.
fn write_wait(wait: Result<u32, Refusal>, page: &mut Page)
    ensures { page.new ≡ page.old ▹ times.wait (wait_answer wait) }
{
    match wait {
        Ok(n) => bench_row::fill(b"# #", &[paper::DONE as u64, n as u64], page),
        Err(why) => page.write_decimal(why.number as u64),
    }
}

// Writes a place with the polls made, or the polls made.
fn write_poll(polled: Result<Ready, NeverReady>, page: &mut Page)
    ensures { page.new ≡ page.old ▹ times.poll (poll_answer polled) }
{
    match polled {
        Ok(Ready { place, polls }) => bench_row::fill(
            b"# place=# polls=#",
            &[paper::DONE as u64, place as u64, polls as u64],
            page,
        ),
        Err(NeverReady { polls }) => bench_row::fill(
            b"# polls=#",
            &[paper::NEVER_READY as u64, polls as u64],
            page,
        ),
    }
}
