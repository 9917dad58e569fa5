// Waiting for a conversion: how long it takes, and polling its status.
#![tactic(auto)]

ghost use Rattle.std.specs.Prelude.{◌≡◌};
ghost use Rattle.waiting.specs.Waiting.{figures, waited, wait_answer};
ghost use Rattle.waiting.specs.Polling.{polled, poll_answer};

mod conversion;
mod status;

use paper::Refusal;

// Which time is asked for: the longest that a conversion can take, or the usual one.
#[derive(Clone, Copy, Debug, PartialEq, Eq)]
pub enum Estimate {
    Maximum,
    Typical,
}

// Microseconds: a conversion's base, each sample, and what pressure or humidity takes more if it has any.
#[derive(Clone, Copy, Debug, PartialEq, Eq)]
pub struct Figures {
    pub base: u32,
    pub sample: u32,
    pub extra: u32,
}

// Where the first ready status byte stands, and the polls made.
#[derive(Clone, Copy, Debug, PartialEq, Eq)]
pub struct Ready {
    pub place: usize,
    pub polls: usize,
}

// That no status byte was ready in the polls made.
#[derive(Clone, Copy, Debug, PartialEq, Eq)]
pub struct NeverReady {
    pub polls: usize,
}

// The microseconds that a conversion with these oversampling codes takes, at most or typically.
// A code above 7 gives 7.
pub fn estimate_wait(
    estimate: Estimate,
    temperature: u8,
    pressure: u8,
    humidity: u8,
) -> Result<u32, Refusal>
    ensures { wait_answer result ≡ waited (figures estimate) temperature pressure humidity }
{
    if !paper::are_codes(temperature, pressure, humidity) {
        return Err(Refusal {
            number: paper::OUT_OF_RANGE,
        });
    }
    let figures = conversion::figures_of(estimate);
    Ok(conversion::microseconds(figures, temperature, pressure, humidity))
}

// The place of the first ready status byte and the polls made, place plus one.
// Where the bytes or the allowance run out first, 17 with the polls made.
pub fn poll(status: &[u8], allowance: usize) -> Result<Ready, NeverReady>
    ensures { poll_answer result ≡ polled status.now allowance }
{
    let limit = status.len().min(allowance);
    let mut polls = 0;
    // The paper asks for a polling loop that yields the ready place by break, so this is no search by `position`.
    let place = loop {
        if limit <= polls {
            return Err(NeverReady { polls });
        }
        if status::is_ready(status[polls]) {
            break polls;
        }
        polls += 1;
    };
    Ok(Ready {
        place,
        polls: place + 1,
    })
}
