// A slot's values and their limits.
ghost use Rattle.std.specs.Prelude.{◌≡◌};
ghost use Rattle.visit.specs.Writer as writer;

use paper::Refusal;
use visit::{Answer, Holds, Place, Slot, Stage, Turn};

// Whether an answer is within the limits of its place.
fn is_within(place: Place, answer: Answer) -> bool
    ensures { result ≡ writer.is_within place answer }
{
    match answer {
        Ok(value) => value <= place.most(),
        Err(absent) => visit::FIRST_MISSING <= absent.number
            && absent.number <= visit::LAST_MISSING,
    }
}

// Whether a slot's time and answers are all within their limits.
#[tactic(auto, unfolding(visit::specs::Writer::slot_fits))]
fn slot_fits(slot: Slot) -> bool
    ensures { result ≡ writer.slot_fits slot }
{
    slot.time <= Place::First.most()
        && is_within(Place::Temperature, slot.temperature)
        && is_within(Place::Pressure, slot.pressure)
        && is_within(Place::Humidity, slot.humidity)
}

// The slot in its group, or 22.
pub(crate) fn take_slot(left: u8, slot: Slot) -> Turn
    ensures { result ≡ writer.slot_taken left slot }
{
    if slot_fits(slot) {
        return Ok(Stage::Open(left, Holds::Slot));
    }
    Err(Refusal {
        number: paper::VALUE_OUTSIDE,
    })
}
