// How many bytes a slot's fields have.
ghost use Rattle.std.specs.Prelude.{◌≡◌, ◌≤◌};
ghost use Rattle.visit_bytes.specs.Bytes as adds;

use visit::{Answer, Slot};

// A value's field has seven bytes, a missing answer's five.
pub(crate) fn answer(answer: Answer) -> usize
    ensures size { result ≡ adds.answer_size answer }
    ensures bound { result ≤ 7 }
{
    match answer {
        Ok(_) => visit::HEADER + visit::VALUE,
        Err(_) => visit::HEADER + visit::MISSING_ANSWER,
    }
}

// The time's field and those of the three answers.
pub(crate) fn slot(slot: Slot) -> usize
    ensures { result ≡ adds.slot_size slot }
{
    visit::HEADER
        + visit::VALUE
        + answer(slot.temperature)
        + answer(slot.pressure)
        + answer(slot.humidity)
}
