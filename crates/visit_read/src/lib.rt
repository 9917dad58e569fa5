// The reader of visit records: the steps of a record in a lent list, eight words a step.
#![tactic(auto)]

ghost use Rattle.std.specs.Prelude.{◌≡◌};
ghost use Rattle.visit.specs.Answers.{Tells};
ghost use Rattle.visit.specs.Lent.{read_into};
ghost use Rattle.visit_read.specs.Answers.{read_answer};

use paper::Refusal;
use visit::{Answer, RecordError};

mod groups;
mod slots;
mod whole;

// A field read whole: a group and how many steps there are so far, or an answer, and where the next field stands.
#[derive(Clone, Copy)]
pub(crate) enum Field {
    Group { next: usize, filled: usize },
    Told { answer: Answer, next: usize },
}

// Reads a record into a lent list of steps, and gives how many there are.
// Refuses with 2, then with 18 to 22 and an offset, then with 9, and then writes nothing.
pub fn read_record(bytes: &[u8], steps: &mut [u32]) -> Result<usize, RecordError>
    ensures steps_after { (read_answer result, steps.new) ≡ read_into bytes.now steps.old }
    ensures tells { Tells result }
{
    if bytes.len() > visit::MOST_BYTES {
        return Err(RecordError::Whole(Refusal {
            number: paper::WRONG_LENGTH,
        }));
    }
    let count = whole::count(bytes, steps)?;
    if steps.len() / visit::WORDS < count {
        return Err(RecordError::Whole(Refusal {
            number: paper::BUFFER_TOO_SHORT,
        }));
    }
    whole::read_whole(bytes, steps)?;
    Ok(count)
}
