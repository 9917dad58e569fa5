// The writer of visit records: a lent list of steps is checked, its bytes are counted, and they are laid down from the last step back.
#![tactic(auto)]

ghost use Rattle.std.specs.Prelude.{◌≡◌};
ghost use Rattle.visit.specs.declared.Stage.TheVariants as stage;
ghost use Rattle.visit.specs.Answers.{Tells};
ghost use Rattle.visit.specs.Words.{from_words};
ghost use Rattle.visit.specs.Writer.{checked, fine, bytes_of};
ghost use Rattle.visit.specs.Lent.{write_by, write_into};
ghost use Rattle.visit_write.specs.Answers.{written_answer};

use paper::Refusal;
use visit::RecordError;

mod fill;
mod in_order;
mod sizes;

// Where the bytes laid down so far begin, and where the groups that are still to be opened end, the innermost first.
#[derive(Clone, Copy)]
pub(crate) struct Marks {
    pub at: usize,
    pub first: usize,
    pub second: usize,
    pub third: usize,
    pub fourth: usize,
}

// The record of a list whose steps are checked: 2 where it has over 65,535 bytes, then 9 where the buffer is too short.
fn write_checked(steps: &[u32], out: &mut [u8]) -> Result<usize, RecordError>
    requires { checked stage.Start (from_words steps.now) 0 ≡ fine }
    ensures out_after { (written_answer result, out.new) ≡ write_by fine (bytes_of (from_words steps.now)) out.old }
    ensures tells { Tells result }
{
    let bytes = sizes::total(steps);
    if visit::MOST_BYTES < bytes {
        return Err(RecordError::Whole(Refusal {
            number: paper::WRONG_LENGTH,
        }));
    }
    if out.len() < bytes {
        return Err(RecordError::Whole(Refusal {
            number: paper::BUFFER_TOO_SHORT,
        }));
    }
    fill::fill(steps, bytes, out);
    Ok(bytes)
}

// Writes the record of a lent list of steps, eight words each, to the front of the lent buffer, and gives the bytes written.
// 19, 21 or 22 with the place of the first step that is refused, 19 with the steps' number where they end too soon, then 2, then 9.
// A refusal writes nothing, and bytes past the record stay.
pub fn write(steps: &[u32], out: &mut [u8]) -> Result<usize, RecordError>
    ensures out_after { (written_answer result, out.new) ≡ write_into steps.now out.old }
    ensures tells { Tells result }
{
    in_order::check(steps)?;
    write_checked(steps, out)
}
