// Eight words at the front of a list, as a step.
ghost use Rattle.std.specs.Prelude.{◌≡◌, ◌≤◌, length};
ghost use Rattle.visit.specs.Words.{slot_from, step_from};

use crate::answers;
use visit::{Slot, Step};

// The slot that the first eight words say, whatever the first of them is.
fn slot_from(words: &[u32]) -> Step
    requires { 8 ≤ length words.now }
    ensures { result ≡ slot_from words.now }
{
    Step::Slot(Slot {
        time: words[1],
        temperature: answers::answer_from(words[2], words[3]),
        pressure: answers::answer_from(words[4], words[5]),
        humidity: answers::answer_from(words[6], words[7]),
    })
}

// The step that the first eight words say.
#[tactic(auto, unfolding(visit::specs::Words::step_from))]
pub(crate) fn step_from(words: &[u32]) -> Step
    requires { 8 ≤ length words.now }
    ensures { result ≡ step_from words.now }
{
    match words[0] {
        visit::OPEN => Step::Open,
        visit::SLOT => slot_from(words),
        visit::CLOSE => Step::Close,
        _ => Step::Stray,
    }
}
