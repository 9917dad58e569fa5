// A step of a visit and its eight words in a lent list, both ways.
#![tactic(auto)]

ghost use Rattle.std.specs.Prelude.{◌≡◌};
ghost use Rattle.visit.specs.Words.{words as words_in};
ghost use Rattle.visit_step.specs.Places.{step_at, laid};

use visit::Step;

mod answers;
mod places;

// The step's eight words: what it is, the time, and of each channel its number and its value.
// The number is 0 for a value, and the value of a missing answer is 0.
#[tactic(auto, unfolding(visit::specs::Words::words))]
pub fn words(step: Step) -> [u32; 8]
    ensures { result ≡ words_in step }
{
    match step {
        Step::Open => [visit::OPEN, 0, 0, 0, 0, 0, 0, 0],
        Step::Slot(slot) => {
            let [t, u] = answers::words(slot.temperature);
            let [p, q] = answers::words(slot.pressure);
            let [h, i] = answers::words(slot.humidity);
            [visit::SLOT, slot.time, t, u, p, q, h, i]
        }
        Step::Close => [visit::CLOSE, 0, 0, 0, 0, 0, 0, 0],
        Step::Stray => [0, 0, 0, 0, 0, 0, 0, 0],
    }
}

// The step whose words stand at place k of the list.
// Past the last whole step it is a stray one.
#[tactic(auto, unfolding(crate::specs::Places::step_at))]
pub fn step_at(list: &[u32], k: usize) -> Step
    ensures { result ≡ step_at list.now k }
{
    if k < list.len() / visit::WORDS {
        return places::step_from(&list[k * visit::WORDS..]);
    }
    Step::Stray
}

// Lays the step's words down at place k of the list, and changes nothing else.
// Where there is no room for them, nothing is written.
#[tactic(auto, unfolding(crate::specs::Places::laid, crate::specs::Places::over))]
pub fn lay(step: Step, k: usize, list: &mut [u32])
    ensures { list.new ≡ laid step k list.old }
{
    if k < list.len() / visit::WORDS {
        let at = k * visit::WORDS;
        list[at..at + visit::WORDS].copy_from_slice(&words(step));
    }
}
