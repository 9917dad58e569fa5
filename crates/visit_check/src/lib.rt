// The writer's checks, one step at a time: whether a step can stand where the list has come to, and where the list stands after it.
#![tactic(auto)]

ghost use Rattle.std.specs.Prelude.{◌≡◌};
ghost use Rattle.visit.specs.Writer as writer;

use paper::Refusal;
use visit::{Holds, Stage, Step, Turn};

mod levels;
mod limits;

// The stage that a step leads to.
// 19 where no record has such a step there, 21 for a fifth level, 22 for a value outside its limits.
#[tactic(auto, unfolding(visit::specs::Writer::turn))]
pub fn turn(stage: Stage, step: Step) -> Turn
    ensures { result ≡ writer.turn stage step }
{
    match (stage, step) {
        // The record begins with its own group.
        (Stage::Start, Step::Open) => Ok(Stage::Open(3, Holds::Nothing)),
        (Stage::Open(left, Holds::Nothing | Holds::Groups), Step::Open) => levels::deeper(left),
        (Stage::Open(left, Holds::Nothing), Step::Slot(slot)) => limits::take_slot(left, slot),
        (Stage::Open(left, Holds::Groups | Holds::Slot), Step::Close) => Ok(levels::up(left)),
        _ => Err(Refusal {
            number: paper::TAG_OUT_OF_PLACE,
        }),
    }
}
