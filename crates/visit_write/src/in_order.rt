// The checks of a whole list of steps.
ghost use Rattle.std.specs.Prelude.{◌≡◌};
ghost use Rattle.visit.specs.declared.Stage.TheVariants as stages;
ghost use Rattle.visit.specs.Words.{from_words};
ghost use Rattle.visit.specs.Writer.{at_end, checked};
ghost use Rattle.visit_write.specs.Answers.{found};

use visit::{Fault, Stage};

// A list that ends before its record does is refused with 19 and the number of its steps.
fn at_end(stage: Stage, count: usize) -> Result<(), Fault>
    ensures { found result ≡ at_end stage count }
{
    match stage {
        Stage::Done => Ok(()),
        Stage::Start | Stage::Open(_, _) => Err(Fault {
            number: paper::TAG_OUT_OF_PLACE,
            place: count,
        }),
    }
}

// Each step in its order: the number and place of the first that cannot stand there.
// The place is added by a match: a closure under map_err would have to promise it in clauses longer than these arms.
pub(crate) fn check(steps: &[u32]) -> Result<(), Fault>
    ensures { found result ≡ checked stages.Start (from_words steps.now) 0 }
{
    let count = steps.len() / visit::WORDS;
    let mut stage = Stage::Start;
    for k in 0..count {
        match visit_check::turn(stage, visit_step::step_at(steps, k)) {
            Ok(next) => stage = next,
            Err(refusal) => {
                return Err(Fault {
                    number: refusal.number,
                    place: k,
                });
            }
        }
    }
    at_end(stage, count)
}
