// Bytes laid down from the last step back, so that a group's length is known where its header is written.
ghost use Rattle.std.specs.Prelude.{◌≡◌, ◌++◌, ◌≤◌, length, drop};
ghost use Rattle.visit.specs.declared.Stage.TheVariants as stage;
ghost use Rattle.visit.specs.Tags as tag;
ghost use Rattle.visit.specs.Words.{from_words};
ghost use Rattle.visit.specs.Writer.{checked, fine, bytes_of};
ghost use Rattle.visit_write.specs.Walk as walk;

use crate::Marks;
use visit::Step;

// The marks once a step's bytes begin at the given place.
// Each mark has a name of its own, since none is ever asked for by a number.
fn moved(step: Step, total: usize, m: Marks, at: usize) -> Marks
    ensures { result ≡ walk.moved step total m at }
{
    match step {
        Step::Open => Marks {
            at,
            first: m.second,
            second: m.third,
            third: m.fourth,
            fourth: total,
        },
        Step::Close => Marks {
            at,
            first: at,
            second: m.first,
            third: m.second,
            fourth: m.third,
        },
        Step::Slot(_) | Step::Stray => Marks { at, ..m },
    }
}

// Lays one step's bytes down before those of the steps after it.
#[tactic(auto, unfolding(crate::specs::Walk::step_back))]
fn step_back(step: Step, total: usize, m: Marks, out: &mut [u8]) -> Marks
    requires { m.at ≤ m.first }
    ensures { (result, out.new) ≡ walk.step_back step total m out.old }
{
    let at = visit_bytes::lay_back(step, m.first - m.at, m.at, out);
    moved(step, total, m, at)
}

// The record of a list whose steps are checked, at the front of a buffer that has room for it.
pub(crate) fn fill(steps: &[u32], total: usize, out: &mut [u8])
    requires { (checked stage.Start (from_words steps.now) 0 ≡ fine) × ((total ≡ length (bytes_of (from_words steps.now))) × ((total ≤ tag.most_bytes) × (total ≤ length out.old))) }
    ensures { out.new ≡ bytes_of (from_words steps.now) ++ drop total out.old }
{
    let mut m = Marks {
        at: total,
        first: total,
        second: total,
        third: total,
        fourth: total,
    };
    for k in (0..steps.len() / visit::WORDS).rev() {
        m = step_back(visit_step::step_at(steps, k), total, m, out);
    }
}
