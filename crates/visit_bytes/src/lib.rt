// The bytes that a step adds to a record: how many they are, and how they are laid down before those of the steps after it.
#![tactic(auto)]

ghost use Rattle.std.specs.Prelude.{◌≡◌, ◌+◌, ◌≤◌, length};
ghost use Rattle.visit_bytes.specs.Bytes as adds;
ghost use Rattle.visit_bytes.specs.Laid.{over, laid_back};

use visit::Step;

mod fields;
mod sizes;

// How many bytes a step adds to a record: an opened group its header, a slot its four fields, any other none.
pub fn size(step: Step) -> usize
    ensures { result ≡ adds.size step }
{
    match step {
        Step::Open => visit::HEADER,
        Step::Slot(slot) => sizes::slot(slot),
        Step::Close | Step::Stray => 0,
    }
}

// A step's bytes, from a place on.
#[tactic(auto, unfolding(crate::specs::Bytes::lead, crate::specs::Laid::over))]
fn lay(step: Step, held: usize, at: usize, out: &mut [u8])
    requires { at + adds.size step ≤ length out.old }
    ensures { out.new ≡ over (adds.lead step held) at out.old }
{
    match step {
        Step::Open => fields::lay_header(held, at, out),
        Step::Slot(slot) => fields::lay_slot(slot, at, out),
        Step::Close | Step::Stray => {}
    }
}

// Lays a step's bytes down so that they end where the next step's begin, and gives the place where they begin.
// An opened group is told how many bytes it holds. Where the bytes have no room, nothing is written and the place stays.
#[tactic(auto, unfolding(crate::specs::Laid::laid_back))]
pub fn lay_back(step: Step, held: usize, end: usize, out: &mut [u8]) -> usize
    ensures { (result, out.new) ≡ laid_back step held end out.old }
{
    if out.len() < end {
        return end;
    }
    let bytes = size(step);
    if end < bytes {
        return end;
    }
    lay(step, held, end - bytes, out);
    end - bytes
}
