// Fields laid down in a lent buffer that has room for them.
ghost use Rattle.std.specs.Prelude.{◌≡◌, ◌+◌, ◌≤◌, length};
ghost use Rattle.visit_bytes.specs.Bytes as adds;
ghost use Rattle.visit_bytes.specs.Laid.{over};

use crate::sizes;
use visit::{Answer, Slot};

// A group's header, which says how many bytes the group holds.
#[tactic(auto, unfolding(crate::specs::Laid::over))]
pub(crate) fn lay_header(held: usize, at: usize, out: &mut [u8])
    requires { at + 3 ≤ length out.old }
    ensures { out.new ≡ over (adds.header_bytes held) at out.old }
{
    let high = (held / 256 % 256) as u8;
    let low = (held % 256) as u8;
    out[at..at + 3].copy_from_slice(&[visit::GROUP, high, low]);
}

// A value under its tag, high byte first.
#[tactic(auto, unfolding(crate::specs::Laid::over))]
fn lay_value(tag: u8, value: u32, at: usize, out: &mut [u8])
    requires { at + 7 ≤ length out.old }
    ensures { out.new ≡ over (adds.value_bytes tag value) at out.old }
{
    let [a, b, c, d] = value.to_be_bytes();
    out[at..at + 7].copy_from_slice(&[tag, 0, 4, a, b, c, d]);
}

// A missing answer, with the tag that its value would have and its number.
#[tactic(auto, unfolding(crate::specs::Laid::over))]
fn lay_missing(tag: u8, number: u32, at: usize, out: &mut [u8])
    requires { at + 5 ≤ length out.old }
    ensures { out.new ≡ over (adds.missing_bytes tag number) at out.old }
{
    let low = (number % 256) as u8;
    out[at..at + 5].copy_from_slice(&[visit::MISSING, 0, 2, tag, low]);
}

// An answer in its channel's place.
fn lay_answer(tag: u8, answer: Answer, at: usize, out: &mut [u8])
    requires { at + adds.answer_size answer ≤ length out.old }
    ensures { out.new ≡ over (adds.answer_bytes tag answer) at out.old }
{
    match answer {
        Ok(value) => lay_value(tag, value, at, out),
        Err(absent) => lay_missing(tag, absent.number, at, out),
    }
}

// A slot's four fields, one after the other.
pub(crate) fn lay_slot(slot: Slot, at: usize, out: &mut [u8])
    requires { at + adds.slot_size slot ≤ length out.old }
    ensures { out.new ≡ over (adds.slot_bytes slot) at out.old }
{
    let second = at + 7;
    let third = second + sizes::answer(slot.temperature);
    let fourth = third + sizes::answer(slot.pressure);
    lay_value(visit::TIME, slot.time, at, out);
    lay_answer(visit::TEMPERATURE, slot.temperature, second, out);
    lay_answer(visit::PRESSURE, slot.pressure, third, out);
    lay_answer(visit::HUMIDITY, slot.humidity, fourth, out);
}
