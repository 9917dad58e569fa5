// The library for C, for visit records: a record read into a lent list of steps, and such a list written as a record.
// Both answer the paper's number, and nothing is written but on 0. Of a refusal two calls more give the offset or the step's place.
#![tactic(auto)]

ghost use Rattle.std.specs.Prelude.{◌≡◌};
ghost use Rattle.visit.specs.Lent.{read_into, write_into};
ghost use Rattle.onegrish_visit.specs.Handed.{counted_into, offset_of, place_of};

mod handed; // what is handed over of an answer

// The steps of a record, eight words each, at the front of `steps`, and how many they are.
// 2 for more than 65,535 bytes, 18 to 22 for what is no record, then 9 for a list that is too short.
#[unsafe(no_mangle)]
pub extern "C" fn onegrish_visit_read(bytes: &[u8], steps: &mut [u32], count: &mut usize) -> u8
    ensures { (result, count.new, steps.new) ≡ counted_into (read_into bytes.now steps.old) count.old }
{
    handed::hand_count(visit_read::read_record(bytes, steps), count)
}

// The offset that goes with 18 to 22, whatever list is lent.
// 0 where the record is read, and with 2 and 9.
#[unsafe(no_mangle)]
#[tactic(auto, unfolding(crate::specs::Handed::offset_of))]
pub extern "C" fn onegrish_visit_read_offset(bytes: &[u8]) -> usize
    ensures { result ≡ offset_of bytes.now }
{
    handed::refusal_value(visit_read::read_record(bytes, &mut []))
}

// The record of a list of steps, eight words each, at the front of `out`, and its length.
// 19, 21 and 22 for steps of no record, 2 for more than 65,535 bytes, then 9 for a buffer that is too short.
#[unsafe(no_mangle)]
pub extern "C" fn onegrish_visit_write(steps: &[u32], out: &mut [u8], count: &mut usize) -> u8
    ensures { (result, count.new, out.new) ≡ counted_into (write_into steps.now out.old) count.old }
{
    handed::hand_count(visit_write::write(steps, out), count)
}

// The place of the step that goes with 19, 21 and 22, whatever buffer is lent.
// 0 where the record is written, and with 2 and 9.
#[unsafe(no_mangle)]
#[tactic(auto, unfolding(crate::specs::Handed::place_of))]
pub extern "C" fn onegrish_visit_write_place(steps: &[u32]) -> usize
    ensures { result ≡ place_of steps.now }
{
    handed::refusal_value(visit_write::write(steps, &mut []))
}
