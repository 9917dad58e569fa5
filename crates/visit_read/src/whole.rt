// A whole record: its steps laid down where there is room for them, and how many they are.
ghost use Rattle.std.specs.Prelude.{◌≡◌};
ghost use Rattle.visit_read.specs.Whole.{whole_at, count_at};

use crate::{Field, groups};
use visit::{Fault, Place};

// Steps that the list has no room for are counted and not laid down.
#[tactic(auto, unfolding(crate::specs::Whole::whole_at))]
pub(crate) fn read_whole(bytes: &[u8], list: &mut [u32]) -> Result<usize, Fault>
    ensures { (result, list.new) ≡ whole_at bytes.now list.old }
{
    let end = bytes.len();
    match groups::read_field(bytes, 0, end, visit::LEVELS, Place::Group, 0, list)? {
        Field::Group { next, filled } if end <= next => Ok(filled),
        Field::Group { next, filled: _ } | Field::Told { answer: _, next } => Err(Fault {
            number: paper::TAG_OUT_OF_PLACE,
            place: next,
        }),
    }
}

// How many steps the record has: read into the empty part at the end of the list, so that nothing is written.
pub(crate) fn count(bytes: &[u8], list: &mut [u32]) -> Result<usize, Fault>
    ensures { (result, list.new) ≡ count_at bytes.now list.old }
{
    let start = list.len();
    read_whole(bytes, &mut list[start..])
}
