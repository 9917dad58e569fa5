// Fields and bodies of groups: their readers call each other, and the levels left fall at each group.
ghost use Rattle.std.specs.Prelude.{◌≡◌, ◌≤◌, length};
ghost use Rattle.visit_read.specs.Groups.{field_at, body_at, Passes, Ends};

use crate::{Field, slots};
use visit::{Fault, Place, Step};
use visit_field::Front;

// The field at an offset, in a group that ends at `end`; so many levels may still be opened. The list has k steps so far.
#[cycle(read_body_read_field)]
pub(crate) fn read_field(
    bytes: &[u8],
    at: usize,
    end: usize,
    levels: usize,
    place: Place,
    k: usize,
    list: &mut [u32],
) -> Result<Field, Fault>
    requires { (at ≤ end) × ((end ≤ length bytes.now) × (k ≤ at)) }
    ensures list_after { (result, list.new) ≡ field_at levels bytes.now end place at k list.old }
    ensures passes { Passes at end k result }
{
    match visit_field::front_at(bytes, at, end, place)? {
        Front::Group { next } => {
            if levels == 0 {
                return Err(Fault {
                    number: paper::TOO_DEEP,
                    place: at,
                });
            }
            visit_step::lay(Step::Open, k, list);
            let filled = read_body(bytes, at + 3, next, levels - 1, k + 1, list)?;
            visit_step::lay(Step::Close, filled, list);
            Ok(Field::Group {
                next,
                filled: filled + 1,
            })
        }
        Front::Told { answer, next } => Ok(Field::Told { answer, next }),
    }
}

// A group's body from an offset to its end: a slot, or groups one after the other.
// Each turn of the loop goes on where a field ended, so that no range counts its offsets.
#[cycle(read_body_read_field)]
fn read_body(
    bytes: &[u8],
    at: usize,
    end: usize,
    levels: usize,
    k: usize,
    list: &mut [u32],
) -> Result<usize, Fault>
    requires { (at ≤ end) × ((end ≤ length bytes.now) × (k ≤ at)) }
    ensures list_after { (result, list.new) ≡ body_at (field_at levels bytes.now end) bytes.now end at k list.old }
    ensures ends { Ends at end k result }
{
    match read_field(bytes, at, end, levels, Place::First, k, list)? {
        Field::Group { next, filled } => {
            let mut i = next;
            let mut n = filled;
            while i < end {
                match read_field(bytes, i, end, levels, Place::Group, n, list)? {
                    Field::Group { next, filled } => {
                        i = next;
                        n = filled;
                    }
                    Field::Told { answer: _, next } => {
                        return Err(Fault {
                            number: paper::TAG_OUT_OF_PLACE,
                            place: next,
                        });
                    }
                }
            }
            Ok(n)
        }
        Field::Told { answer, next } => slots::slot_by(bytes, end, answer, next, k, list),
    }
}
