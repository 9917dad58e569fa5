// The front of a field of a visit record: a group with its body still unread, or an answer.
#![tactic(auto)]

ghost use Rattle.std.specs.Prelude.{◌≡◌, ◌&&◌, ◌+◌, ◌≤◌, leb, length};
ghost use Rattle.visit_field.specs.Front.{whole_at, front_at};

use visit::{Answer, Fault, Place};

mod tags;
mod values;

// A group with its body still unread, or an answer, and where the next field stands.
#[derive(Clone, Copy, Debug, PartialEq, Eq)]
pub enum Front {
    Group { next: usize },
    Told { answer: Answer, next: usize },
}

// Whether a header at the offset stands in a group that ends at `end`, and that in so many bytes.
fn header_fits(at: usize, end: usize, whole: usize) -> bool
    ensures { result ≡ (leb end whole && leb (at + 3) end) }
{
    end <= whole && at <= end && visit::HEADER <= end - at
}

// A field whose header is there: 18 where its body is cut short, and otherwise by what its tag means.
#[tactic(auto, unfolding(crate::specs::Front::whole_at))]
fn field_of(bytes: &[u8], at: usize, end: usize, place: Place) -> Result<Front, Fault>
    requires { (at + 3 ≤ end) × (end ≤ length bytes.now) }
    ensures { result ≡ whole_at place bytes.now end at }
{
    let n = usize::from(bytes[at + 1]) * 256 + usize::from(bytes[at + 2]);
    if end - (at + visit::HEADER) < n {
        return Err(Fault {
            number: paper::CUT_SHORT,
            place: at,
        });
    }
    values::by_kind(bytes, at, n, place, tags::kind_of(place, bytes[at]))
}

// The front of the field at an offset, in a group that ends at `end`: 18, then 19, then 20, then 22.
// Where no header fits between them, or the group ends past the record, it is 18.
#[tactic(auto, unfolding(crate::specs::Front::front_at))]
pub fn front_at(bytes: &[u8], at: usize, end: usize, place: Place) -> Result<Front, Fault>
    ensures { result ≡ front_at place bytes.now end at }
{
    if header_fits(at, end, bytes.len()) {
        return field_of(bytes, at, end, place);
    }
    Err(Fault {
        number: paper::CUT_SHORT,
        place: at,
    })
}
