// A slot's fields after its time, one after the other, and the slot laid down as step k.
ghost use Rattle.std.specs.Prelude.{◌≡◌, ◌≤◌, length};
ghost use Rattle.visit_field.specs.Front.{front_at};
ghost use Rattle.visit_read.specs.Slots.{told, slot_at, slot_by};

use visit::{Answer, Fault, Place, Slot, Step};
use visit_field::Front;

// The answer that has to stand at the offset, and where the next field stands.
fn answer_at(bytes: &[u8], at: usize, end: usize, place: Place) -> Result<(Answer, usize), Fault>
    ensures { result ≡ told (front_at place bytes.now end at) }
{
    match visit_field::front_at(bytes, at, end, place)? {
        Front::Group { next } => Err(Fault {
            number: paper::TAG_OUT_OF_PLACE,
            place: next,
        }),
        Front::Told { answer, next } => Ok((answer, next)),
    }
}

// The three answers after the time; nothing may be left after them.
#[tactic(auto, unfolding(crate::specs::Slots::slot_at))]
fn read_slot(
    bytes: &[u8],
    at: usize,
    end: usize,
    time: u32,
    k: usize,
    list: &mut [u32],
) -> Result<usize, Fault>
    requires { (at ≤ end) × ((end ≤ length bytes.now) × (k ≤ at)) }
    ensures { (result, list.new) ≡ slot_at bytes.now end time at k list.old }
{
    let (temperature, next) = answer_at(bytes, at, end, Place::Temperature)?;
    let (pressure, next) = answer_at(bytes, next, end, Place::Pressure)?;
    let (humidity, next) = answer_at(bytes, next, end, Place::Humidity)?;
    if next < end {
        return Err(Fault {
            number: paper::TAG_OUT_OF_PLACE,
            place: next,
        });
    }
    let slot = Slot {
        time,
        temperature,
        pressure,
        humidity,
    };
    visit_step::lay(Step::Slot(slot), k, list);
    Ok(k + 1)
}

// A body's first answer is its slot's time.
#[tactic(auto, unfolding(crate::specs::Slots::slot_by))]
pub(crate) fn slot_by(
    bytes: &[u8],
    end: usize,
    answer: Answer,
    at: usize,
    k: usize,
    list: &mut [u32],
) -> Result<usize, Fault>
    requires { (at ≤ end) × ((end ≤ length bytes.now) × (k ≤ at)) }
    ensures { (result, list.new) ≡ slot_by bytes.now end answer at k list.old }
{
    match answer {
        Ok(time) => read_slot(bytes, at, end, time, k, list),
        Err(_) => Err(Fault {
            number: paper::TAG_OUT_OF_PLACE,
            place: at,
        }),
    }
}
