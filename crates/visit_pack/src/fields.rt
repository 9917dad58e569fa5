// Lines with a value: the four fields of a slot, in their order.
use crate::faults::Fault;
use crate::{Holds, Pack};
use visit::{Answer, Slot, Step};
use visit_typed::Typed;

// The fields of a slot.
#[derive(Clone, Copy, PartialEq)]
pub(crate) enum Field {
    Time,
    Temperature,
    Pressure,
    Humidity,
}

impl Field {
    // The field that stands after this one in a slot.
    fn next(self) -> Option<Field> {
        match self {
            Field::Time => Some(Field::Temperature),
            Field::Temperature => Some(Field::Pressure),
            Field::Pressure => Some(Field::Humidity),
            Field::Humidity => None,
        }
    }

    // What a text says as a value of this field.
    fn read(self, text: &[u8]) -> Typed {
        match self {
            Field::Time => visit_typed::time(text),
            Field::Temperature => visit_typed::temperature(text),
            Field::Pressure => visit_typed::pressure(text),
            Field::Humidity => visit_typed::humidity(text),
        }
    }

    // A slot with this field filled in. A time is never missing.
    fn fill(self, answer: Answer, slot: Slot) -> Slot {
        match self {
            Field::Time => Slot {
                time: answer.unwrap_or(slot.time),
                ..slot
            },
            Field::Temperature => Slot {
                temperature: answer,
                ..slot
            },
            Field::Pressure => Slot {
                pressure: answer,
                ..slot
            },
            Field::Humidity => Slot {
                humidity: answer,
                ..slot
            },
        }
    }
}

// A slot before its first field.
const BLANK: Slot = Slot {
    time: 0,
    temperature: Ok(0),
    pressure: Ok(0),
    humidity: Ok(0),
};

// Takes the line of a field, with what stands after its name: after the fourth the slot is whole, and is laid down.
pub(crate) fn take(pack: &mut Pack, depth: usize, field: Field, text: &[u8]) -> Result<(), Fault> {
    let (slot, expected) = match pack.holds {
        Holds::Nothing => (BLANK, Some(Field::Time)),
        Holds::Slot(slot, expected) => (slot, expected),
        Holds::Groups => return Err(Fault::Depth),
    };
    if pack.place.level == 0 || depth != usize::from(pack.place.level) {
        return Err(Fault::Depth);
    }
    if expected != Some(field) {
        return Err(Fault::Order);
    }
    let answer = field
        .read(text)
        .map_err(|fault| Fault::Value(field, fault))?;
    let slot = field.fill(answer, slot);
    pack.holds = Holds::Slot(slot, field.next());
    if field == Field::Humidity {
        pack.lay(Step::Slot(slot));
    }
    Ok(())
}
