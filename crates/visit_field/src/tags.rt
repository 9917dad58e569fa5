// What a tag means at a place.
ghost use Rattle.std.specs.Prelude.{◌≡◌};
ghost use Rattle.visit.specs.Reader.{kind_of};

use visit::{Kind, Place};

// What the tag means at the place.
pub(crate) fn kind_of(place: Place, tag: u8) -> Kind
    ensures { result ≡ kind_of place tag }
{
    match (place, tag) {
        (Place::Group | Place::First, visit::GROUP) => Kind::Group,
        (Place::First, visit::TIME)
        | (Place::Temperature, visit::TEMPERATURE)
        | (Place::Pressure, visit::PRESSURE)
        | (Place::Humidity, visit::HUMIDITY) => Kind::Value,
        (Place::Pressure, visit::PASCALS) => Kind::Pascals,
        (Place::Temperature | Place::Pressure | Place::Humidity, visit::MISSING) => Kind::Missing,
        _ => Kind::Strange,
    }
}
