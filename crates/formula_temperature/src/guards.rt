// The guard of the plain road: what a count has to be so that no step can leave its type.
// Real air lies well within; what lies outside takes the checked road.
ghost use Rattle.std.specs.Prelude.{◌≡◌};
ghost use Rattle.formula_temperature.specs.Plain.{is_near};

// Whether a count's sixteenth lies within 16383 of T1: within some 82 degrees of zero, on a usual chip.
// Then the temperature's steps stay within 32 bits.
pub fn is_near(t1: u16, count: u32) -> bool
    ensures { result ≡ is_near t1 count }
{
    let distance = (count / 16) as i64 - t1 as i64;
    distance * distance < 268435456
}
