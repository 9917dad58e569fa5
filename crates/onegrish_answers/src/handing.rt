// One answer handed over: a number, and a value in a lent place.
ghost use Rattle.std.specs.Prelude.{◌≡◌};
ghost use Rattle.onegrish_answers.specs.Handed as into;

use paper::Refusal;

// The number of an answer; its value is written where it is 0.
pub(crate) fn hand<T: Copy>(answer: Result<T, Refusal>, place: &mut T) -> u8
    ensures { (result, place.new) ≡ into.value_into answer place.old }
{
    match answer {
        Ok(value) => {
            *place = value;
            paper::DONE
        }
        Err(why) => why.number,
    }
}
