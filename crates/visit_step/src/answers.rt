// A channel's two words, both ways.
ghost use Rattle.std.specs.Prelude.{◌≡◌, [], ◌∷◌};
ghost use Rattle.visit.specs.Words as to;

use visit::{Absent, Answer};

// The channel's number and its value.
// The number is 0 for a value, and the value of a missing answer is 0.
pub(crate) fn words(answer: Answer) -> [u32; 2]
    ensures { result ≡ to.number_word answer ∷ to.value_word answer ∷ [] }
{
    match answer {
        Ok(value) => [0, value],
        Err(absent) => [absent.number, 0],
    }
}

// The answer that two words say.
pub(crate) fn answer_from(number: u32, value: u32) -> Answer
    ensures { result ≡ to.answer_from number value }
{
    if number == 0 {
        return Ok(value);
    }
    Err(Absent { number })
}
