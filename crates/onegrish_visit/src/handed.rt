// What is handed over of an answer: its number, and on 0 its count; and of a refusal what comes with it.
ghost use Rattle.std.specs.Prelude.{◌≡◌};
ghost use Rattle.visit.specs.Answers.{record_answer};
ghost use Rattle.onegrish_visit.specs.Handed as into;

use visit::RecordError;

// The number of a reading or a writing.
fn number(answer: Result<usize, RecordError>) -> u8
    ensures { result ≡ (record_answer answer).number }
{
    match answer {
        Ok(_) => paper::DONE,
        Err(RecordError::Whole(refusal)) => refusal.number,
        Err(RecordError::At(fault)) => fault.number,
    }
}

// What comes with it: the steps or bytes, or the offset or the step's place.
// 0 where nothing does.
fn value(answer: Result<usize, RecordError>) -> usize
    ensures { result ≡ into.first_value (record_answer answer) }
{
    match answer {
        Ok(count) => count,
        Err(RecordError::Whole(_)) => 0,
        Err(RecordError::At(fault)) => fault.place,
    }
}

// The number; the count is written where it is 0.
pub(crate) fn hand_count(answer: Result<usize, RecordError>, count: &mut usize) -> u8
    ensures { (result, count.new) ≡ into.count_into (record_answer answer).number (into.first_value (record_answer answer)) count.old }
{
    let number = number(answer);
    if number != paper::DONE {
        return number;
    }
    *count = value(answer);
    number
}

// What comes with a refusal.
// 0 where there is none.
pub(crate) fn refusal_value(answer: Result<usize, RecordError>) -> usize
    ensures { result ≡ into.beside_answer (record_answer answer) }
{
    if number(answer) == paper::DONE {
        return 0;
    }
    value(answer)
}
