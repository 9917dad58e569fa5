// A map point in lent places.
ghost use Rattle.std.specs.Prelude.{◌≡◌};
ghost use Rattle.onegrish_rooms.specs.Points as into;

use crate::Marks;
use compensation::Answer;
use rooms::Cell;

// The point of an answer, and the numbers of its cells.
pub fn mark(answer: Answer) -> Marks
    ensures { result ≡ into.marks_of answer }
{
    let cells = rooms::make_cells(answer);
    Marks {
        point: rooms::make_point(answer),
        temperature: cell_number(cells.temperature),
        pressure: cell_number(cells.pressure),
        humidity: cell_number(cells.humidity),
    }
}

// 0, and the marks of a reading at the front of what is lent: three doubles, three flags, three numbers.
// 9 for fewer than three places of any kind, and then nothing is written.
pub fn hand_marks(marks: Marks, doubles: &mut [f64], known: &mut [u8], numbers: &mut [u8]) -> u8
    ensures { (result, doubles.new, known.new, numbers.new)
        ≡ into.marks_into marks doubles.old known.old numbers.old }
{
    if doubles.len() < 3 || known.len() < 3 || numbers.len() < 3 {
        return paper::BUFFER_TOO_SHORT;
    }
    doubles[0] = marks.point.temperature;
    doubles[1] = marks.point.pressure;
    doubles[2] = marks.point.humidity;
    known[0] = marks.point.temperature_known as u8;
    known[1] = marks.point.pressure_known as u8;
    known[2] = marks.point.humidity_known as u8;
    numbers[0] = marks.temperature;
    numbers[1] = marks.pressure;
    numbers[2] = marks.humidity;
    paper::DONE
}

// The number of a cell: 0 where it has a value, and else what stands in its place.
fn cell_number(cell: Cell) -> u8
    ensures { result ≡ into.number cell }
{
    match cell {
        Cell::Temperature(_) | Cell::Pressure(_) | Cell::Humidity(_) => paper::DONE,
        Cell::Missing(missing) => missing.number,
    }
}
