// The library for C, for a day of a logger: readings as flat bytes, and their answers as flat numbers.
#![tactic(auto)]

ghost use Rattle.std.specs.Prelude.{◌≡◌};
ghost use Rattle.day.specs.Day as of;

// Each reading's answer at its place: eleven bytes a reading (eight data bytes, then the codes of temperature, pressure and humidity), and
// eight numbers an answer: its own; the temperature's, its value and the fine temperature; the pressure's and the humidity's, and their values.
// A value has the number 0, and where there is none its place holds 0. 2 for lengths, and then nothing is written.
#[unsafe(no_mangle)]
pub extern "C" fn onegrish_day(one: &[u8], two: &[u8], readings: &[u8], answers: &mut [i64]) -> u8
    ensures { (result, answers.new) ≡ of.day one.now two.now readings.now answers.old }
{
    day::answer(one, two, readings, answers)
}
