// Packs a visit: reads its text from standard input, and writes its record to standard output.
#![tactic(auto)]

mod faults; // what is said of a bad line
mod fields; // lines with a value
mod groups; // lines with a group's name
mod lines; // a line's parts

use bench_bytes::{front, rest};
use faults::{BadLine, Fault, TextError};
use fields::Field;
use lines::Name;
use paper::Refusal;
use std::io;
use std::io::Print;
use std::process::ExitCode;
use visit::{Slot, Step};
use visit_place::Place;

// What the innermost open group holds so far.
#[derive(Clone, Copy)]
pub(crate) enum Holds {
    Nothing,
    Groups,
    // A slot as far as it is filled in, and the field that it lacks first.
    Slot(Slot, Option<Field>),
}

// What is kept from line to line.
#[derive(Drop)]
pub(crate) struct Pack<'a> {
    // The list that steps are laid down in, and how many are.
    pub list: &'a mut [u32],
    pub steps: usize,
    // The open groups, and what the innermost holds.
    pub place: Place,
    pub holds: Holds,
}

impl Pack<'_> {
    // Lays a step down, and goes on to the next.
    fn lay(&mut self, step: Step) {
        visit_step::lay(step, self.steps, self.list);
        self.steps = self.steps.saturating_add(1);
        self.place = visit_place::after(self.place, step);
    }
}

// One byte more than the longest text, so that a longer one is seen to be too long.
const TEXT: usize = 1048577;

// Words and steps of a list that holds the steps of every record.
const WORDS: usize = STEPS * visit::WORDS;

const STEPS: usize = 16384;

// Takes a line: one of spaces alone is passed over, and so is one that begins with a mark after them.
fn take(pack: &mut Pack, line: &[u8]) -> Result<(), Fault> {
    let spaces = lines::spaces(line);
    let text = rest(line, spaces);
    if matches!(text.first(), None | Some(b'#')) {
        return Ok(());
    }
    let (word, value) = lines::first_word(lines::without_remark(text));
    let depth = lines::depth(spaces)?;
    match lines::name_of(word).ok_or(Fault::Word)? {
        Name::Group(group) => groups::take(pack, depth, group, value),
        Name::Field(field) => fields::take(pack, depth, field, value.unwrap_or(b"")),
    }
}

// Takes the text's lines, up to the first bad one, and gives how many steps they have.
fn take_lines(text: &[u8], steps: &mut [u32]) -> Result<usize, BadLine> {
    let mut pack = Pack {
        list: steps,
        steps: 0,
        place: visit_place::start(),
        holds: Holds::Nothing,
    };
    // The number is wanted once more after the last line, so it is counted beside the loop.
    let mut number: usize = 1;
    for line in text.split_inclusive(|byte| *byte == b'\n') {
        let line = line.strip_suffix(b"\n").unwrap_or(line);
        take(&mut pack, line).map_err(|fault| BadLine {
            line: number,
            fault,
        })?;
        number = number.saturating_add(1);
    }
    groups::end(&mut pack).map_err(|fault| BadLine {
        line: number,
        fault,
    })?;
    Ok(pack.steps)
}

// Packs a text into a buffer, and gives the bytes of its record.
fn pack_text(text: &[u8], steps: &mut [u32; WORDS], out: &mut [u8]) -> Result<usize, TextError> {
    if text.len() >= TEXT {
        return Err(TextError::TooLong);
    }
    let count = take_lines(text, steps)?;
    if count > STEPS {
        return Err(TextError::Record(Refusal {
            number: paper::WRONG_LENGTH,
        }));
    }
    Ok(visit_write::write(&steps[..count * visit::WORDS], out)?)
}

// Writes a record, or says that it could not be written, unless nobody reads it any more.
fn write(rt: &HostRuntime, record: &[u8]) -> io::Result<()> {
    match rt.stdout().write_all(record) {
        Err(error) if error.kind() != io::ErrorKind::BrokenPipe => {
            eprintln!(rt; "visit pack: the record could not be written")
        }
        written => written,
    }
}

// Packs what standard input has, or says on standard error why it does not.
fn pack_input(
    rt: &HostRuntime,
    text: &mut [u8],
    steps: &mut [u32; WORDS],
    out: &mut [u8],
) -> io::Result<()> {
    let Ok(count) = visit_input::read_all(&mut rt.stdin(), text) else {
        return eprintln!(rt; "visit pack: the input could not be read");
    };
    match pack_text(front(text, count), steps, out) {
        Ok(size) => write(rt, front(out, size)),
        Err(error) => eprintln!(rt; "visit pack: {error}"),
    }
}

// The exit status after an error: of a pipe that nobody reads any more, what its signal gives.
fn status(error: io::Error) -> ExitCode {
    if error.kind() == io::ErrorKind::BrokenPipe {
        return ExitCode::from(141);
    }
    ExitCode::FAILURE
}

fn main(rt: HostRuntime) -> ExitCode {
    let mut text = [0u8; TEXT];
    let mut steps = [0u32; WORDS];
    let mut out = [0u8; 65536];
    match pack_input(&rt, &mut text, &mut steps, &mut out) {
        Ok(()) => ExitCode::SUCCESS,
        Err(error) => status(error),
    }
}
