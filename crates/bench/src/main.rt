// The bench: reads commands from standard input, one a line, and writes their answers to standard output.
#![tactic(auto)]

mod lines; // what a line is answered

use bench_bytes::{front, rest};
use bench_page::Page;
use kinds::Kind;
use memchr::memchr;
use std::io;
use std::io::{Print, Read};
use std::process::ExitCode;

// What is kept from line to line beside the machine.
#[derive(Clone, Copy)]
struct Bench {
    // How many bytes the block has, and from where on they are not yet taken.
    size: usize,
    next: usize,
    // Where the last piece of a line stands in the block, and how many bytes of the line are held.
    start: usize,
    end: usize,
    held: usize,
    // Whether the line is whole, and whether it is the last.
    whole: bool,
    last: bool,
    // How many bytes of the page of answers are filled, and what became of all before them.
    at: usize,
    output: Output,
}

// What became of the answers: all were written out, a write failed, or nobody reads them any more.
#[derive(Clone, Copy, Debug, PartialEq, Eq)]
enum Output {
    Written,
    Failed,
    Closed,
}

// One byte more than the longest line is held, so that a longer line is seen to be too long.
const HELD: usize = 4097;

// The page of 65,536 bytes is written out from here on, which leaves room for the longest answer.
const FULL: usize = 54000;

// The place of the first newline from a place on, or where there is none the block's end.
fn newline(block: &[u8], from: usize) -> usize {
    match memchr(b'\n', rest(block, from)) {
        Some(i) => from + i,
        None => from.max(block.len()),
    }
}

// Finds the next line of the block, or what stands after its last, once a whole line is done with.
// It is held where it is not whole, and where its first bytes are held already.
fn find(mut kept: Bench, block: &[u8], line: &mut [u8]) -> Bench {
    if kept.whole {
        kept.held = 0;
    }
    let end = newline(block, kept.next);
    kept.start = kept.next;
    kept.end = end;
    kept.whole = end < block.len();
    if end < block.len() {
        kept.next = end + 1;
        if kept.held == 0 {
            return kept;
        }
    }
    let mut page = Page {
        out: line,
        at: kept.held,
    };
    page.write_text(rest(front(block, end), kept.start));
    kept.held = page.at;
    kept
}

// Writes the page out, and begins it anew.
// Once a write has failed nothing more is written, so that no answer is missing between two others.
fn write_out(output: io::Stdout, mut kept: Bench, out: &[u8]) -> Bench {
    if kept.output == Output::Written {
        if let Err(error) = output.write_all(front(out, kept.at)) {
            kept.output = match error.kind() {
                io::ErrorKind::BrokenPipe => Output::Closed,
                _ => Output::Failed,
            };
        }
    }
    kept.at = 0;
    kept
}

// Reads a block and gives how many bytes it has: none at the end of the input.
// If it can't be read, standard error says so, and the input ends there.
fn read_block(rt: &HostRuntime, block: &mut [u8]) -> io::Result<usize> {
    match rt.stdin().read(block) {
        Ok(n) => Ok(n),
        Err(_) => {
            rt.stderr()
                .write_all(b"bench: the input could not be read\n")?;
            Ok(0)
        }
    }
}

// The block has so many bytes, of which none is taken.
// Where it has none, what is held is the last line.
fn begin_block(kept: Bench, size: usize) -> Bench {
    Bench {
        next: 0,
        size,
        last: size == 0,
        whole: size == 0,
        ..kept
    }
}

// Goes on to the next line, with room for its answer on the page, or to the next block.
// What the lines of a block are answered is written out before the next is read; once a write has failed, none is.
fn go_on(
    rt: &HostRuntime,
    kept: Bench,
    block: &mut [u8],
    line: &mut [u8],
    out: &[u8],
) -> io::Result<Bench> {
    let found = find(kept, front(block, kept.size), line);
    if found.whole & (found.at < FULL) {
        return Ok(found);
    }
    let next = write_out(rt.stdout(), found, out);
    if next.whole {
        return Ok(next);
    }
    if next.output == Output::Written {
        return Ok(begin_block(next, read_block(rt, block)?));
    }
    Ok(begin_block(next, 0))
}

// The line: where it stands in the block, if nothing is held of it.
// Where none is whole it is empty, and is passed over.
fn text<'a>(kept: Bench, block: &'a [u8], line: &'a [u8]) -> &'a [u8] {
    if !kept.whole {
        return front(line, 0);
    }
    if kept.held == 0 {
        return rest(front(block, kept.end), kept.start);
    }
    front(line, kept.held)
}

// Writes the last answers out.
// If a write failed, now or before, standard error says so, unless nobody reads the answers any more.
fn finish(rt: &HostRuntime, kept: Bench, out: &[u8]) -> io::Result<()> {
    match write_out(rt.stdout(), kept, out).output {
        Output::Written => Ok(()),
        Output::Failed => rt
            .stderr()
            .write_all(b"bench: the answers could not be written\n"),
        Output::Closed => Err(io::Error::from(io::ErrorKind::BrokenPipe)),
    }
}

// Nothing is read yet.
fn nothing() -> Bench {
    Bench {
        size: 0,
        next: 0,
        start: 0,
        end: 0,
        held: 0,
        whole: false,
        last: false,
        at: 0,
        output: Output::Written,
    }
}

// Answers the lines of the input to its end, or until a write fails.
// A proved loop has to end, so the turns are of a number that no run uses up.
fn serve(rt: &HostRuntime, block: &mut [u8], line: &mut [u8], out: &mut [u8]) -> io::Result<()> {
    let mut machine = machine_start::fresh(Kind::Bme280);
    let mut kept = nothing();
    for _ in 0..u64::MAX {
        kept = go_on(rt, kept, block, line, out)?;
        let mut page = Page { out, at: kept.at };
        machine = lines::answer(text(kept, block, line), machine, &mut page);
        kept.at = page.at;
        if kept.last {
            break;
        }
    }
    finish(rt, kept, out)
}

// The exit status after an error: of a pipe that nobody reads any more, what its signal gives.
fn status(error: io::Error) -> ExitCode {
    if error.kind() == io::ErrorKind::BrokenPipe {
        return ExitCode::from(141);
    }
    ExitCode::FAILURE
}

fn main(rt: HostRuntime) -> ExitCode {
    let mut block = [0u8; 65536];
    let mut line = [0u8; HELD];
    let mut out = [0u8; 65536];
    match serve(&rt, &mut block, &mut line, &mut out) {
        Ok(()) => ExitCode::SUCCESS,
        Err(error) => status(error),
    }
}
