// What is said on standard error, and on descriptor 4 how far the work is.
use crate::rows::Fault;
use bench_bytes::front;
use bench_page::Page;
use std::fs;
use std::fs::{File, OpenOptions};
use std::io::{IsTerminal, Write};
use std::os::unix::fs::FileTypeExt;

// The script makes this descriptor the user's own standard error.
const WATCHER: &str = "/dev/fd/4";

// Says a line on standard error.
pub(crate) fn say(rt: &HostRuntime, line: &[u8]) {
    let _ = rt.stderr().write_all(line);
}

// Says a line that is filled with numbers.
pub(crate) fn say_numbers(rt: &HostRuntime, form: &[u8], numbers: &[u64]) {
    let mut line = [0u8; 4096];
    let mut page = Page {
        out: &mut line,
        at: 0,
    };
    bench_row::fill(form, numbers, &mut page);
    let at = page.at;
    say(rt, front(&line, at));
}

// Says what stopped the work. Nothing is said where nobody reads the text any more.
pub(crate) fn say_fault(rt: &HostRuntime, fault: Fault) {
    match fault {
        Fault::Unread => say(rt, b"day: the file could not be read\n"),
        Fault::Unwritten => say(rt, b"day: the text could not be written\n"),
        Fault::Closed => {}
    }
}

// The terminal of someone who watches, to whom the lines themselves do not go; or none.
pub(crate) fn watcher(rt: &HostRuntime) -> Option<File> {
    if !is_device(rt) {
        return None;
    }
    let file = OpenOptions::new().write(true).open(rt, WATCHER).ok()?;
    if file.is_terminal() & !rt.stdout().is_terminal() {
        Some(file)
    } else {
        None
    }
}

// Whether the descriptor is a device, as a terminal is. Anything else is not opened.
fn is_device(rt: &HostRuntime) -> bool {
    fs::metadata(rt, WATCHER).is_ok_and(|known| known.file_type().is_char_device())
}

// Says to whoever watches how far the work is.
pub(crate) fn say_progress(watcher: &mut Option<File>, done: usize, count: usize) {
    if let Some(terminal) = watcher {
        let mut line = [0u8; 128];
        let mut page = Page {
            out: &mut line,
            at: 0,
        };
        bench_row::fill(
            b"\rday: # of # readings",
            &[done as u64, count as u64],
            &mut page,
        );
        let at = page.at;
        let _ = terminal.write_all(front(&line, at));
    }
}

// Takes the line away that says so: spaces stand in the place of its longest.
pub(crate) fn clear(watcher: &mut Option<File>, count: usize) {
    if let Some(terminal) = watcher {
        let mut line = [0u8; 128];
        let mut page = Page {
            out: &mut line,
            at: 0,
        };
        bench_row::fill(
            b"day: # of # readings",
            &[count as u64, count as u64],
            &mut page,
        );
        let size = page.at;
        page.at = 0;
        page.write_byte(b'\r');
        page.write_text(front(
            b"                                                            ",
            size,
        ));
        page.write_byte(b'\r');
        let at = page.at;
        let _ = terminal.write_all(front(&line, at));
    }
}
