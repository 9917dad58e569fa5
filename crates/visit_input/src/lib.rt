// Standard input, read whole.
#![tactic(auto)]

ghost use Rattle.std.specs.Prelude.{length as size};
ghost use Rattle.visit_input.specs.Input.{Within};

use std::io;
use std::io::Read;

// Reads the input to its end, or until the buffer is full: how many bytes of it the buffer holds, or why it could not be read.
// What is read can't be said beforehand; how many bytes there are lies within the buffer.
pub fn read_all<R: Read>(input: &mut R, buffer: &mut [u8]) -> io::Result<usize>
    ensures { Within result (size buffer.old) }
{
    let mut done = 0;
    // The library's reads to the end need the heap, so the place is counted here.
    while done < buffer.len() {
        let n = input.read(&mut buffer[done..])?;
        if n == 0 {
            break;
        }
        done += n;
    }
    Ok(done)
}
