// Shows a logger's file as comma-separated values: reads it from standard input, and writes them to standard output.

#![tactic(auto)]

use day_file::Ended;
use std::process::ExitCode;

// The exit status: where nobody reads the lines any more, what the signal of a closed pipe gives.
fn main(rt: HostRuntime) -> ExitCode {
    match day_file::show(&rt, true) {
        Ended::Closed => ExitCode::from(141),
        _ => ExitCode::SUCCESS,
    }
}
