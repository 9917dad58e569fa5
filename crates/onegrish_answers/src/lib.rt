// What the library hands to C, laid in lent places: each function answers the paper's number, and writes on 0 alone.
#![tactic(auto)]

ghost use Rattle.std.specs.Prelude.{◌≡◌};
ghost use Rattle.onegrish_answers.specs.Version as interface;

mod handing;
pub mod messages; // bus bytes
pub mod times; // waiting and polling

// The version of the library's interface, which include/onegrish.h names too.
const VERSION: u32 = 2;

// The version of the interface that the library was built with.
pub fn version() -> u32
    ensures { result ≡ interface.version }
{
    VERSION
}
