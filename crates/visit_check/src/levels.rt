// Groups opened and closed, by the levels left.
ghost use Rattle.std.specs.Prelude.{◌≡◌};
ghost use Rattle.visit.specs.Writer as writer;

use paper::Refusal;
use visit::{Holds, Stage, Turn};

// One group deeper, or 21.
pub(crate) fn deeper(left: u8) -> Turn
    ensures { result ≡ writer.deeper left }
{
    if left == 0 {
        return Err(Refusal {
            number: paper::TOO_DEEP,
        });
    }
    Ok(Stage::Open(left - 1, Holds::Nothing))
}

// After a group is closed: the group around it, or the record's end.
pub(crate) fn up(left: u8) -> Stage
    ensures { result ≡ writer.up left }
{
    if left < 3 {
        return Stage::Open(left + 1, Holds::Groups);
    }
    Stage::Done
}
