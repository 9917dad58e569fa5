// The three events of a burst: open, byte and close.
#![tactic(auto)]

ghost use Rattle.std.specs.Prelude.{◌≡◌};
ghost use Rattle.machine.specs.Events as ev;

use machine::{Machine, OpenBurst, Outcome};
use machine_state::answer;

mod reading; // what byte gives, and how close ends a burst

// A burst is opened at an address.
pub fn open(m: Machine, address: u8) -> Outcome
    ensures { result ≡ ev.opened m address }
{
    if machine_state::is_open(m.burst) {
        return answer(paper::BURST_IS_OPEN, m);
    }
    if !paper::is_readable(address) {
        return answer(paper::ADDRESS_NOT_ALLOWED, m);
    }
    let at = address as u16;
    let burst = Some(OpenBurst {
        first: at,
        next: at,
    });
    answer(paper::DONE, Machine { burst, ..m })
}

// The open burst gives its next register.
pub fn byte(m: Machine) -> Outcome
    ensures { result ≡ ev.byte_given m }
{
    reading::give(m.burst, m)
}

// The open burst is closed, by the length of the buffer that is lent.
// A whole one hands back the bytes that stand in that buffer afterwards.
pub fn close_by_length(m: Machine, length: usize) -> Outcome
    ensures { result ≡ ev.closing m length }
{
    if !machine_state::is_open(m.burst) {
        return answer(paper::WRONG_PHASE, m);
    }
    if length != kinds::facts(m.device.kind).bytes {
        return answer(paper::WRONG_LENGTH, m);
    }
    if reading::is_whole(m.device.kind, m.burst) {
        return reading::close_whole(m);
    }
    answer(paper::DONE, reading::end(m))
}

// The open burst is closed.
// A whole one writes the shown bytes to the lent buffer, as many as the part has.
pub fn close(m: Machine, lent: &mut [u8]) -> Outcome
    ensures { (result, lent.new) ≡ ev.closed m lent.old }
{
    let closing = close_by_length(m, lent.len());
    if closing.whole {
        let bytes = closing.bytes;
        lent.copy_from_slice(&bytes[..lent.len()]);
    }
    closing
}
