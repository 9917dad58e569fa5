// The device's own two events: finish and wake.
#![tactic(auto)]

ghost use Rattle.std.specs.Prelude.{◌≡◌};
ghost use Rattle.machine.specs.Events as ev;

use machine::{Machine, Outcome};
use machine_state::answer;

mod converting; // how a conversion finishes, and how the next one begins from standby
mod storing; // the bytes that a finish stores

// The running conversion finishes with its three counts.
// They stay apart: the event hands them over one by one, and nothing is said of the three together.
pub fn finish(m: Machine, temperature: u32, pressure: u32, humidity: u32) -> Outcome
    ensures { result ≡ ev.finished m temperature pressure humidity }
{
    if !converting::may_finish(m.device) {
        return answer(paper::WRONG_PHASE, m);
    }
    if !storing::is_in_range(temperature, pressure, humidity) {
        return answer(paper::OUT_OF_RANGE, m);
    }
    if machine_counts::is_barred(converting::held_will_begin(m.device), m.ledger) {
        return answer(paper::ALL_BEGUN, m);
    }
    let bytes = storing::store(m.device, temperature, pressure, humidity);
    answer(paper::DONE, converting::convert(m, bytes))
}

// The standby ends, and a conversion begins.
pub fn wake(m: Machine) -> Outcome
    ensures { result ≡ ev.woken m }
{
    if !machine_state::is_in_standby(m.device.phase) {
        return answer(paper::WRONG_PHASE, m);
    }
    if machine_counts::is_barred(true, m.ledger) {
        return answer(paper::ALL_BEGUN, m);
    }
    answer(paper::DONE, converting::awaken(m))
}
