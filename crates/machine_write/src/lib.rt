// The event write: a value is written to a register.
#![tactic(auto)]

ghost use Rattle.std.specs.Prelude.{◌≡◌};
ghost use Rattle.machine.specs.Events as ev;

use machine::{Machine, Outcome};
use machine_state::answer;

mod by_register; // what each register makes of its value

// A value is written to a register.
pub fn write(m: Machine, register: u8, value: u8) -> Outcome
    ensures { result ≡ ev.written m register value }
{
    if machine_state::is_open(m.burst) {
        return answer(paper::BURST_IS_OPEN, m);
    }
    if !kinds::is_writable(m.device.kind, register) {
        return answer(paper::ADDRESS_NOT_ALLOWED, m);
    }
    if register == paper::RESET {
        return by_register::write_reset(m, value);
    }
    by_register::write_control(m, register, value)
}
