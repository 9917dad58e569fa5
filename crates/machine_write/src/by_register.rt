// Write, register by register.
ghost use Rattle.std.specs.Prelude.{◌≡◌};
ghost use Rattle.machine.specs.Events as ev;

use machine::{Device, Machine, Outcome, Phase};
use machine_state::answer;

// E0: the reset word resets, any other byte is ignored.
pub fn write_reset(m: Machine, value: u8) -> Outcome
    ensures { result ≡ ev.written_reset m value }
{
    if value == paper::RESET_WORD {
        answer(paper::DONE, machine_start::reset(m))
    } else {
        answer(paper::IGNORED, m)
    }
}

// F2 keeps its low three bits.
fn write_f2(m: Machine, value: u8) -> Outcome
    ensures { result ≡ ev.written_f2 m value }
{
    let device = Device {
        f2: value % 8,
        ..m.device
    };
    answer(paper::DONE, Machine { device, ..m })
}

// F5 is taken in sleep, with bit 1 dropped.
fn write_f5(m: Machine, value: u8) -> Outcome
    ensures { result ≡ ev.written_f5 m value }
{
    if m.device.phase != Phase::Sleep {
        return answer(paper::IGNORED, m);
    }
    let device = Device {
        f5: value / 4 * 4 + value % 2,
        ..m.device
    };
    answer(paper::DONE, Machine { device, ..m })
}

// F4 during a conversion is held, if none is held.
fn hold_f4(m: Machine, value: u8) -> Outcome
    ensures { result ≡ ev.held_f4 m value }
{
    if m.device.held.is_some() {
        return answer(paper::IGNORED, m);
    }
    let mut n = m;
    n.device = machine_state::with_held(Some(value), m.device);
    answer(paper::DONE, n)
}

// F4 takes effect, unless it would begin one too many.
fn take_f4(m: Machine, value: u8) -> Outcome
    ensures { result ≡ ev.taken_f4 m value }
{
    let begins = machine_control::begins(m.device.phase, value);
    if machine_counts::is_barred(begins, m.ledger) {
        return answer(paper::ALL_BEGUN, m);
    }
    answer(paper::DONE, machine_control::take_effect(m, value))
}

// F4 is held during a conversion, and takes effect otherwise.
fn write_f4(m: Machine, value: u8) -> Outcome
    ensures { result ≡ ev.written_f4 m value }
{
    if machine_state::is_running(m.device.phase) {
        hold_f4(m, value)
    } else {
        take_f4(m, value)
    }
}

// Whether F2, F4 and F5 may be written.
fn may_write(d: Device) -> bool
    ensures { result ≡ ev.may_write d }
{
    !d.copying | machine_state::is_running(d.phase)
}

// F2, F5 and F4, where nothing is being copied or a conversion is running.
pub fn write_control(m: Machine, register: u8, value: u8) -> Outcome
    ensures { result ≡ ev.written_control m register value }
{
    if !may_write(m.device) {
        return answer(paper::STILL_COPYING, m);
    }
    match register {
        paper::CTRL_HUM => write_f2(m, value),
        paper::CONFIG => write_f5(m, value),
        _ => write_f4(m, value),
    }
}
