// How a conversion finishes, and how the next one begins from standby.
ghost use Rattle.std.specs.Prelude.{◌≡◌};
ghost use Rattle.machine.specs.Events as ev;

use machine::{Conversion, Device, Machine, Phase};

// Whether the device has a conversion that may finish.
pub fn may_finish(d: Device) -> bool
    ensures { result ≡ ev.may_finish d }
{
    !d.copying & machine_state::is_running(d.phase)
}

// Forced goes to sleep with F4's mode bits cleared, normal to standby.
fn rest(d: Device) -> Device
    ensures { result ≡ ev.rested d }
{
    if d.phase == Phase::Forced {
        Device {
            phase: Phase::Sleep,
            f4: d.f4 / 4 * 4,
            ..d
        }
    } else {
        machine_state::with_phase(Phase::Standby, d)
    }
}

// Whether the held F4 begins a conversion once the device rests.
pub fn held_will_begin(d: Device) -> bool
    ensures { result ≡ ev.held_will_begin d }
{
    machine_control::held_begins(d.held, rest(d).phase)
}

// The running conversion lands with its bytes, the device rests, and then a held F4 takes effect.
pub fn convert(m: Machine, bytes: [u8; 8]) -> Machine
    ensures { result ≡ ev.converted m bytes }
{
    // The device changes in place: made anew by struct update here, the machine would go through memory.
    let device = m.device;
    let finished = Conversion {
        number: m.ledger.begun,
        codes: device.codes,
        bytes,
        delivered: false,
    };
    let mut landed = machine_conversion::land(finished, m);
    landed.device = rest(device);
    machine_control::take_held(m.device.held, landed)
}

// A conversion begins from standby.
pub fn awaken(m: Machine) -> Machine
    ensures { result ≡ ev.awake m }
{
    Machine {
        device: machine_control::enter(Phase::Normal, m.device),
        ledger: machine_counts::count_begun(true, m.ledger),
        ..m
    }
}
