// F4 takes effect, as it is written or once the conversion that held it off has finished.
#![tactic(auto)]

ghost use Rattle.std.specs.Prelude.{◌≡◌};
ghost use Rattle.machine.specs.Control as control;

use machine::{Codes, Device, Machine, Phase};

// The phase after F4 has taken effect, by its mode.
fn phase_after(p: Phase, f4: u8) -> Phase
    ensures { result ≡ control.phase_after p f4 }
{
    match f4 % 4 {
        0 => Phase::Sleep,
        3 if p == Phase::Standby => Phase::Standby,
        3 => Phase::Normal,
        _ => Phase::Forced,
    }
}

// Whether F4 begins a conversion when it takes effect.
pub fn begins(p: Phase, f4: u8) -> bool
    ensures { result ≡ control.begins p f4 }
{
    machine_state::is_running(phase_after(p, f4))
}

// The device goes on in a phase; a beginning sets copying.
pub fn enter(phase: Phase, d: Device) -> Device
    ensures { result ≡ control.entered phase d }
{
    Device {
        phase,
        copying: machine_state::is_running(phase) | d.copying,
        ..d
    }
}

// The oversampling codes of F4, humidity's from F2 where the part has it.
fn latch(d: Device, f4: u8) -> Codes
    ensures { result ≡ control.latched d f4 }
{
    Codes {
        temperature: f4 / 32,
        pressure: f4 / 4 % 8,
        humidity: machine_state::f2_of(d),
    }
}

// F4 is set, the codes are latched, and none is held any more.
fn set_control(d: Device, f4: u8) -> Device
    ensures { result ≡ control.controlled d f4 }
{
    let latched = Device {
        f4,
        held: None,
        codes: latch(d, f4),
        ..d
    };
    enter(phase_after(d.phase, f4), latched)
}

// F4 takes effect, and a conversion that begins is counted.
#[tactic(auto, unfolding(machine::specs::Control::effect))]
pub fn take_effect(m: Machine, f4: u8) -> Machine
    ensures { result ≡ control.effect m f4 }
{
    Machine {
        device: set_control(m.device, f4),
        ledger: machine_counts::count_begun(begins(m.device.phase, f4), m.ledger),
        ..m
    }
}

// Whether a held F4 begins a conversion.
pub fn held_begins(h: Option<u8>, p: Phase) -> bool
    ensures { result ≡ control.held_begins h p }
{
    match h {
        None => false,
        Some(f4) => begins(p, f4),
    }
}

// A held F4 takes effect.
#[tactic(auto, unfolding(machine::specs::Control::held_effect))]
pub fn take_held(h: Option<u8>, m: Machine) -> Machine
    ensures { result ≡ control.held_effect h m }
{
    match h {
        None => m,
        Some(f4) => take_effect(m, f4),
    }
}
