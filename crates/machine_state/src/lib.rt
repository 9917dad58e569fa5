// What is asked of a state, one field of an enum type changed, no conversion, and an event's answer.
#![tactic(auto)]

ghost use Rattle.std.specs.Prelude.{◌≡◌};
ghost use Rattle.machine.specs.Control as control;
ghost use Rattle.machine.specs.Events as ev;
ghost use Rattle.machine.specs.Fields as fields;
ghost use Rattle.machine.specs.State as state;

use kinds::Kind;
use machine::{Codes, Conversion, Device, Machine, OpenBurst, Outcome, Phase};

// No codes.
const NO_CODES: Codes = Codes {
    temperature: 0,
    pressure: 0,
    humidity: 0,
};

// Whether a conversion is running.
pub fn is_running(p: Phase) -> bool
    ensures { result ≡ state.runs p }
{
    matches!(p, Phase::Forced | Phase::Normal)
}

// Whether the device stands by between two conversions.
pub fn is_in_standby(p: Phase) -> bool
    ensures { result ≡ state.stands_by p }
{
    p == Phase::Standby
}

// Whether a burst is open.
pub fn is_open(b: Option<OpenBurst>) -> bool
    ensures { result ≡ state.is_open b }
{
    b.is_some()
}

// The device in another phase.
pub fn with_phase(phase: Phase, d: Device) -> Device
    ensures { result ≡ fields.with_phase phase d }
{
    Device { phase, ..d }
}

// The device with another F4 held, or none.
pub fn with_held(held: Option<u8>, d: Device) -> Device
    ensures { result ≡ fields.with_held held d }
{
    Device { held, ..d }
}

// F2, where the part has it, and else 0.
pub fn f2_of(d: Device) -> u8
    ensures { result ≡ control.f2_of d }
{
    if kinds::facts(d.kind).humidity {
        d.f2
    } else {
        0
    }
}

// No conversion of a kind of part.
pub fn no_conversion(kind: Kind) -> Conversion
    ensures { result ≡ state.no_conversion kind }
{
    let chip = kinds::facts(kind);
    let bytes = chip.fresh;
    Conversion {
        number: 0,
        codes: NO_CODES,
        bytes,
        delivered: false,
    }
}

// A number and the machine afterwards, and nothing else.
pub fn answer(number: u8, m: Machine) -> Outcome
    ensures { result ≡ ev.answered number m }
{
    Outcome {
        answer: number,
        value: 0,
        whole: false,
        number: 0,
        codes: NO_CODES,
        delivered: false,
        bytes: [0u8; 8],
        machine: m,
    }
}
