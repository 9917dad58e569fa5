// The fresh states, reset, and the events power and copied.
#![tactic(auto)]

ghost use Rattle.std.specs.Prelude.{◌≡◌};
ghost use Rattle.machine.specs.State as state;
ghost use Rattle.machine.specs.Events as ev;

use kinds::Kind;
use machine::{Device, Ledger, Machine, Outcome, Phase};
use machine_state::answer;

// The fresh state of a kind of part.
pub fn fresh(kind: Kind) -> Machine
    ensures { result ≡ state.fresh kind }
{
    fresh_after(kind, 0)
}

// The fresh state of a kind of part after this many conversions, all delivered.
pub fn fresh_after(kind: Kind, conversions: u32) -> Machine
    ensures { result ≡ state.fresh_after kind conversions }
{
    let ledger = Ledger {
        begun: conversions,
        delivered: conversions,
        overwritten: 0,
        abandoned: 0,
        standing: 0,
    };
    fresh_with(kind, ledger)
}

// All fresh but the kind and the ledger.
fn fresh_with(kind: Kind, ledger: Ledger) -> Machine
    ensures { result ≡ state.fresh_with kind ledger }
{
    let none = machine_state::no_conversion(kind);
    Machine {
        device: Device {
            phase: Phase::Sleep,
            copying: true,
            f2: 0,
            f4: 0,
            f5: 0,
            held: None,
            codes: none.codes,
            kind,
        },
        burst: None,
        shown: none,
        waiting: none,
        ledger,
    }
}

// All fresh but the kind of part and the ledger, which counts what is abandoned.
pub fn reset(m: Machine) -> Machine
    ensures { result ≡ ev.reset m }
{
    fresh_with(m.device.kind, machine_counts::count_abandoned(m.ledger))
}

// Power is lost and returns: always done.
pub fn power(m: Machine) -> Outcome
    ensures { result ≡ ev.powered m }
{
    answer(paper::DONE, reset(m))
}

// The calibration has been copied.
pub fn copied(m: Machine) -> Outcome
    ensures { result ≡ ev.copying_ended m }
{
    if !m.device.copying {
        return answer(paper::WRONG_PHASE, m);
    }
    let device = Device {
        copying: false,
        ..m.device
    };
    answer(paper::DONE, Machine { device, ..m })
}
