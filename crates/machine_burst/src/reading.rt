// Bursts: what byte gives, and how close ends one.
ghost use Rattle.std.specs.Prelude.{◌≡◌};
ghost use Rattle.machine.specs.Events as ev;

use kinds::Kind;
use machine::{Machine, OpenBurst, Outcome};
use machine_state::answer;

// The next register of the burst b.
fn give_next(b: OpenBurst, m: Machine) -> Outcome
    ensures { result ≡ ev.byte_at b.first b.next m }
{
    if (paper::LAST_REGISTER as u16) < b.next {
        return answer(paper::ADDRESS_NOT_ALLOWED, m);
    }
    let burst = Some(OpenBurst {
        next: b.next + 1,
        ..b
    });
    Outcome {
        value: machine_registers::register(b.next as u8, m),
        ..answer(paper::DONE, Machine { burst, ..m })
    }
}

// The next register of a burst, if it is open.
pub fn give(burst: Option<OpenBurst>, m: Machine) -> Outcome
    ensures { result ≡ ev.byte_of burst m }
{
    match burst {
        None => answer(paper::WRONG_PHASE, m),
        Some(b) => give_next(b, m),
    }
}

// Whether all of F7 to the part's last data address were given.
pub fn is_whole(kind: Kind, burst: Option<OpenBurst>) -> bool
    ensures { result ≡ ev.is_whole kind burst }
{
    match burst {
        None => false,
        Some(b) => (b.first <= paper::FIRST_DATA as u16)
            & ((kinds::facts(kind).last as u16) < b.next),
    }
}

// The burst ends.
pub fn end(m: Machine) -> Machine
    ensures { result ≡ ev.ended m }
{
    Machine {
        burst: None,
        ..machine_conversion::show_waiting(m)
    }
}

// The answer of a whole burst, which delivers what it showed.
pub fn close_whole(m: Machine) -> Outcome
    ensures { result ≡ ev.whole_closing m }
{
    let shown = m.shown;
    let bytes = shown.bytes;
    Outcome {
        answer: paper::DONE,
        value: 0,
        whole: true,
        number: shown.number,
        codes: shown.codes,
        delivered: shown.delivered,
        bytes,
        machine: end(machine_conversion::deliver(m)),
    }
}
