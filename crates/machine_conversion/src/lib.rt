// What becomes of a finished conversion: it is shown or waits, is delivered, or is overwritten by the next; and the tally of
// them all.
#![tactic(auto)]

ghost use Rattle.std.specs.Prelude.{◌≡◌};
ghost use Rattle.machine.specs.State as state;
ghost use Rattle.machine.specs.Counts as counts;
ghost use Rattle.machine.specs.Events as ev;

use machine::{Conversion, Machine, Tally};

// Whether there is a conversion.
fn is_there(c: Conversion) -> bool
    ensures { result ≡ state.is_there c }
{
    c.number != 0
}

// Whether there is one that no whole burst has delivered.
fn is_unread(c: Conversion) -> bool
    ensures { result ≡ state.is_unread c }
{
    (c.number != 0) & !c.delivered
}

// A conversion is shown; the one that it replaces is overwritten, if unread.
// Here and below two fields of the machine change in place, and the others stay where they are.
#[tactic(auto, unfolding(machine::specs::Events::showing))]
fn show(c: Conversion, m: Machine) -> Machine
    ensures { result ≡ ev.showing c m }
{
    let mut n = m;
    n.ledger = machine_counts::count_overwritten(is_unread(m.shown), m.ledger);
    n.shown = c;
    n
}

// A conversion waits; the one that it replaces is overwritten, if unread.
#[tactic(auto, unfolding(machine::specs::Events::keeping))]
fn keep_waiting(c: Conversion, m: Machine) -> Machine
    ensures { result ≡ ev.keeping c m }
{
    let mut n = m;
    n.ledger = machine_counts::count_overwritten(is_unread(m.waiting), m.ledger);
    n.waiting = c;
    n
}

// While a burst is open a finished conversion waits.
pub fn land(c: Conversion, m: Machine) -> Machine
    ensures { result ≡ ev.landed c m }
{
    if machine_state::is_open(m.burst) {
        keep_waiting(c, m)
    } else {
        show(c, m)
    }
}

// What waits is shown.
#[tactic(auto, unfolding(machine::specs::Events::waiting_shown))]
pub fn show_waiting(m: Machine) -> Machine
    ensures { result ≡ ev.waiting_shown m }
{
    if is_there(m.waiting) {
        let mut n = show(m.waiting, m);
        n.waiting = machine_state::no_conversion(m.device.kind);
        n
    } else {
        m
    }
}

// The shown conversion is delivered, and counted the first time.
#[tactic(auto, unfolding(machine::specs::Events::delivering))]
pub fn deliver(m: Machine) -> Machine
    ensures { result ≡ ev.delivering m }
{
    let mut n = m;
    n.ledger = machine_counts::count_delivered(is_unread(m.shown), m.ledger);
    n.shown.delivered = is_there(m.shown);
    n
}

// The ledger, and what stands by name.
pub fn tally(m: Machine) -> Tally
    ensures { result ≡ counts.tallied m }
{
    Tally {
        ledger: m.ledger,
        running: machine_state::is_running(m.device.phase),
        waiting: is_there(m.waiting),
        unread: is_unread(m.shown),
    }
}
