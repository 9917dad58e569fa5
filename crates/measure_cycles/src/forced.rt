// One forced cycle of the machine, each event's answer looked at, as a driver would.
ghost use Rattle.std.specs.Prelude.{◌≡◌};
ghost use Rattle.measure_cycles.specs.Cycles as cycle;

use machine::{Machine, Outcome};

// The machine after a cycle, and all bytes given so far, taken together.
#[derive(Clone, Copy)]
pub struct Ridden {
    pub machine: Machine,
    pub seen: u8,
}

// A cycle that an event has ended.
fn stop(o: Outcome, seen: u8) -> Ridden
    ensures { result ≡ cycle.stopped o seen }
{
    Ridden {
        machine: o.machine,
        seen,
    }
}

// The next eight bytes.
#[tactic(auto, unfolding(crate::specs::Cycles::given))]
fn take_eight(m: Machine, seen: u8) -> Ridden
    ensures { result ≡ cycle.given 8 m seen }
{
    let mut machine = m;
    let mut all = seen;
    for _ in 0..8u32 {
        let given = machine_burst::byte(machine);
        machine = given.machine;
        all ^= given.value;
    }
    Ridden { machine, seen: all }
}

// Write, copied, finish, open, eight bytes and close.
// The first event that is refused ends the cycle.
#[tactic(auto, unfolding(crate::specs::Cycles::ridden, crate::specs::Cycles::after_write, crate::specs::Cycles::after_copied, crate::specs::Cycles::after_finish, crate::specs::Cycles::after_open))]
pub fn ride(r: Ridden, f4: u8, t: u32, p: u32, h: u32, lent: &mut [u8]) -> Ridden
    ensures { (result, lent.new) ≡ cycle.ridden r.machine r.seen f4 t p h lent.old }
{
    let seen = r.seen;
    let written = machine_write::write(r.machine, paper::CTRL_MEAS, f4);
    if written.answer != paper::DONE {
        return stop(written, seen);
    }
    let copied = machine_start::copied(written.machine);
    if copied.answer != paper::DONE {
        return stop(copied, seen);
    }
    let finished = machine_finish::finish(copied.machine, t, p, h);
    if finished.answer != paper::DONE {
        return stop(finished, seen);
    }
    let opened = machine_burst::open(finished.machine, paper::FIRST_DATA);
    if opened.answer != paper::DONE {
        return stop(opened, seen);
    }
    let given = take_eight(opened.machine, seen);
    let closing = machine_burst::close(given.machine, lent);
    Ridden {
        machine: closing.machine,
        seen: given.seen,
    }
}
