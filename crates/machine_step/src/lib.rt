// One step of the machine by any of the eight events.
#![tactic(auto)]

ghost use Rattle.std.specs.Prelude.{◌≡◌};
ghost use Rattle.machine.specs.Event as event;

use machine::{Event, Machine, Outcome};

// What an event hands back: its number, the machine afterwards, what a byte gives, and what a close says and writes.
pub fn step(m: Machine, e: Event) -> Outcome
    ensures { result ≡ event.stepped m e }
{
    match e {
        Event::Power => machine_start::power(m),
        Event::Copied => machine_start::copied(m),
        Event::Write(register, value) => machine_write::write(m, register, value),
        Event::Finish(temperature, pressure, humidity) => machine_finish::finish(
            m,
            temperature,
            pressure,
            humidity,
        ),
        Event::Wake => machine_finish::wake(m),
        Event::Open(address) => machine_burst::open(m, address),
        Event::Byte => machine_burst::byte(m),
        Event::Close(length) => machine_burst::close_by_length(m, length),
    }
}
