// For the measurements of measure/speed alone: the forced cycles of a BME280's machine in the loop that is counted.
#![tactic(auto)]

ghost use Rattle.std.specs.Prelude.{◌≡◌};
ghost use Rattle.kinds.specs.declared.Kind.TheVariants.{Bme280};
ghost use Rattle.machine.specs.State.{fresh};
ghost use Rattle.machine.specs.Events.{copying_ended};
ghost use Rattle.measure_cycles.specs.Cycles.{cycled};

use forced::Ridden;
use kinds::Kind;

mod forced; // one cycle

// Forced cycles of the machine one after the other: F4 written, copied, finished with its three counts, and read in a whole burst.
// It answers all bytes given, taken together by exclusive or; an event that is refused ends its cycle.
#[tactic(auto, unfolding(crate::specs::Cycles::cycled))]
#[unsafe(no_mangle)]
pub extern "C" fn speed_cycles(n: u32, f4: u8, t: u32, p: u32, h: u32, lent: &mut [u8]) -> u8
    ensures { (result, lent.new) ≡ cycled n (copying_ended (fresh Bme280)).machine 0 f4 t p h lent.old }
{
    let ready = machine_start::copied(machine_start::fresh(Kind::Bme280));
    let mut ridden = Ridden {
        machine: ready.machine,
        seen: 0,
    };
    for _ in 0..n {
        ridden = forced::ride(ridden, f4, t, p, h, lent);
    }
    ridden.seen
}
