// The bytes that a finish stores.
ghost use Rattle.std.specs.Prelude.{cond, ◌≡◌};
ghost use Rattle.machine.specs.Data as bytes;

use machine::Device;

// Whether the counts have 20, 20 and 16 bits.
pub fn is_in_range(temperature: u32, pressure: u32, humidity: u32) -> bool
    ensures { result ≡ bytes.in_range temperature pressure humidity }
{
    (temperature < paper::COUNT_20) & ((pressure < paper::COUNT_20) & (humidity < paper::COUNT_16))
}

// What is kept of a count.
fn keep(code: u8, count: u32, skipped: u32) -> u32
    ensures { result ≡ bytes.kept code count skipped }
{
    if code == 0 { skipped } else { count }
}

// What the part has of a channel, and 0 where it lacks the channel.
fn if_there(there: bool, kept: u32) -> u32
    ensures { result ≡ cond there kept 0 }
{
    if there { kept } else { 0 }
}

// The bytes that the device stores of three counts.
#[tactic(auto, unfolding(machine::specs::Data::stored))]
pub fn store(d: Device, temperature: u32, pressure: u32, humidity: u32) -> [u8; 8]
    ensures { result ≡ bytes.stored d temperature pressure humidity }
{
    data::lay(
        keep(d.codes.temperature, temperature, paper::SKIPPED_20),
        keep(d.codes.pressure, pressure, paper::SKIPPED_20),
        if_there(
            kinds::facts(d.kind).humidity,
            keep(d.codes.humidity, humidity, paper::SKIPPED_16),
        ),
    )
}
