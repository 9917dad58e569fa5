// The register at an address, as a burst gives it.
#![tactic(auto)]

ghost use Rattle.std.specs.Prelude.{◌≡◌, cond};
ghost use Rattle.machine.specs.Data as bytes;

use machine::{Device, Machine};

// A status bit.
fn bit(set: bool, value: u8) -> u8
    ensures { result ≡ cond set value 0 }
{
    if set { value } else { 0 }
}

// The status byte of this moment.
fn status(d: Device) -> u8
    ensures { result ≡ bytes.status d }
{
    bit(machine_state::is_running(d.phase), paper::STATUS_RUNNING)
        + bit(d.copying, paper::STATUS_COPYING)
}

// The shown byte at a data address, and 0 at any other.
fn data_at(address: u8, m: Machine) -> u8
    ensures { result ≡ bytes.data_at address m }
{
    if address < paper::FIRST_DATA || kinds::facts(m.device.kind).last < address {
        return 0;
    }
    // The eight bytes are copied out first: indexed in the machine, the whole of it would go through memory.
    let bytes = m.shown.bytes;
    bytes[(address - paper::FIRST_DATA) as usize]
}

// The register at an address.
pub fn register(address: u8, m: Machine) -> u8
    ensures { result ≡ bytes.register address m }
{
    // The device is copied out for the arms of its own fields: read in the machine there, all of it would go through memory.
    let device = m.device;
    match address {
        paper::CHIP_ID => kinds::facts(m.device.kind).id,
        paper::CTRL_HUM => machine_state::f2_of(device),
        paper::STATUS => status(device),
        paper::CTRL_MEAS => device.f4,
        paper::CONFIG => m.device.f5,
        _ => data_at(address, m),
    }
}
