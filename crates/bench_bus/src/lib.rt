// Bus bytes: i2c, spi.
#![tactic(auto)]

ghost use Rattle.std.specs.Prelude.{◌≡◌};
ghost use Rattle.bus.specs.Writing.{encoded_answer, decoded_answer, encoded_write, decoded_write};
ghost use Rattle.bus.specs.Reading.{encoded_read};
ghost use Rattle.bench_page.specs.Page.{◌▹◌};
ghost use Rattle.bench_lent.specs.Lent.{lent_of};
ghost use Rattle.bench_bus.specs.Messages as messages;

use bench_page::Page;
use bus::{Bus, Decoded, Device};
use paper::Refusal;

// Each of the three lends a buffer itself: one function that lent it to a closure would have to say in its promise what the closure left there.

// Writes the message of a write, encoded in a buffer of so many bytes.
pub fn write(device: Device, pairs: &[u8], room: usize, page: &mut Page)
    ensures { page.new ≡ page.old ▹ messages.message (encoded_write device pairs.now (lent_of room)) }
{
    let mut lent = bench_lent::filled();
    let n = bench_lent::within(room);
    let encoded = bus::encode_write(device, pairs, &mut lent[..n]);
    write_decoded(unaddressed(encoded), &lent[..n], page);
}

// Writes the messages of a read, encoded in a buffer of so many bytes.
pub fn read(device: Device, register: u8, room: usize, page: &mut Page)
    ensures { page.new ≡ page.old ▹ messages.message (encoded_read device register (lent_of room)) }
{
    let mut lent = bench_lent::filled();
    let n = bench_lent::within(room);
    let encoded = bus::encode_read(device, register, &mut lent[..n]);
    write_decoded(unaddressed(encoded), &lent[..n], page);
}

// Writes the pairs of a write, decoded in a buffer of so many bytes.
pub fn decode(bus: Bus, bytes: &[u8], room: usize, page: &mut Page)
    ensures { page.new ≡ page.old ▹ messages.message (decoded_write bus bytes.now (lent_of room)) }
{
    let mut lent = bench_lent::filled();
    let n = bench_lent::within(room);
    let decoded = bus::decode_write(bus, bytes, &mut lent[..n]);
    write_decoded(decoded, &lent[..n], page);
}

// What encoding answers, as decoding answers for a device that has no address.
fn unaddressed(encoded: Result<usize, Refusal>) -> Result<Decoded, Refusal>
    ensures { decoded_answer result ≡ encoded_answer encoded }
{
    encoded.map(|bytes| Decoded {
        device: Device::Selected,
        bytes,
    })
}

// Writes what decoding answers, and the buffer.
#[tactic(auto, using(bench_page::proofs::Laws::joined), unfolding(crate::specs::Messages::message))]
fn write_decoded(decoded: Result<Decoded, Refusal>, lent: &[u8], page: &mut Page)
    ensures { page.new ≡ page.old ▹ messages.message (decoded_answer decoded, lent.now) }
{
    write_found(decoded, page);
    bench_row::write_buffer(lent, page);
}

// Writes the device and how many bytes its pairs have, or the number that refuses them.
fn write_found(decoded: Result<Decoded, Refusal>, page: &mut Page)
    ensures { page.new ≡ page.old ▹ messages.answered (decoded_answer decoded) }
{
    match decoded {
        Ok(Decoded { device, bytes }) => write_device(device, bytes, page),
        Err(why) => page.write_decimal(why.number as u64),
    }
}

// Writes a device and a number of bytes.
fn write_device(device: Device, n: usize, page: &mut Page)
    ensures { page.new ≡ page.old ▹ messages.found device n }
{
    match device {
        Device::At(address) => bench_row::fill(
            b"# addr=@ n=#",
            &[paper::DONE as u64, address as u64, n as u64],
            page,
        ),
        Device::Selected => bench_row::fill(b"# n=#", &[paper::DONE as u64, n as u64], page),
    }
}
