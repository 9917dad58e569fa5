// A step of a visit and its word in a line, both ways: `(` opens a group, `)` closes one, and TIME:T:P:H is a slot.
#![tactic(auto)]

ghost use Rattle.std.specs.Prelude.{◌≡◌};
ghost use Rattle.bench_page.specs.Page.{◌▹◌};
ghost use Rattle.bench_step.specs.Reading as reading;
ghost use Rattle.bench_step.specs.Showing as text;

use bench_page::Page;
use parts::after;
use visit::{Answer, Slot, Step};

mod channels;
mod parts;
mod slots;

// What stands in a text up to the first mark: all of it where there is none.
pub fn up_to(text: &[u8], mark: u8) -> &[u8]
    ensures { result.now ≡ reading.before mark text.now }
{
    let end = parts::find(text, mark);
    bench_bytes::front(text, end)
}

// The step that a word stands for.
// A stray one where it stands for none.
#[tactic(auto, unfolding(crate::specs::Reading::step))]
pub fn read(word: &[u8]) -> Step
    ensures { result ≡ reading.step word.now }
{
    if word.len() == 1 {
        return slots::bracket(word[0]);
    }
    read_slot(word)
}

// The slot of a word: four parts with colons between them. Where there are fewer, the last ones are empty, and where there are more, the last has a colon.
#[tactic(auto, unfolding(crate::specs::Reading::slot_read))]
fn read_slot(word: &[u8]) -> Step
    ensures { result ≡ reading.slot_read word.now }
{
    let t = after(word, b':');
    let p = after(t, b':');
    let h = after(p, b':');
    slots::slot(
        bench_numbers::decimal(up_to(word, b':')),
        channels::temperature(up_to(t, b':')),
        channels::amount(up_to(p, b':')),
        channels::amount(h),
    )
}

// Writes the word of a step.
#[tactic(auto, unfolding(crate::specs::Showing::step))]
pub fn write(step: Step, page: &mut Page)
    ensures { page.new ≡ page.old ▹ text.step step }
{
    match step {
        Step::Open => page.write_text(b"("),
        Step::Close => page.write_text(b")"),
        Step::Stray => page.write_text(b"?"),
        Step::Slot(slot) => write_slot(slot, page),
    }
}

// Writes a slot: its time, and a colon before each channel.
#[tactic(auto, using(bench_page::proofs::Laws::joined), unfolding(crate::specs::Showing::slot))]
fn write_slot(slot: Slot, page: &mut Page)
    ensures { page.new ≡ page.old ▹ text.slot slot }
{
    page.write_decimal(u64::from(slot.time));
    write_temperature(slot.temperature, page);
    write_amount(slot.pressure, page);
    write_amount(slot.humidity, page);
}

// Writes a pressure or a humidity, or a missing one's number.
fn write_amount(answer: Answer, page: &mut Page)
    ensures { page.new ≡ page.old ▹ text.amount answer }
{
    match answer {
        Ok(value) => bench_row::fill(b":#", &[u64::from(value)], page),
        Err(absent) => bench_row::fill(b":!#", &[u64::from(absent.number)], page),
    }
}

// Writes a temperature with its sign, or a missing one's number.
fn write_temperature(answer: Answer, page: &mut Page)
    ensures { page.new ≡ page.old ▹ text.temperature answer }
{
    match answer {
        Ok(word) => write_signed(word, page),
        Err(_) => write_amount(answer, page),
    }
}

// Writes a signed number that is given by its two's complement.
fn write_signed(word: u32, page: &mut Page)
    ensures { page.new ≡ page.old ▹ text.signed word }
{
    if word < 0x80000000 {
        bench_row::fill(b":#", &[u64::from(word)], page);
    } else {
        bench_row::fill(b":-#", &[0x100000000 - u64::from(word)], page);
    }
}
