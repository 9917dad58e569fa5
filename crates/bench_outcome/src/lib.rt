// What an event hands back, as text.
#![tactic(auto)]

ghost use Rattle.std.specs.Prelude.{◌≡◌};
ghost use Rattle.bench_page.specs.Page.{◌▹◌};
ghost use Rattle.bench_row.specs.Row.{buffer};
ghost use Rattle.bench_outcome.specs.Outcomes as text;

use bench_bytes::front;
use bench_page::Page;
use machine::{Codes, Tally};

// What an outcome says beside the machine.
#[derive(Clone, Copy)]
pub struct Said {
    pub answer: u8,
    pub value: u8,
    pub whole: bool,
    pub number: u32,
    pub codes: Codes,
    pub delivered: bool,
    pub bytes: [u8; 8],
}

// What an event's answer shows: the number alone, a byte beside it, or what a close in a buffer of so many bytes shows.
#[derive(Clone, Copy)]
pub enum Shape {
    Number,
    Byte,
    Close(usize),
}

// Writes what was said, in a shape.
#[tactic(auto, using(bench_page::proofs::Laws::joined), unfolding(crate::specs::Outcomes::closed))]
pub fn write_said(said: Said, shape: Shape, page: &mut Page)
    ensures { page.new ≡ page.old ▹ text.text said shape }
{
    match shape {
        Shape::Number => page.write_decimal(said.answer as u64),
        Shape::Byte => write_value(said.answer, said.value, page),
        Shape::Close(length) => {
            write_closing(said, page);
            write_left(said, length, page);
        }
    }
}

// Writes a number, and where it is done the register's value.
fn write_value(answer: u8, value: u8, page: &mut Page)
    ensures { page.new ≡ page.old ▹ text.given answer value }
{
    if answer == paper::DONE {
        bench_row::fill(b"# @", &[answer as u64, value as u64], page);
    } else {
        page.write_decimal(answer as u64);
    }
}

// Writes a close's number, and where it is done what the burst showed.
#[tactic(auto, using(bench_page::proofs::Laws::joined, crate::proofs::Bits::flag), unfolding(crate::specs::Outcomes::burst))]
fn write_closing(said: Said, page: &mut Page)
    ensures { page.new ≡ page.old ▹ text.closing said }
{
    if said.answer == paper::DONE {
        write_whole(said.whole, page);
        bench_row::fill(
            b" n=# codes=#,#,# before=#",
            &[
                said.number as u64,
                said.codes.temperature as u64,
                said.codes.pressure as u64,
                said.codes.humidity as u64,
                said.delivered as u64,
            ],
            page,
        );
    } else {
        page.write_decimal(said.answer as u64);
    }
}

// Writes whether a burst was whole.
fn write_whole(whole: bool, page: &mut Page)
    ensures { page.new ≡ page.old ▹ text.whole whole }
{
    if whole {
        page.write_text(b"0 whole");
    } else {
        page.write_text(b"0 partial");
    }
}

// Writes the lent buffer: the first bytes of a whole close, as many as were lent, and otherwise as it was lent.
#[tactic(auto, unfolding(bench_lent::specs::Lent::lent_of))]
fn write_left(said: Said, length: usize, page: &mut Page)
    ensures { page.new ≡ page.old ▹ buffer (text.left said length) }
{
    if said.whole {
        let bytes = said.bytes;
        bench_row::write_buffer(front(&bytes, length), page);
    } else {
        let lent = bench_lent::filled();
        let n = bench_lent::within(length);
        bench_row::write_buffer(&lent[..n], page);
    }
}

// Writes the counts and what stands, by name.
pub fn write_tally(tally: Tally, page: &mut Page)
    ensures { page.new ≡ page.old ▹ text.tally tally }
{
    bench_row::fill(
        b"begun=# delivered=# overwritten=# abandoned=# standing=# running=# waiting=# shown=#",
        &[
            tally.ledger.begun as u64,
            tally.ledger.delivered as u64,
            tally.ledger.overwritten as u64,
            tally.ledger.abandoned as u64,
            tally.ledger.standing as u64,
            tally.running as u64,
            tally.waiting as u64,
            tally.unread as u64,
        ],
        page,
    );
}
