// The machine's answers: fresh, the eight events, ledger.
#![tactic(auto)]

ghost use Rattle.std.specs.Prelude.{◌≡◌};
ghost use Rattle.paper.specs.Numbers.{done};
ghost use Rattle.bench_page.specs.Page.{◌▹◌};
ghost use Rattle.bench_page.specs.Digits.{decimal};
ghost use Rattle.bench_outcome.specs.Outcomes as shown;
ghost use Rattle.machine.specs.Counts.{tallied};
ghost use Rattle.bench_machine.specs.Outcomes as outcomes;
ghost use Rattle.bench_machine.specs.Outcomes.{newline};

use bench_outcome::{Said, Shape};
use bench_page::Page;
use kinds::Kind;
use machine::{Event, Machine, Outcome, Tally};

// Writes a line with what an event hands back, and gives the machine after it.
#[tactic(auto, unfolding(crate::specs::Outcomes::event))]
pub fn event(m: Machine, e: Event, page: &mut Page) -> Machine
    ensures { (result, page.new) ≡ outcomes.event m e page.old }
{
    let outcome = machine_step::step(m, e);
    write_said(said_by(outcome), shape_of(e), page);
    outcome.machine
}

// Writes a line with the ledger and the names of what stands.
pub fn ledger(m: Machine, page: &mut Page)
    ensures { page.new ≡ page.old ▹ outcomes.tally (tallied m) ▹ newline }
{
    write_tally(machine_conversion::tally(m), page);
}

// Gives the fresh machine of a kind of part as after so many conversions, and writes a line that it is done.
#[tactic(auto, unfolding(crate::specs::Outcomes::fresh))]
pub fn fresh(kind: Kind, n: u32, page: &mut Page) -> Machine
    ensures { (result, page.new) ≡ outcomes.fresh kind n page.old }
{
    write_done(page);
    machine_start::fresh_after(kind, n)
}

// Writes a line with what an outcome says.
fn write_said(said: Said, shape: Shape, page: &mut Page)
    ensures { page.new ≡ page.old ▹ shown.text said shape ▹ newline }
{
    bench_outcome::write_said(said, shape, page);
    page.write_text(b"\n");
}

// Writes a line with the ledger and the names of what stands.
fn write_tally(tally: Tally, page: &mut Page)
    ensures { page.new ≡ page.old ▹ outcomes.tally tally ▹ newline }
{
    bench_outcome::write_tally(tally, page);
    page.write_text(b"\n");
}

// Writes a line that says that something is done.
fn write_done(page: &mut Page)
    ensures { page.new ≡ page.old ▹ decimal done ▹ newline }
{
    page.write_decimal(paper::DONE as u64);
    page.write_text(b"\n");
}

// What an outcome says beside the machine.
fn said_by(outcome: Outcome) -> Said
    ensures { result ≡ outcomes.said outcome }
{
    let bytes = outcome.bytes;
    Said {
        answer: outcome.answer,
        value: outcome.value,
        whole: outcome.whole,
        number: outcome.number,
        codes: outcome.codes,
        delivered: outcome.delivered,
        bytes,
    }
}

// The shape of an event's answer.
fn shape_of(e: Event) -> Shape
    ensures { result ≡ outcomes.shape e }
{
    match e {
        Event::Byte => Shape::Byte,
        Event::Close(length) => Shape::Close(length),
        _ => Shape::Number,
    }
}
