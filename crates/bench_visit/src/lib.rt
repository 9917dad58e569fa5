// Visit records: visit read, visit write.
#![tactic(auto)]

ghost use Rattle.std.specs.Prelude.{◌≡◌, ◌≤◌, length as size};
ghost use Rattle.visit.specs.Lent.{read_into, write_into};
ghost use Rattle.visit_read.specs.Answers.{read_answer};
ghost use Rattle.visit_write.specs.Answers.{written_answer};
ghost use Rattle.bench_page.specs.Page.{◌▹◌};
ghost use Rattle.bench_phrases.specs.Phrases.{ended};
ghost use Rattle.bench_lent.specs.Lent.{lent_of};
ghost use Rattle.bench_visit.specs.Line as Line-of;
ghost use Rattle.bench_visit.specs.Visits as text;

use bench_numbers::Reason;
use bench_page::Page;
use visit::RecordError;

mod steps;

// The words of a lent list of the longest length: as many steps as the longest buffer has bytes.
pub const LENT_WORDS: usize = 2048;

// The words of the list that a line's steps are laid in: a line of 4,096 bytes has at most 2,041.
pub const LINE_WORDS: usize = 16384;

// A lent list of the longest length, all zeros.
#[tactic(auto, unfolding(crate::specs::Visits::zeros))]
fn lent_list() -> [u32; LENT_WORDS]
    ensures { (result ≡ text.zeros) × (2048 ≡ size result) }
{
    [0; LENT_WORDS]
}

// A list for the steps of a line.
fn line_list() -> [u32; LINE_WORDS]
    ensures { 16384 ≡ size result }
{
    [0; LINE_WORDS]
}

// Writes the steps of a record, read into a list of so many, or why it is refused.
#[tactic(auto, unfolding(crate::specs::Visits::lent_steps))]
pub fn read(bytes: &[u8], room: usize, page: &mut Page)
    ensures { page.new ≡ page.old ▹ text.read (read_into bytes.now (text.lent_steps room)) }
{
    let mut list = lent_list();
    let n = bench_lent::within(room) * visit::WORDS;
    let read = visit_read::read_record(bytes, &mut list[..n]);
    write_read(read, &list[..n], page);
}

// Writes what reading answers, with the steps of the list.
#[tactic(auto, unfolding(crate::specs::Visits::read))]
fn write_read(read: Result<usize, RecordError>, list: &[u32], page: &mut Page)
    ensures { page.new ≡ page.old ▹ text.read (read_answer read, list.now) }
{
    match read {
        Ok(n) => write_listed(paper::DONE, n, list, page),
        Err(RecordError::Whole(refusal)) => { page.write_decimal(u64::from(refusal.number)) }
        Err(RecordError::At(fault)) => write_listed(fault.number, fault.place, list, page),
    }
}

// Writes a number and the steps that were read, or the offset at which they were refused.
#[tactic(auto, using(bench_page::proofs::Laws::joined))]
fn write_listed(number: u8, n: usize, list: &[u32], page: &mut Page)
    ensures { page.new ≡ page.old ▹ text.listed number n list.now }
{
    if number == paper::DONE {
        bench_row::fill(b"# n=# steps=", &[u64::from(number), n as u64], page);
        steps::write(list, n, page);
    } else {
        bench_row::fill(b"# at=#", &[u64::from(number), n as u64], page);
    }
}

// Answers a line whose words after a place are steps: writes their record in a buffer of so many bytes, or why it is refused, and a newline.
#[tactic(auto, unfolding(crate::specs::Visits::write))]
pub fn write(line: &[u8], from: usize, room: usize, page: &mut Page)
    ensures { page.new ≡ text.write line.now from room page.old }
{
    let mut list = line_list();
    let taken = steps::lay_all(line, from, &mut list);
    write_taken(taken, &list, room, page);
}

// Answers a line by the words of the list that its steps fill.
fn write_taken(taken: Option<usize>, list: &[u32], room: usize, page: &mut Page)
    requires { Line-of.count taken ≤ size list.now }
    ensures { page.new ≡ text.write_laid (Line-of.front taken list.now) room page.old }
{
    match taken {
        Some(n) => write_record(&list[..n], room, page),
        None => bench_phrases::refuse(Reason::NotANumber, page),
    }
}

// Writes the record of a list of steps, and a newline.
fn write_record(list: &[u32], room: usize, page: &mut Page)
    ensures { page.new ≡ ended (page.old ▹ text.written (write_into list.now (lent_of room))) }
{
    let mut lent = bench_lent::filled();
    let n = bench_lent::within(room);
    let written = visit_write::write(list, &mut lent[..n]);
    write_lent(written, &lent[..n], page);
}

// Writes what writing answers, the buffer, and a newline.
#[tactic(auto, using(bench_page::proofs::Laws::joined), unfolding(crate::specs::Visits::written))]
fn write_lent(written: Result<usize, RecordError>, lent: &[u8], page: &mut Page)
    ensures { page.new ≡ ended (page.old ▹ text.written (written_answer written, lent.now)) }
{
    write_written(written, page);
    bench_row::write_buffer(lent, page);
    bench_phrases::end(page);
}

// Writes what writing answers.
fn write_written(written: Result<usize, RecordError>, page: &mut Page)
    ensures { page.new ≡ page.old ▹ text.answered (written_answer written) }
{
    match written {
        Ok(n) => write_counted(paper::DONE, n, page),
        Err(RecordError::Whole(refusal)) => { page.write_decimal(u64::from(refusal.number)) }
        Err(RecordError::At(fault)) => write_counted(fault.number, fault.place, page),
    }
}

// Writes a number and how many bytes there are, or the place of the step that was refused.
fn write_counted(number: u8, n: usize, page: &mut Page)
    ensures { page.new ≡ page.old ▹ text.counted number n }
{
    if number == paper::DONE {
        bench_row::fill(b"# n=#", &[u64::from(number), n as u64], page);
    } else {
        bench_row::fill(b"# at=#", &[u64::from(number), n as u64], page);
    }
}
