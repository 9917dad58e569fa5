// What a question is answered: each room's answer, with the bytes of the question's words.
#![tactic(auto)]

ghost use Rattle.std.specs.Prelude.{◌≡◌};
ghost use Rattle.bench_page.specs.Page.{◌▹◌};
ghost use Rattle.bench_phrases.specs.Phrases.{ended};
ghost use Rattle.bench_question.specs.Questions as text;

use bench_bytes::{front, rest};
use bench_command::{Question, Sent, Shown, Words};
use bench_page::Page;
use compensation::Answer;
use kinds::Kind;
use rooms::{Tolerances, Verdicts};

// Answers a question, and writes a newline.
pub fn reply(question: Question, bytes: &[u8], page: &mut Page)
    ensures { page.new ≡ ended (page.old ▹ text.replied question bytes.now) }
{
    write_reply(question, bytes, page);
    bench_phrases::end(page);
}

// Answers a question, but for the newline.
fn write_reply(question: Question, bytes: &[u8], page: &mut Page)
    ensures { page.new ≡ page.old ▹ text.replied question bytes.now }
{
    match question {
        Question::Cal { one, two } => cal(one, two, bytes, page),
        Question::Reading { kind, shown, sent } => reading(kind, shown, sent, bytes, page),
        Question::WaitMaximum { t, p, h } => bench_waiting::wait_maximum(t, p, h, page),
        Question::WaitTypical { t, p, h } => bench_waiting::wait_typical(t, p, h, page),
        Question::Poll { allowance, status } => bench_waiting::poll(
            front(bytes, status),
            allowance,
            page,
        ),
        Question::BusWrite {
            device,
            pairs,
            room,
        } => bench_bus::write(device, front(bytes, pairs), room, page),
        Question::BusDecode { bus, message, room } => bench_bus::decode(
            bus,
            front(bytes, message),
            room,
            page,
        ),
        Question::BusRead {
            device,
            register,
            room,
        } => bench_bus::read(device, register, room, page),
        Question::VisitRead { record, room } => bench_visit::read(front(bytes, record), room, page),
        Question::Day {
            one,
            two,
            readings,
            room,
        } => day(one, two, readings, room, bytes, page),
    }
}

// The words of two blocks, which are laid one after the other.
fn cal(one: usize, two: usize, bytes: &[u8], page: &mut Page)
    ensures { page.new ≡ page.old ▹ text.cal one two bytes.now }
{
    bench_reading::cal(front(bytes, one), front(rest(bytes, one), two), page);
}

// A day of readings, which are laid after the two blocks, with a lent list of so many answers.
#[tactic(auto, unfolding(crate::specs::Questions::day))]
fn day(one: usize, two: usize, readings: usize, room: usize, bytes: &[u8], page: &mut Page)
    ensures { page.new ≡ page.old ▹ text.day one two readings room bytes.now }
{
    let after = rest(bytes, one);
    bench_day::day(
        front(bytes, one),
        front(after, two),
        front(rest(after, two), readings),
        room,
        page,
    );
}

// What is shown of a reading of a kind of part.
#[tactic(auto, unfolding(crate::specs::Questions::reading))]
fn reading(kind: Kind, shown: Shown, sent: Sent, bytes: &[u8], page: &mut Page)
    ensures { page.new ≡ page.old ▹ text.reading kind shown sent bytes.now }
{
    let answer = compensate(kind, sent.first, bytes);
    match shown {
        Shown::Comp => bench_reading::comp(answer, page),
        Shown::Point => bench_rooms::point(rooms::make_point(answer), page),
        Shown::Cells => bench_rooms::cells(rooms::make_cells(answer), page),
        Shown::Rooms => bench_rooms::verdicts(compare(kind, answer, sent, bytes), page),
    }
}

// How a reading compares with the second, of the same kind of part, whose bytes follow its own.
#[tactic(auto, unfolding(crate::specs::Questions::compared))]
fn compare(kind: Kind, answer: Answer, sent: Sent, bytes: &[u8]) -> Verdicts
    ensures { result ≡ text.compared kind answer sent bytes.now }
{
    let after = rest(
        rest(rest(bytes, sent.first.one), sent.first.two),
        sent.first.raw,
    );
    rooms::compare_rooms(
        answer,
        compensate(kind, sent.second, after),
        Tolerances {
            temperature: sent.temperature,
            pressure: sent.pressure,
            humidity: sent.humidity,
        },
    )
}

// The reading of two blocks and the data, which are laid one after another, at three codes.
fn compensate(kind: Kind, words: Words, bytes: &[u8]) -> Answer
    ensures { result ≡ text.answer kind words bytes.now }
{
    let after = rest(bytes, words.one);
    compensation_kinds::compensate(
        kind,
        front(bytes, words.one),
        front(after, words.two),
        front(rest(after, words.two), words.raw),
        words.t,
        words.p,
        words.h,
    )
}
