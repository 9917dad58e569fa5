// The bench's lines: each is read into a command, which is run over the libraries, and its answer is written on a page.
ghost use Rattle.std.specs.Prelude.{◌≡◌};
ghost use Rattle.bench.specs.Answers as answers;

use bench_command::Asked;
use bench_page::Page;
use machine::Machine;

// The most bytes among the words of a line: two digits make one.
pub const MOST_BYTES: usize = 2048;

// Answers a line: writes the answer and a newline on the page, and gives the machine afterwards.
// An empty line is passed over.
#[tactic(auto, unfolding(crate::specs::Answers::answered, crate::specs::Answers::zeros))]
pub fn answer(line: &[u8], m: Machine, page: &mut Page) -> Machine
    ensures { (result, page.new) ≡ answers.answered line.now m page.old }
{
    let mut bytes = [0u8; MOST_BYTES];
    let asked = bench_command::read(line, &mut bytes);
    answer_asked(asked, line, &bytes, m, page)
}

// Answers what a line asks, with its bytes.
fn answer_asked(asked: Asked, line: &[u8], bytes: &[u8], m: Machine, page: &mut Page) -> Machine
    ensures { (result, page.new) ≡ answers.asked_answered asked line.now bytes.now m page.old }
{
    match asked {
        Asked::Nothing => {}
        Asked::Refused(reason) => bench_phrases::refuse(reason, page),
        Asked::Question(question) => bench_question::reply(question, bytes, page),
        Asked::VisitWrite { room, steps } => bench_visit::write(line, steps, room, page),
        Asked::Fresh { kind, begun } => return bench_machine::fresh(kind, begun, page),
        Asked::Event(event) => return bench_machine::event(m, event, page),
        Asked::Ledger => bench_machine::ledger(m, page),
    }
    m
}
