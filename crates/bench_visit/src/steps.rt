// A list of steps: laid from the words of a line, and shown as words.
ghost use Rattle.std.specs.Prelude.{◌≡◌, ◌/◌, [], length as size, drop};
ghost use Rattle.bench_page.specs.Page.{◌▹◌};
ghost use Rattle.bench_visit.specs.Line as Line-of;
ghost use Rattle.bench_visit.specs.Shown as text;

use bench_page::Page;
use visit::Step;

// Lays the steps of a line in a list: those of the words that follow a place where a word ends.
// Gives how many words of the list they fill, and none where a word is no step or its step has no room in the list.
// Each turn of the loop goes on where a word ended, so that no range counts its places.
pub fn lay_all(line: &[u8], from: usize, list: &mut [u32]) -> Option<usize>
    ensures { Line-of.Lays result list.new (Line-of.laid (size list.old / 8) 0 [] (Line-of.following (drop from line.now))) }
{
    let mut at = from;
    let mut k = 0;
    while at < line.len() {
        let word = bench_step::up_to(bench_bytes::rest(line, at + 1), b' ');
        if !lay(bench_step::read(word), k, list) {
            return None;
        }
        at += 1 + word.len();
        k += 1;
    }
    Some(k * visit::WORDS)
}

// Lays a step at a place of a list, and says whether it did.
// It does not where the step is a stray one, or the list has no such place.
#[tactic(auto, unfolding(crate::specs::Line::placed))]
fn lay(step: Step, k: usize, list: &mut [u32]) -> bool
    ensures { (result, list.new) ≡ Line-of.placed step k list.old }
{
    if matches!(step, Step::Stray) {
        return false;
    }
    let fits = k < list.len() / visit::WORDS;
    visit_step::lay(step, k, list);
    fits
}

// Writes the first n steps of a list, with single spaces between them.
pub fn write(list: &[u32], n: usize, page: &mut Page)
    ensures { page.new ≡ page.old ▹ text.steps n 0 list.now }
{
    for k in 0..n {
        write_one(list, k, page);
    }
}

// Writes the step at a place of a list, after a space where it is not the first.
#[tactic(auto, using(bench_page::proofs::Laws::joined))]
fn write_one(list: &[u32], k: usize, page: &mut Page)
    ensures { page.new ≡ page.old ▹ text.one k list.now }
{
    write_gap(k, page);
    bench_step::write(visit_step::step_at(list, k), page);
}

// Writes the space that stands before every step but the first.
#[tactic(auto, unfolding(bench_page::specs::Page::written))]
fn write_gap(k: usize, page: &mut Page)
    ensures { page.new ≡ page.old ▹ text.gap k }
{
    if k > 0 {
        page.write_text(b" ");
    }
}
