// The steps that a word's parts make.
ghost use Rattle.std.specs.Prelude.{◌≡◌};
ghost use Rattle.bench_step.specs.Reading as reading;

use visit::{Answer, Slot, Step};

// The step of a word of one character.
pub fn bracket(character: u8) -> Step
    ensures { result ≡ reading.bracket character }
{
    match character {
        b'(' => Step::Open,
        b')' => Step::Close,
        _ => Step::Stray,
    }
}

// A slot of a time and three channels.
// A stray step where one of them is none.
#[tactic(auto, unfolding(crate::specs::Reading::slot_of))]
pub fn slot(time: usize, t: Option<Answer>, p: Option<Answer>, h: Option<Answer>) -> Step
    ensures { result ≡ reading.slot_of time t p h }
{
    match (t, p, h) {
        (Some(t), Some(p), Some(h)) if time <= 0xFFFFFFFF => Step::Slot(Slot {
            time: time as u32,
            temperature: t,
            pressure: p,
            humidity: h,
        }),
        _ => Step::Stray,
    }
}
