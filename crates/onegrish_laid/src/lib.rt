// The chip's words into a lent slice, as 18 numbers of 16 bits, T1 to T3, P1 to P9, H1 to H6. They are read again by `onegrish_kept`.
#![tactic(auto)]

ghost use Rattle.std.specs.Prelude.{◌≡◌, [], ◌∷◌, ◌+◌, ◌≤◌, ◌<◌, length, Ok};
ghost use Rattle.onegrish_laid.specs.Written as written;

use calibration::{Calibration, HumidityWords, PressureWords, TemperatureWords, Words};

// Three words, from a place on.
fn lay_three(k: usize, a: i16, b: i16, c: i16, words: &mut [i16])
    requires { k + 2 < length words.old }
    ensures { words.new ≡ written.laid k (a ∷ b ∷ c ∷ []) words.old }
{
    words[k] = a;
    words[k + 1] = b;
    words[k + 2] = c;
}

// T1 to T3, each at its place.
// T1 has no sign: from 0x8000 on it stands for itself less 0x10000, and so does P1.
fn lay_temperature(w: TemperatureWords, words: &mut [i16])
    requires { 18 ≤ length words.old }
    ensures { words.new ≡ written.laid 0 (written.temperature_list w) words.old }
{
    lay_three(0, w.t1.cast_signed(), w.t2, w.t3, words);
}

// P1 to P9, each at its place.
fn lay_pressure(w: PressureWords, words: &mut [i16])
    requires { 18 ≤ length words.old }
    ensures { words.new ≡ written.laid 3 (written.pressure_list w) words.old }
{
    lay_three(3, w.p1.cast_signed(), w.p2, w.p3, words);
    lay_three(6, w.p4, w.p5, w.p6, words);
    lay_three(9, w.p7, w.p8, w.p9, words);
}

// H1 to H6, each at its place.
fn lay_humidity(w: HumidityWords, words: &mut [i16])
    requires { 18 ≤ length words.old }
    ensures { words.new ≡ written.laid 12 (written.humidity_list w) words.old }
{
    lay_three(12, w.h1 as i16, w.h2, w.h3 as i16, words);
    lay_three(15, w.h4, w.h5, w.h6 as i16, words);
}

// All 18 words, each at its place; 9 for fewer than 18 places.
fn lay_words(w: Words, words: &mut [i16]) -> u8
    ensures { (result, words.new) ≡ written.words_into (Ok w) words.old }
{
    if onegrish_kept::WORDS <= words.len() {
        lay_temperature(w.temperature, words);
        lay_pressure(w.pressure, words);
        lay_humidity(w.humidity, words);
        return paper::DONE;
    }
    paper::BUFFER_TOO_SHORT
}

// The number of a calibration; its words are written where it is 0.
pub fn hand_words(known: Calibration, words: &mut [i16]) -> u8
    ensures { (result, words.new) ≡ written.words_into known words.old }
{
    match known {
        Ok(w) => lay_words(w, words),
        Err(why) => why.number,
    }
}
