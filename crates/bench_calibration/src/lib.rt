// A chip's words, as text.
#![tactic(auto)]

ghost use Rattle.std.specs.Prelude.{◌≡◌};
ghost use Rattle.bench_page.specs.Page.{◌▹◌};
ghost use Rattle.bench_calibration.specs.Words as text;

use bench_page::Page;
use calibration::{Calibration, HumidityWords, PressureWords, TemperatureWords, Words};

// Writes the words that two blocks hold, or the number that refuses the blocks.
#[tactic(auto, unfolding(crate::specs::Words::calibration))]
pub fn write_calibration(known: Calibration, page: &mut Page)
    ensures { page.new ≡ page.old ▹ text.calibration known }
{
    match known {
        Ok(w) => write_words(w, page),
        Err(refusal) => page.write_decimal(refusal.number as u64),
    }
}

// Writes a chip's words.
#[tactic(auto, using(bench_page::proofs::Laws::joined), unfolding(crate::specs::Words::words))]
fn write_words(w: Words, page: &mut Page)
    ensures { page.new ≡ page.old ▹ text.words w }
{
    write_temperature(w.temperature, page);
    write_pressure(w.pressure, page);
    write_humidity(w.humidity, page);
}

// Writes T1 to T3, after the number that says they are known.
fn write_temperature(w: TemperatureWords, page: &mut Page)
    ensures { page.new ≡ page.old ▹ text.temperature w }
{
    bench_row::fill_signed(
        b"# T1=# T2=# T3=#",
        &[paper::DONE as i32, w.t1 as i32, w.t2 as i32, w.t3 as i32],
        page,
    );
}

// Writes P1 to P9.
fn write_pressure(w: PressureWords, page: &mut Page)
    ensures { page.new ≡ page.old ▹ text.pressure w }
{
    bench_row::fill_signed(
        b" P1=# P2=# P3=# P4=# P5=# P6=# P7=# P8=# P9=#",
        &[
            w.p1 as i32,
            w.p2 as i32,
            w.p3 as i32,
            w.p4 as i32,
            w.p5 as i32,
            w.p6 as i32,
            w.p7 as i32,
            w.p8 as i32,
            w.p9 as i32,
        ],
        page,
    );
}

// Writes H1 to H6.
fn write_humidity(w: HumidityWords, page: &mut Page)
    ensures { page.new ≡ page.old ▹ text.humidity w }
{
    bench_row::fill_signed(
        b" H1=# H2=# H3=# H4=# H5=# H6=#",
        &[
            w.h1 as i32,
            w.h2 as i32,
            w.h3 as i32,
            w.h4 as i32,
            w.h5 as i32,
            w.h6 as i32,
        ],
        page,
    );
}
