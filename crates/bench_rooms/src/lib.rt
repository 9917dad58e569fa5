// What the map room is given, as text: a map point, a reading's cells, and two rooms compared.
#![tactic(auto)]

ghost use Rattle.std.specs.Prelude.{◌≡◌};
ghost use Rattle.std.specs.Float.{binary64};
ghost use Rattle.std.specs.Float.Ieee.{to_bits};
ghost use Rattle.bench_page.specs.Page.{◌▹◌};
ghost use Rattle.bench_rooms.specs.Map as text;

use bench_page::Page;
use rooms::{Cell, Cells, MapPoint, Verdict, Verdicts};

// Three on a line stand out each time: a closure for one of them would take the page as these calls do, and be longer.

// Writes a map point.
#[tactic(auto, using(bench_page::proofs::Laws::joined, crate::proofs::Laws::three, crate::proofs::Laws::flagged), unfolding(crate::specs::Map::point))]
pub fn point(point: MapPoint, page: &mut Page)
    ensures { page.new ≡ page.old ▹ text.point point }
{
    write_double(b't', point.temperature, page);
    page.write_byte(b' ');
    write_double(b'p', point.pressure, page);
    page.write_byte(b' ');
    write_double(b'h', point.humidity, page);
    bench_row::fill(
        b" known=#,#,#",
        &[
            point.temperature_known as u64,
            point.pressure_known as u64,
            point.humidity_known as u64,
        ],
        page,
    );
}

// Writes the three cells of a reading.
#[tactic(auto, using(crate::proofs::Laws::three), unfolding(crate::specs::Map::cells))]
pub fn cells(cells: Cells, page: &mut Page)
    ensures { page.new ≡ page.old ▹ text.cells cells }
{
    write_cell(b't', cells.temperature, page);
    page.write_byte(b' ');
    write_cell(b'p', cells.pressure, page);
    page.write_byte(b' ');
    write_cell(b'h', cells.humidity, page);
}

// Writes what two rooms are to each other.
#[tactic(auto, using(crate::proofs::Laws::three), unfolding(crate::specs::Map::verdicts))]
pub fn verdicts(verdicts: Verdicts, page: &mut Page)
    ensures { page.new ≡ page.old ▹ text.verdicts verdicts }
{
    write_verdict(b't', verdicts.temperature, page);
    page.write_byte(b' ');
    write_verdict(b'p', verdicts.pressure, page);
    page.write_byte(b' ');
    write_verdict(b'h', verdicts.humidity, page);
}

// The bits of a double.
// One that is no number has one pattern.
fn bits(x: f64) -> u64
    ensures { result ≡ to_bits binary64 x }
{
    if x.is_nan() {
        return 0x7FF8000000000000;
    }
    x.to_bits()
}

// Writes a double after its letter: its bits, in 16 hex digits.
// A mark shows the lowest byte of its number, so each is divided: out of `to_be_bytes` each of the eight would be widened by hand again.
#[tactic(auto, unfolding(crate::specs::Map::double))]
fn write_double(letter: u8, x: f64, page: &mut Page)
    ensures { page.new ≡ page.old ▹ text.double letter x }
{
    let n = bits(x);
    bench_row::fill(
        &[letter, b'=', b'@', b'@', b'@', b'@', b'@', b'@', b'@', b'@'],
        &[
            n / 0x100000000000000,
            n / 0x1000000000000,
            n / 0x10000000000,
            n / 0x100000000,
            n / 0x1000000,
            n / 0x10000,
            n / 0x100,
            n,
        ],
        page,
    );
}

// Writes a cell after its letter: its double, or the number in its place.
#[tactic(auto, unfolding(crate::specs::Map::cell))]
fn write_cell(letter: u8, cell: Cell, page: &mut Page)
    ensures { page.new ≡ page.old ▹ text.cell letter cell }
{
    match cell {
        Cell::Temperature(x) | Cell::Pressure(x) | Cell::Humidity(x) => {
            write_double(letter, x, page)
        }
        Cell::Missing(m) => bench_row::fill(&[letter, b'!', b'#'], &[m.number as u64], page),
    }
}

// Writes a verdict after its letter.
#[tactic(auto, using(bench_page::proofs::Laws::first), unfolding(crate::specs::Map::verdict))]
fn write_verdict(letter: u8, verdict: Verdict, page: &mut Page)
    ensures { page.new ≡ page.old ▹ text.verdict letter verdict }
{
    page.write_byte(letter);
    match verdict {
        Verdict::Agree => page.write_text(b"=agree"),
        Verdict::Differ => page.write_text(b"=differ"),
        Verdict::Unknown => page.write_text(b"=unknown"),
    }
}
