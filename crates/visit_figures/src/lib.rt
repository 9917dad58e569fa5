// Values as text: temperatures, pressures and humidities, each exactly, with its unit or without, and missing answers with their reasons.
#![tactic(auto)]

ghost use Rattle.std.specs.Prelude.{◌≡◌, ◌<◌};
ghost use Rattle.bench_page.specs.Page.{◌▹◌};
ghost use Rattle.visit_figures.specs.Figures as text;

use bench_page::Page;

// From here on a word stands for a number below zero.
pub const NEGATIVE: u32 = 0x80000000;

// Units of a value: a pressure counts 256ths of a pascal, and a humidity 1024ths of a percent.
pub const PASCAL: u32 = 256;

pub const PERCENT: u32 = 1024;

// The most decimals that a part of a unit has.
pub const DECIMALS: u32 = 10;

// Each channel is its figure and its unit: one function that took the figure's writer as a closure would be no shorter.
// Writes a temperature: hundredths of a degree, in two's complement.
#[tactic(auto, using(bench_page::proofs::Laws::joined), unfolding(crate::specs::Figures::temperature))]
pub fn write_temperature(word: u32, page: &mut Page)
    ensures { page.new ≡ page.old ▹ text.temperature word }
{
    write_degrees(word, page);
    page.write_text(b" \xC2\xB0C");
}

// Writes a pressure.
#[tactic(auto, using(bench_page::proofs::Laws::joined), unfolding(crate::specs::Figures::pressure))]
pub fn write_pressure(word: u32, page: &mut Page)
    ensures { page.new ≡ page.old ▹ text.pressure word }
{
    write_pascals(word, page);
    page.write_text(b" Pa");
}

// Writes a humidity.
#[tactic(auto, using(bench_page::proofs::Laws::joined), unfolding(crate::specs::Figures::humidity))]
pub fn write_humidity(word: u32, page: &mut Page)
    ensures { page.new ≡ page.old ▹ text.humidity word }
{
    write_percent(word, page);
    page.write_text(b" %RH");
}

// Writes hundredths of a degree with two decimals, and no unit.
#[tactic(auto, unfolding(crate::specs::Figures::hundredths))]
pub fn write_hundredths(n: u64, page: &mut Page)
    ensures { page.new ≡ page.old ▹ text.hundredths n }
{
    bench_row::fill(b"#.##", &[n / 100, n / 10 % 10, n % 10], page);
}

// Writes a pressure with no unit.
#[tactic(auto, unfolding(crate::specs::Figures::pascals))]
pub fn write_pascals(word: u32, page: &mut Page)
    ensures { page.new ≡ page.old ▹ text.pascals word }
{
    write_amount(word, PASCAL, page);
}

// Writes a humidity with no unit.
#[tactic(auto, unfolding(crate::specs::Figures::percent))]
pub fn write_percent(word: u32, page: &mut Page)
    ensures { page.new ≡ page.old ▹ text.percent word }
{
    write_amount(word, PERCENT, page);
}

// Writes a missing answer: its number, and its reason where it has one.
#[tactic(auto, using(bench_page::proofs::Laws::joined), unfolding(crate::specs::Figures::missing))]
pub fn write_missing(number: u32, page: &mut Page)
    ensures { page.new ≡ page.old ▹ text.missing number }
{
    bench_row::fill(b"missing #", &[u64::from(number)], page);
    write_reason(number, page);
}

// Writes why an answer is missing: a space and the reason in brackets, or nothing where the number has none.
#[tactic(auto, unfolding(crate::specs::Figures::reason))]
pub fn write_reason(number: u32, page: &mut Page)
    ensures { page.new ≡ page.old ▹ text.reason number }
{
    let reason: &[u8] = match number {
        10 => b" (channel skipped)",
        11 => b" (no temperature to compensate with)",
        12 => b" (a step left its type)",
        13 => b" (divisor zero)",
        14 => b" (pressure negative or above 4,294,967,295)",
        _ => b"",
    };
    page.write_text(reason);
}

// Writes a temperature with no unit.
#[tactic(auto, using(bench_page::proofs::Laws::first), unfolding(crate::specs::Figures::degrees))]
fn write_degrees(word: u32, page: &mut Page)
    ensures { page.new ≡ page.old ▹ text.degrees word }
{
    if word < NEGATIVE {
        write_hundredths(u64::from(word), page);
    } else {
        page.write_byte(b'-');
        write_hundredths(u64::from(0xFFFFFFFF - word + 1), page);
    }
}

// Writes an amount that counts parts of a unit: the whole units, and a point and the decimals of the rest where there is one.
#[tactic(auto, using(bench_page::proofs::Laws::joined, bench_page::proofs::Laws::first), unfolding(crate::specs::Figures::amount))]
fn write_amount(word: u32, unit: u32, page: &mut Page)
    requires { (0 < unit) × (unit < 65536) }
    ensures { page.new ≡ page.old ▹ text.amount word unit }
{
    page.write_decimal(u64::from(word / unit));
    if word % unit > 0 {
        page.write_byte(b'.');
        write_part(word % unit, unit, page);
    }
}

// Writes the decimals of a part of a unit, by long division to the last that is not 0.
fn write_part(part: u32, unit: u32, page: &mut Page)
    requires { (part < unit) × (unit < 65536) }
    ensures { page.new ≡ page.old ▹ text.decimals 10 part unit }
{
    let mut left = part;
    for _done in 0..DECIMALS {
        if left == 0 {
            break;
        }
        page.write_byte(digit(left * 10 / unit));
        left = left * 10 % unit;
    }
}

// A digit as a character.
fn digit(n: u32) -> u8
    ensures { result ≡ text.digit n }
{
    b'0' + (n % 10) as u8
}
