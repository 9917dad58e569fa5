// Dates: the year, month, day and time of day of a number of seconds since 1970 began, in UTC.
#![tactic(auto)]

ghost use Rattle.std.specs.Prelude.{◌≡◌, ℕ, ◌-◌, ◌≤◌};
ghost use Rattle.visit_date.specs.Dates as dates;

// A moment of a calendar: its month and day count from 1.
#[derive(Drop)]
pub struct Moment {
    pub year: u64,
    pub month: u64,
    pub day: u64,
    pub hour: u64,
    pub minute: u64,
    pub second: u64,
}

// How far a walk over years or months has come: the year or month, and the days that are left in it.
#[derive(Drop)]
struct Walked {
    number: u64,
    left: u64,
}

pub const SECONDS_A_DAY: u64 = 86400;

// The first year, and how many years later the last one comes that 32 bits of seconds reach.
pub const FIRST_YEAR: u64 = 1970;

pub const YEARS: u64 = 136;

// The date of a number of seconds since 1970 began.
// Fewer than 100 days are left of a month, and the remainder lets the sum be seen to fit.
#[tactic(auto, unfolding(crate::specs::Dates::date))]
pub fn date(seconds: u32) -> Moment
    ensures { result ≡ dates.date seconds }
{
    let seconds = u64::from(seconds);
    let time = seconds % SECONDS_A_DAY;
    let year = year_of(seconds / SECONDS_A_DAY);
    let month = month_of(year.number, year.left);
    Moment {
        year: year.number,
        month: month.number,
        day: month.left % 100 + 1,
        hour: time / 3600,
        minute: time / 60 % 60,
        second: time % 60,
    }
}

// Whether a year has a 29 February: every fourth, but of the hundreds only every fourth.
#[tactic(auto, unfolding(crate::specs::Dates::is_leap))]
fn is_leap(year: u64) -> bool
    ensures { result ≡ dates.is_leap year }
{
    year % 4 == 0 && (year % 100 != 0 || year % 400 == 0)
}

// The days of a year.
#[tactic(auto, unfolding(crate::specs::Dates::year_days))]
fn year_days(year: u64) -> u64
    ensures { result ≡ dates.year_days year }
{
    if is_leap(year) { 366 } else { 365 }
}

// The days of a month, from 1 on: 31 and 30 by turns, and by turns again from August on.
#[tactic(auto, unfolding(crate::specs::Dates::month_days))]
fn month_days(year: u64, month: u64) -> u64
    ensures { result ≡ dates.month_days year month }
{
    if month != 2 {
        return 30 + (month % 16 + month % 16 / 8) % 2;
    }
    if is_leap(year) { 29 } else { 28 }
}

// The year that so many days after 1970 began lie in, and the days that are left in it.
fn year_of(days: u64) -> Walked
    ensures { result ≡ dates.year_of days }
{
    walk(FIRST_YEAR, FIRST_YEAR + YEARS, days, year_days)
}

// The month of a year that so many days after its start lie in, and the days that are left in it.
fn month_of(year: u64, days: u64) -> Walked
    ensures { result ≡ dates.walk (dates.month_days year) 11 1 days }
{
    walk(1, 12, days, |month| month_days(year, month))
}

// Walks from a first number on, past each year or month that the days last for, and at most to the last number.
// The closure says how many days a number has.
fn walk<F: Fn(u64) -> u64>(first: u64, last: u64, days: u64, size_of: F) -> Walked
    requires callable { F.IsAlwaysCallable size_of }
    requires in_order { first ≤ last }
    ensures { (f : ℕ → ℕ) → dates.Counts (F.post size_of) f → result ≡ dates.walk f (last - first) first days }
{
    let mut left = days;
    for number in first..last {
        let size = size_of(number);
        if left < size {
            return Walked { number, left };
        }
        left -= size;
    }
    Walked { number: last, left }
}
