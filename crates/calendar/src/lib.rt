//! The Gregorian calendar in numbers: which moments are real, their seconds since 00010101000000, and the way back.
#![tactic(auto)]

ghost use Rattle.std.specs.Prelude.{◌≡◌, ◌<◌, ◌≤◌};
ghost use Rattle.calendar.specs.Calendar.{leap, days_in, real_clock, months_to, year_days, years_to, over, all_seconds};
ghost use Rattle.calendar.specs.Bounds.{Bounds};
ghost use Rattle.calendar.specs.Promises.{IsDay, IsMoment, Seconds, MomentAt};

/// The seconds of a day.
const DAY: u64 = 86400;

/// The seconds of the years 0001 to 9999.
pub const ALL: u64 = 315537897600;

/// A moment by its numbers, from the year to the second.
#[derive(Clone, Copy, Debug, PartialEq, Eq)]
pub struct Moment {
    pub year: u64,
    pub month: u64,
    pub day: u64,
    pub hour: u64,
    pub minute: u64,
    pub second: u64,
}

fn is_leap(y: u64) -> bool
    ensures { result ≡ leap y }
{
    y % 4 == 0 && y % 100 != 0 || y % 400 == 0
}

#[tactic(auto, unfolding(crate::specs::Calendar::days_in))]
fn days_in(y: u64, m: u64) -> u64
    ensures { result ≡ days_in y m }
{
    match m {
        2 if is_leap(y) => 29,
        2 => 28,
        4 | 6 | 9 | 11 => 30,
        1..=12 => 31,
        _ => 0,
    }
}

/// Is it a day of the years 0001 to 9999.
pub fn is_day(y: u64, m: u64, d: u64) -> bool
    ensures { IsDay y m d result }
{
    1 <= y && y <= 9999 && 1 <= d && d <= days_in(y, m)
}

fn is_clock(h: u64, i: u64, s: u64) -> bool
    ensures { result ≡ real_clock h i s }
{
    h <= 23 && i <= 59 && s <= 59
}

/// Is it a moment of those years, with hours to 23, minutes and seconds to 59.
pub fn is_moment(x: Moment) -> bool
    ensures { IsMoment x.year x.month x.day x.hour x.minute x.second result }
{
    is_day(x.year, x.month, x.day) && is_clock(x.hour, x.minute, x.second)
}

/// The days of the first n years: 365 in each, and one for each leap year among them.
fn years_to(n: u64) -> u64
    requires { n ≤ 9999 }
    ensures { result ≡ years_to n }
{
    n * 365 + n / 4 + n / 400 - n / 100
}

/// The days of the first m months: 367 twelfths of a day in each, as if February had 30.
fn months_to(y: u64, m: u64) -> u64
    requires { m ≤ 12 }
    ensures { result ≡ months_to y m }
{
    let even = (m * 367 + 5) / 12;
    if m < 2 {
        return even;
    }
    if is_leap(y) {
        return even - 1;
    }
    even - 2
}

/// The seconds from 00010101000000 to a real moment.
pub fn seconds(x: Moment) -> u64
    requires { Bounds x.year x.month x.day x.hour x.minute x.second }
    ensures { Seconds x result }
{
    let years = years_to(x.year - 1);
    let months = months_to(x.year, x.month - 1);
    let days = years + (months + (x.day - 1));
    ((days * 24 + x.hour) * 60 + x.minute) * 60 + x.second
}

/// How many years are over after so many days. None has more than 366 days, so these are over at least.
// Stays a `while`: it counts no list, but goes up to the year that the days reach. `(days / 366..).find(..)` would ask
// `years_to` of years that it has no answer for.
fn years_over(days: u64) -> u64
    requires { days < years_to 9999 }
    ensures { result ≡ over year_days 9999 days }
{
    let mut y = days / 366;
    while years_to(y + 1) <= days {
        y += 1;
    }
    y
}

/// How many months of a year are over after so many of its days. None has more than 31.
// Stays a `while`, as above.
fn months_over(y: u64, days: u64) -> u64
    requires { days < year_days y }
    ensures { result ≡ over (days_in y) 12 days }
{
    let mut m = days / 31;
    while months_to(y, m + 1) <= days {
        m += 1;
    }
    m
}

/// The moment so many seconds after 00010101000000.
pub fn moment_at(n: u64) -> Moment
    requires { n < all_seconds }
    ensures { MomentAt n result }
{
    let days = n / DAY;
    let clock = n % DAY;
    let y = years_over(days);
    let rest = days - years_to(y);
    let m = months_over(y + 1, rest);
    let d = rest - months_to(y + 1, m);
    Moment {
        year: y + 1,
        month: m + 1,
        day: d + 1,
        hour: clock / 3600,
        minute: clock / 60 % 60,
        second: clock % 60,
    }
}
