//! Real times and dates, and which of two comes first. Every public function takes texts of any length.
#![tactic(auto)]

ghost use Rattle.std.specs.Prelude.{◌≡◌, ◌&&◌, ◌+◌, ◌<◌, ◌≤◌};
ghost use Rattle.theory.specs.Every.{run};
ghost use Rattle.texts.specs.Field.{field};
ghost use Rattle.fields.specs.Field.{digit};
ghost use Rattle.numbers.specs.Number.{number};
ghost use Rattle.sizes.specs.Sizes.{time_length};
ghost use Rattle.calendar.specs.Calendar.{all_seconds, real_moment};
ghost use Rattle.calendar.specs.laws.Order.{stamp};
ghost use Rattle.times.specs.laws.Back.{Fits};
ghost use Rattle.times.specs.laws.Moment.{moment_of};
ghost use Rattle.times.specs.Promises.{TimeOf, IsRealTime, IsRealDate, IsEarlier, WriteTime};

use calendar::Moment;

/// The number that positions `from` to `to` write.
fn number_at(t: &[u8], from: usize, to: usize) -> u64
    requires { (1 ≤ from) × ((from ≤ to) × (to ≤ from + 14)) }
    ensures { result ≡ number (field from to t.now) }
{
    numbers::number(texts::field(t, from, to))
}

/// The moment whose digits stand in a text, be it real or not.
fn moment_of(t: &[u8]) -> Moment
    ensures { result ≡ moment_of t.now }
{
    Moment {
        year: number_at(t, 1, 4),
        month: number_at(t, 5, 6),
        day: number_at(t, 7, 8),
        hour: number_at(t, 9, 10),
        minute: number_at(t, 11, 12),
        second: number_at(t, 13, 14),
    }
}

/// Is a text a real time, `x` being its moment.
fn is_real(t: &[u8], x: Moment) -> bool
    ensures { result ≡ run digit time_length t.now && real_moment x.year x.month x.day x.hour x.minute x.second }
{
    fields::is_digits(t, sizes::TIME) && calendar::is_moment(x)
}

/// The seconds of a real time since 00010101000000; any other text has none.
pub fn time_of(t: &[u8]) -> Option<u64>
    ensures { TimeOf t.now result }
{
    let x = moment_of(t);
    if !is_real(t, x) {
        return None;
    }
    Some(calendar::seconds(x))
}

/// Is a text of any length a real time, YYYYMMDDhhmmss.
#[tactic(auto, unfolding(crate::specs::Seconds::time_of, crate::specs::Seconds::time_where))]
pub fn is_real_time(t: &[u8]) -> bool
    ensures { IsRealTime t.now result }
{
    time_of(t).is_some()
}

/// Is it a real date, the first eight digits of a real time.
pub fn is_real_date(d: &[u8]) -> bool
    ensures { IsRealDate d.now result }
{
    let y = number_at(d, 1, 4);
    let m = number_at(d, 5, 6);
    let day = number_at(d, 7, 8);
    fields::is_digits(d, 8) && calendar::is_day(y, m, day)
}

/// Does `a` come before `b` by the bytes.
pub fn is_earlier(a: &[u8], b: &[u8]) -> bool
    ensures { IsEarlier a.now b.now result }
{
    a < b
}

/// The digits of a moment, YYYYMMDDhhmmss, as one number.
fn digits(x: Moment) -> u64
    requires { Fits x }
    ensures { result ≡ stamp x.year x.month x.day x.hour x.minute x.second }
{
    let date = (x.year * 100 + x.month) * 100 + x.day;
    ((date * 100 + x.hour) * 100 + x.minute) * 100 + x.second
}

/// The time so many seconds after 00010101000000, written over a whole text.
pub fn write_time(to: &mut [u8; sizes::TIME], seconds: u64)
    requires { seconds < all_seconds }
    ensures { WriteTime to.old seconds to.new }
{
    let x = calendar::moment_at(seconds);
    numbers::put_number(to, 1, sizes::TIME, digits(x));
}
