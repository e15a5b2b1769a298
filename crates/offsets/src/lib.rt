//! Local time and UTC.
#![tactic(auto)]

ghost use Rattle.std.specs.Prelude.{◌≡◌, true, ◌*◌, ◌≤◌};
ghost use Rattle.times.specs.Seconds.{time_of, is_real};
ghost use Rattle.offsets.specs.Offset.{offset_holds, local_time, utc_time, text_at};
ghost use Rattle.offsets.specs.Ahead.{ahead_most, offset_of};
ghost use Rattle.offsets.specs.laws.Moved.{moved_by, Written};
ghost use Rattle.offsets.specs.Promises.{IsOffset, Ahead, HasLocal, HasUtc, WriteLocal, WriteUtc};

/// An offset in range: by how many minutes it is ahead of the least one.
#[derive(Clone, Copy, Debug, PartialEq, Eq)]
pub struct Offset {
    pub ahead: u64,
    ghost few: { ahead ≤ ahead_most },
}

/// The least offset is so many seconds behind UTC.
const BEHIND: u64 = 43200;

/// Is local minus UTC, in minutes, within its bounds.
#[tactic(auto, unfolding(crate::specs::Offset::offset_holds))]
pub fn is_offset(offset: i64) -> bool
    ensures { IsOffset offset result }
{
    (-720..=840).contains(&offset)
}

/// An offset in range, as so many minutes ahead of the least one.
pub fn ahead(offset: i64) -> Offset
    requires { offset_holds offset ≡ true }
    ensures { Ahead offset result.ahead }
{
    let ahead = (offset + 720) as u64;
    Offset { ahead }
}

/// The time `plus` seconds after a time and `minus` seconds before that.
fn moved(t: &[u8], plus: u64, minus: u64) -> Option<u64>
    requires { plus ≤ ahead_most * 60 }
    ensures { result ≡ moved_by plus minus (time_of t.now) }
{
    let late = times::time_of(t)? + plus;
    let seconds = late.checked_sub(minus)?;
    if seconds < calendar::ALL {
        Some(seconds)
    } else {
        None
    }
}

/// The local time of a UTC time.
fn local_time(t: &[u8], offset: Offset) -> Option<u64>
    ensures { result ≡ local_time (offset_of offset.ahead) t.now }
{
    moved(t, offset.ahead * 60, BEHIND)
}

/// The UTC time of a local time.
fn utc_time(t: &[u8], offset: Offset) -> Option<u64>
    ensures { result ≡ utc_time (offset_of offset.ahead) t.now }
{
    moved(t, BEHIND, offset.ahead * 60)
}

/// Is a reception a real time, its offset in range, and its local time real.
pub fn has_local(t: &[u8], offset: i64) -> bool
    ensures { HasLocal offset t.now result }
{
    is_offset(offset) && local_time(t, ahead(offset)).is_some()
}

/// Is the UTC time of a local time real.
pub fn has_utc(t: &[u8], offset: Offset) -> bool
    ensures { HasUtc offset.ahead t.now result }
{
    utc_time(t, offset).is_some()
}

/// A real time written over a whole text.
fn write(to: &mut [u8; sizes::TIME], time: Option<u64>)
    requires { Written time }
    ensures { to.new ≡ text_at time }
{
    if let Some(seconds) = time {
        times::write_time(to, seconds);
    }
}

/// The local time of a UTC time, written over a whole text.
pub fn write_local(to: &mut [u8; sizes::TIME], t: &[u8], offset: Offset)
    requires { is_real (local_time (offset_of offset.ahead) t.now) ≡ true }
    ensures { WriteLocal to.old offset.ahead t.now to.new }
{
    write(to, local_time(t, offset));
}

/// The UTC time of a local time, written over a whole text.
pub fn write_utc(to: &mut [u8; sizes::TIME], t: &[u8], offset: Offset)
    requires { is_real (utc_time (offset_of offset.ahead) t.now) ≡ true }
    ensures { WriteUtc to.old offset.ahead t.now to.new }
{
    write(to, utc_time(t, offset));
}
