//! Whether a record is active at a time: what a lookup asks of a record, and a sweep.
#![tactic(auto)]

ghost use Rattle.activity.specs.Promises.{IsActive};

/// Is the record's end zeros, or later than the time t.
#[tactic(auto, unfolding(lines::specs::End::active))]
pub fn is_active(r: &[u8], t: &[u8]) -> bool
    ensures { IsActive t.now r.now result }
{
    let end = columns::VALID_TO.of(r);
    fields::is_zeros(end, sizes::TIME) || times::is_earlier(t, end)
}
