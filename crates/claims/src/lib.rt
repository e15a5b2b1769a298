//! What the HGV's header claims: its version, its receiver and its count (stops 27 to 30). Every public function takes a
//! file of any length.
#![tactic(auto)]

ghost use Rattle.claims.specs.Promises.{HasVersion, IsIncrementalOnly, HasReceiver, HasCount};

use header::columns;

/// Is the version 120001 or 220001.
#[tactic(auto, unfolding(crate::specs::Claims::version_holds))]
pub fn has_version(h: &[u8]) -> bool
    ensures { HasVersion h.now result }
{
    texts::listed(columns::VERSION.of(h), 6, b"120001220001")
}

/// Is the version one that only an incremental list may have, 220001.
#[tactic(auto, unfolding(crate::specs::Claims::incremental_only))]
pub fn is_incremental_only(h: &[u8]) -> bool
    ensures { IsIncrementalOnly h.now result }
{
    columns::VERSION.has(h, b"220001")
}

/// Is the receiver 000002.
#[tactic(auto, unfolding(crate::specs::Claims::receiver_holds))]
pub fn has_receiver(h: &[u8]) -> bool
    ensures { HasReceiver h.now result }
{
    columns::RECEIVER.has(h, b"000002")
}

/// Is the count the number of lines.
#[tactic(auto, unfolding(crate::specs::Claims::count_holds), using(texts::specs::laws::Field::field_most))]
pub fn has_count(h: &[u8]) -> bool
    ensures { HasCount h.now result }
{
    numbers::number(columns::COUNT.of(h)) == hgv::lines_in(h) as u64
}
