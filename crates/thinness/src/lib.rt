//! A full list that is too thin (stop 35).
#![tactic(auto)]

ghost use Rattle.std.specs.Prelude.{◌≤◌};
ghost use Rattle.sizes.specs.Sizes.{lines_most};
ghost use Rattle.thinness.specs.Promises.{IsThin};

/// Are twice the taken lines of a full list fewer than the records held for its sender.
#[tactic(auto, using(slots::specs::laws::Slots::slots_used), unfolding(crate::specs::Thin::thin, sizes::specs::Modes::is_full))]
pub fn is_thin(mode: u64, register: &[u8], who: &[u8], taken: u64) -> bool
    requires { taken ≤ lines_most }
    ensures { IsThin mode register.now who.now taken result }
{
    mode == sizes::FULL && 2 * taken < slots::count_of(slots::used_part(register), who) as u64
}
