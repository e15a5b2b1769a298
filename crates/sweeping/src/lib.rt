//! The sweep: the records that ended by a time go, the rest closes up in order.
#![tactic(auto)]

ghost use Rattle.std.specs.Prelude.{◌≡◌};
ghost use Rattle.theory.specs.First.{first};
ghost use Rattle.rules.specs.Numbers.{answer_number};
ghost use Rattle.sweeping.specs.Swept.{told};
ghost use Rattle.sweeping.specs.Sweep.{ended, sweep_stops};
ghost use Rattle.sweeping.specs.Promises.{Sweep};

use removing::Removal;
use rules::{Refusal, require};

#[tactic(auto, unfolding(crate::specs::Sweep::sweep_stops, theory::specs::First::first, theory::specs::First::choose))]
fn sweep_stop(register: &[u8], time: &[u8]) -> Result<(), Refusal>
    ensures { answer_number result ≡ first (sweep_stops time.now register.now) }
{
    require(times::is_real_time(time), Refusal::Time)?;
    require(register::in_order(register), Refusal::Order)
}

/// The records that ended by a time.
#[derive(Clone, Copy)]
struct EndedBy<'a> {
    time: &'a [u8],
}

impl<'a> Removal for EndedBy<'a> {
    ghost removes = { λ by. ended by.time.now };

    #[tactic(auto, using(crate::specs::laws::Sweep::stays_active, crate::specs::laws::Sweep::goes_inactive))]
    fn removes(&self, slot: &[u8]) -> bool {
        !activity::is_active(slot, self.time)
    }
}

/// The sweep of a register or a copy at a time: how many records went.
pub fn sweep(register: &mut [u8], time: &[u8]) -> Result<u64, Refusal>
    ensures { Sweep time.now register.old (told result) register.new }
{
    sweep_stop(register, time)?;
    let used = slots::used_slots(register);
    let left = removing::remove_where(register, &EndedBy { time });
    Ok((used - left) as u64)
}
