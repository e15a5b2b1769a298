//! What an import is, and its part behind the verdicts, which both engines share: the stops 35, 33 and 34, the register and the
//! HGC. Everything is checked before the first byte is written.
#![tactic(auto)]

ghost use Rattle.std.specs.Prelude.{Ok, ◌≡◌, true, ◌≤◌, length};
ghost use Rattle.theory.specs.First.{first};
ghost use Rattle.theory.specs.Pick.{good, bad};
ghost use Rattle.theory.specs.Tally.{tally};
ghost use Rattle.rules.specs.Numbers.{answer_number};
ghost use Rattle.offsets.specs.Offset.{local, reception_holds};
ghost use Rattle.offsets.specs.Ahead.{offset_of};
ghost use Rattle.hgv.specs.Layout.{width_of, lines_in, length_holds, body};
ghost use Rattle.hgc.specs.Confirmation.{confirmation_length};
ghost use Rattle.hgc.specs.Promises.{Write};
ghost use Rattle.slots.specs.Slots.{records};
ghost use Rattle.applying.specs.Fit.{Sought};
ghost use Rattle.imports.specs.Imported.{told};
ghost use Rattle.imports.specs.Call.{handed_in};
ghost use Rattle.imports.specs.Import.{judged, judged_stops, success, register_written, hgc_written};
ghost use Rattle.stops.specs.Clear.{Clear};
ghost use Rattle.imports.specs.laws.Accepted.{Accepted};
ghost use Rattle.imports.specs.Promises.{Told, ImportJudged};

use holdings::Placed;
use offsets::Offset;
use rules::{Refusal, require};
use taken::Counts;

/// What an accepted import tells: how many lines were taken, how many rejected, and how many bytes of the buffer the HGC takes.
#[derive(Clone, Copy, Debug, Default, PartialEq, Eq)]
pub struct Confirmed {
    pub taken: u64,
    pub rejected: u64,
    pub length: u64,
}

/// What is handed over beside the register and the HGC's buffer, and only read: the mode; the reception in UTC; the sender's
/// offset; the issuer rows; the HGV.
#[derive(Clone, Copy, Debug)]
pub struct Call<'a> {
    pub mode: u64,
    pub reception: &'a [u8],
    pub offset: Offset,
    pub rows: &'a [u8],
    pub hgv: &'a [u8],
}

/// What an export writes of an import's answer: 0 and what it tells, or the refusal's number and zeros.
pub fn told(answer: Result<Confirmed, Refusal>) -> (u64, Confirmed)
    ensures { Told answer result.0 result.1 }
{
    match answer {
        Ok(done) => (0, done),
        Err(refusal) => (refusal.number(), Confirmed::default()),
    }
}

// Stops 35, 33 and 34; the places that were found tell in mode 1 where the taken lines' PANs stand.
// Stays: what the form has made clear is a fact of the call beside a register, which the next step writes.
fn judged_stop(
    call: &Call<'_>,
    register: &[u8],
    hgc: &[u8],
    placed: &Placed<'_>,
    counts: Counts,
) -> Result<(), Refusal>
    requires clear { Clear call.now.mode (reception_holds (offset_of call.now.offset.ahead) call.now.reception.now) register.now call.now.rows.now call.now.hgv.now }
    requires verdict { placed.now.verdicts.now ≡ judged register.now call.now.rows.now call.now.hgv.now }
    requires good { counts.taken ≡ tally good placed.now.verdicts.now }
    requires bad { counts.rejected ≡ tally bad placed.now.verdicts.now }
    requires sought { Sought call.now.mode (records register.now) (width_of call.now.hgv.now) (body call.now.hgv.now) placed.now.verdicts.now placed.now.found.now }
    ensures { answer_number result ≡ first (judged_stops (handed_in call.now hgc.now) register.now) }
{
    let sender = header::sender(call.hgv);
    let thin = thinness::is_thin(call.mode, register, sender, counts.taken);
    require(!thin, Refusal::ThinList)?;
    let used = holdings::used_after(call.mode, register, sender, placed);
    require(used <= register.len() / sizes::SLOT, Refusal::Slots)?;
    let length = hgc::length_for(hgv::width(call.hgv), counts.rejected as usize);
    require(length <= hgc.len(), Refusal::HgcBuffer)
}

// The confirmation written, with the reception in local time.
fn confirm(hgc: &mut [u8], call: &Call<'_>, verdicts: &[u8], counts: Counts)
    requires timed { reception_holds (offset_of call.now.offset.ahead) call.now.reception.now ≡ true }
    requires sized { length_holds call.now.hgv.now ≡ true }
    requires judged { length verdicts.now ≡ lines_in call.now.hgv.now }
    requires counted { counts.taken ≡ tally good verdicts.now }
    requires answered { counts.rejected ≡ tally bad verdicts.now }
    requires room { confirmation_length (width_of call.now.hgv.now) counts.rejected ≤ length hgc.old }
    ensures { Write hgc.old (local (offset_of call.now.offset.ahead) call.now.reception.now) call.now.hgv.now verdicts.now counts.taken counts.rejected hgc.new }
{
    let mut shown = [0u8; sizes::TIME];
    offsets::write_local(&mut shown, call.reception, call.offset);
    hgc::write(hgc, &shown, call.hgv, verdicts, counts);
}

// The taken lines applied and the confirmation written: nothing can stop it any more.
fn carry_out(
    call: &Call<'_>,
    register: &mut [u8],
    hgc: &mut [u8],
    placed: &Placed<'_>,
    counts: Counts,
) -> Confirmed
    requires { Accepted (handed_in call.now hgc.old) register.old placed.now.verdicts.now counts.taken counts.rejected placed.now.found.now }
    ensures answered { told (Ok result) ≡ success (handed_in call.now hgc.old) register.old }
    ensures stored { register.new ≡ register_written (handed_in call.now hgc.old) register.old }
    ensures confirmed { hgc.new ≡ hgc_written (handed_in call.now hgc.old) register.old }
{
    applying::apply(
        call.mode,
        register,
        header::sender(call.hgv),
        header::list_sequence(call.hgv),
        call.reception,
        &hgv::lines(call.hgv),
        placed,
    );
    confirm(hgc, call, placed.verdicts, counts);
    let length = hgc::length_for(hgv::width(call.hgv), counts.rejected as usize) as u64;
    Confirmed {
        taken: counts.taken,
        rejected: counts.rejected,
        length,
    }
}

/// The import of a file whose lines are judged; the place that was found for each tells in mode 1 where the PAN of a taken line
/// stands.
pub fn import_judged(
    call: &Call<'_>,
    register: &mut [u8],
    hgc: &mut [u8],
    placed: &Placed<'_>,
) -> Result<Confirmed, Refusal>
    requires clear { Clear call.now.mode (reception_holds (offset_of call.now.offset.ahead) call.now.reception.now) register.old call.now.rows.now call.now.hgv.now }
    requires verdict { placed.now.verdicts.now ≡ judged register.old call.now.rows.now call.now.hgv.now }
    requires sought { Sought call.now.mode (records register.old) (width_of call.now.hgv.now) (body call.now.hgv.now) placed.now.verdicts.now placed.now.found.now }
    ensures { ImportJudged (handed_in call.now hgc.old) register.old (told result) register.new hgc.new }
{
    let taken = taken::count_taken(placed.verdicts);
    let rejected = placed.verdicts.len() as u64 - taken;
    let counts = Counts { taken, rejected };
    judged_stop(call, register, hgc, placed, counts)?;
    Ok(carry_out(call, register, hgc, placed, counts))
}
