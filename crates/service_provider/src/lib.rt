//! What Rust calls on the provider's side, on numbers and byte slices: each function hands on to the crate that does the
//! work, and writes every number that it is lent, zero at a stop.
#![tactic(auto)]

ghost use Rattle.std.specs.Prelude.{◌≡◌};
ghost use Rattle.provider.specs.Counted.{told};
ghost use Rattle.updating.specs.Sent.{sent};
ghost use Rattle.service_provider.specs.Promises.{counted_as, GraftspindleReadBack, GraftspindleUpdate};

use provider::Counts;
use rules::Refusal;

// The number of an answer, whose counts are written: zero at a stop.
fn tell(answer: Result<Counts, Refusal>, taken: &mut u64, rejected: &mut u64) -> u64
    ensures { counted_as result taken.new rejected.new ≡ told answer }
{
    match answer {
        Ok(counts) => {
            *taken = counts.taken;
            *rejected = counts.rejected;
            0
        }
        Err(refusal) => {
            *taken = 0;
            *rejected = 0;
            refusal.number()
        }
    }
}

/// An HGC read back beside its HGV: 0 or the number of a stop; how many lines were taken and rejected.
#[unsafe(no_mangle)]
pub extern "C" fn graftspindle_read_back(
    hgv: &[u8],
    hgc: &[u8],
    verdicts: &mut [u8],
    taken: &mut u64,
    rejected: &mut u64,
) -> u64
    ensures { GraftspindleReadBack hgv.now hgc.now verdicts.old result taken.new rejected.new verdicts.new }
{
    let read = reading::read_back(hgv, hgc, verdicts);
    tell(read, taken, rejected)
}

/// The update of a provider's copy, the same way.
#[unsafe(no_mangle)]
pub extern "C" fn graftspindle_update(
    mode: u64,
    offset: i64,
    copy: &mut [u8],
    hgv: &[u8],
    hgc: &[u8],
    taken: &mut u64,
    rejected: &mut u64,
) -> u64
    ensures { GraftspindleUpdate (sent mode offset hgv.now hgc.now) copy.old result taken.new rejected.new copy.new }
{
    let updated = updating::update(mode, offset, copy, hgv, hgc);
    tell(updated, taken, rejected)
}
