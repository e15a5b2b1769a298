//! The import of an HGV by an index that the caller lends: the same answer, register and HGC as the import, where the index
//! has a number for each slot. How the lines are judged differs.
#![tactic(auto)]

// Stays beside `importer`, and no trait over both: they differ in what they are lent, in a stop, and in which places they tell of,
// and what they share stands in `imports`.

ghost use Rattle.std.specs.Prelude.{◌≡◌, ◌≤◌, length};
ghost use Rattle.rules.specs.Numbers.{answer_number};
ghost use Rattle.offsets.specs.Offset.{reception_holds};
ghost use Rattle.hgv.specs.Layout.{lines_in};
ghost use Rattle.slots.specs.Slots.{slots_in};
ghost use Rattle.stops.specs.Promises.{IndexedFormStop};
ghost use Rattle.imports.specs.Handed.{handed};
ghost use Rattle.imports.specs.Imported.{told};
ghost use Rattle.imports.specs.Call.{handed_in};
ghost use Rattle.offsets.specs.Ahead.{offset_of};
ghost use Rattle.stops.specs.Clear.{Clear};
ghost use Rattle.imports.specs.Promises.{ImportJudged};
ghost use Rattle.indexed.specs.Promises.{ImportIndexed};

use holdings::Placed;
use imports::{Call, Confirmed};
use rules::Refusal;

// The stops of form, with an index of so many numbers: 22 is asked of the reception and the offset.
fn check_form(
    mode: u64,
    reception: &[u8],
    offset: i64,
    register: &[u8],
    rows: &[u8],
    index: usize,
    hgv: &[u8],
) -> Result<(), Refusal>
    ensures { IndexedFormStop mode (reception_holds offset reception.now) register.now rows.now index hgv.now (answer_number result) }
{
    let timed = offsets::has_local(reception, offset);
    stops::indexed_form_stop(mode, timed, register, rows, index, hgv)
}

// The import of a file whose form is right; `verdicts` and `found` have a number for each of its lines.
fn import_lines(
    call: &Call<'_>,
    register: &mut [u8],
    hgc: &mut [u8],
    index: &mut [u16],
    verdicts: &mut [u8],
    found: &mut [u16],
) -> Result<Confirmed, Refusal>
    requires clear { Clear call.now.mode (reception_holds (offset_of call.now.offset.ahead) call.now.reception.now) register.old call.now.rows.now call.now.hgv.now }
    requires long { slots_in register.old ≤ length index.old }
    requires each { length verdicts.old ≡ lines_in call.now.hgv.now }
    requires many { length found.old ≡ lines_in call.now.hgv.now }
    ensures { ImportJudged (handed_in call.now hgc.old) register.old (told result) register.new hgc.new }
{
    judging::judge(call.hgv, call.rows, register, index, verdicts, found);
    imports::import_judged(call, register, hgc, &Placed { verdicts, found })
}

/// The import, by an index that should have a number for each slot. Whatever it holds is written over, and means nothing
/// afterwards.
pub fn import_indexed(
    mode: u64,
    reception: &[u8],
    offset: i64,
    register: &mut [u8],
    rows: &[u8],
    hgv: &[u8],
    hgc: &mut [u8],
    index: &mut [u16],
) -> Result<Confirmed, Refusal>
    ensures { ImportIndexed (length index.old) (handed mode reception.now offset rows.now hgv.now hgc.old) register.old (told result) register.new hgc.new }
{
    check_form(mode, reception, offset, register, rows, index.len(), hgv)?;
    let call = Call {
        mode,
        reception,
        offset: offsets::ahead(offset),
        rows,
        hgv,
    };
    let mut verdicts = [0u8; sizes::LINES_MOST];
    let mut found = [0u16; sizes::LINES_MOST];
    let n = hgv::lines_in(hgv);
    import_lines(
        &call,
        register,
        hgc,
        index,
        &mut verdicts[..n],
        &mut found[..n],
    )
}
