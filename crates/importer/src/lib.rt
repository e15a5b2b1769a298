//! The import of an HGV, the plain engine: form, verdicts, and what follows from them.
#![tactic(auto)]

ghost use Rattle.std.specs.Prelude.{◌≡◌, length};
ghost use Rattle.rules.specs.Numbers.{answer_number};
ghost use Rattle.offsets.specs.Offset.{reception_holds};
ghost use Rattle.hgv.specs.Layout.{lines_in};
ghost use Rattle.stops.specs.Promises.{FormStop};
ghost use Rattle.imports.specs.Handed.{handed};
ghost use Rattle.imports.specs.Imported.{told};
ghost use Rattle.imports.specs.Call.{handed_in};
ghost use Rattle.offsets.specs.Ahead.{offset_of};
ghost use Rattle.stops.specs.Clear.{Clear};
ghost use Rattle.importer.specs.Promises.{Import};

use holdings::Placed;
use imports::{Call, Confirmed};
use rules::Refusal;

// The stops of form: 22 is asked of the reception and the offset.
fn check_form(
    mode: u64,
    reception: &[u8],
    offset: i64,
    register: &[u8],
    rows: &[u8],
    hgv: &[u8],
) -> Result<(), Refusal>
    ensures { FormStop mode (reception_holds offset reception.now) register.now rows.now hgv.now (answer_number result) }
{
    let timed = offsets::has_local(reception, offset);
    stops::form_stop(mode, timed, register, rows, hgv)
}

// The import of a file whose form is right; `verdicts` has a byte for each line, and `found` a number.
// Stays: tables that are lent to be filled, a number for each line; what is read of them afterwards is a `Placed`.
fn import_lines(
    call: &Call<'_>,
    register: &mut [u8],
    hgc: &mut [u8],
    verdicts: &mut [u8],
    found: &mut [u16],
) -> Result<Confirmed, Refusal>
    requires clear { Clear call.now.mode (reception_holds (offset_of call.now.offset.ahead) call.now.reception.now) register.old call.now.rows.now call.now.hgv.now }
    requires each { length verdicts.old ≡ lines_in call.now.hgv.now }
    requires many { length found.old ≡ lines_in call.now.hgv.now }
    ensures { Import (handed_in call.now hgc.old) register.old (told result) register.new hgc.new }
{
    verdicts::judge(call.hgv, call.rows, register, verdicts);
    holdings::find_places(call.mode, register, &hgv::lines(call.hgv), verdicts, found);
    imports::import_judged(call, register, hgc, &Placed { verdicts, found })
}

/// The import of an HGV that its sender sent in: what was received when (in UTC), and how many minutes his local time is then
/// ahead of UTC. At a refusal no byte that is lent differs afterwards.
// Stays: what is handed over, one by one, as Rust calls it; behind the stops of form it is a `Call`.
#[tactic(auto, using(imports::specs::laws::Form::lines_in_most))]
pub fn import(
    mode: u64,
    reception: &[u8],
    offset: i64,
    register: &mut [u8],
    rows: &[u8],
    hgv: &[u8],
    hgc: &mut [u8],
) -> Result<Confirmed, Refusal>
    ensures { Import (handed mode reception.now offset rows.now hgv.now hgc.old) register.old (told result) register.new hgc.new }
{
    check_form(mode, reception, offset, register, rows, hgv)?;
    let call = Call {
        mode,
        reception,
        offset: offsets::ahead(offset),
        rows,
        hgv,
    };
    let mut verdicts = [0u8; sizes::LINES_MOST];
    let mut found = [0u16; sizes::LINES_MOST];
    let n = hgv::lines_in(hgv);
    import_lines(&call, register, hgc, &mut verdicts[..n], &mut found[..n])
}
