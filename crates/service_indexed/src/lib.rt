//! What Rust calls, on numbers and slices: the import by an index that the caller lends. It hands on to the crate that does the
//! work, and writes every number that it is lent, zero at a stop.
#![tactic(auto)]

ghost use Rattle.imports.specs.Handed.{handed};
ghost use Rattle.service_indexed.specs.Promises.{GraftspindleImportIndexed};

/// The import of an HGV: 0 or the number of a stop; how many lines were taken and rejected, and the HGC's length.
#[unsafe(no_mangle)]
pub extern "C" fn graftspindle_import_indexed(
    mode: u64,
    reception: &[u8],
    offset: i64,
    register: &mut [u8],
    rows: &[u8],
    hgv: &[u8],
    hgc: &mut [u8],
    index: &mut [u16],
    taken: &mut u64,
    rejected: &mut u64,
    length: &mut u64,
) -> u64
    ensures { GraftspindleImportIndexed index.old (handed mode reception.now offset rows.now hgv.now hgc.old) register.old result taken.new rejected.new length.new register.new hgc.new }
{
    let answer = indexed::import_indexed(mode, reception, offset, register, rows, hgv, hgc, index);
    let (number, done) = imports::told(answer);
    *taken = done.taken;
    *rejected = done.rejected;
    *length = done.length;
    number
}
