//! What Rust calls, on numbers and byte slices: the import. It hands on to the crate that does the work, and writes every
//! number that it is lent, zero at a stop. And the revision of all that Rust calls.
#![tactic(auto)]

ghost use Rattle.imports.specs.Handed.{handed};
ghost use Rattle.service.specs.Promises.{GraftspindleImport, GraftspindleRevision};

/// The import of an HGV: 0 or the number of a stop; how many lines were taken and rejected, and the HGC's length.
#[unsafe(no_mangle)]
pub extern "C" fn graftspindle_import(
    mode: u64,
    reception: &[u8],
    offset: i64,
    register: &mut [u8],
    rows: &[u8],
    hgv: &[u8],
    hgc: &mut [u8],
    taken: &mut u64,
    rejected: &mut u64,
    length: &mut u64,
) -> u64
    ensures { GraftspindleImport (handed mode reception.now offset rows.now hgv.now hgc.old) register.old result taken.new rejected.new length.new register.new hgc.new }
{
    let answer = importer::import(mode, reception, offset, register, rows, hgv, hgc);
    let (number, done) = imports::told(answer);
    *taken = done.taken;
    *rejected = done.rejected;
    *length = done.length;
    number
}

/// A name that is called with other arguments than before still links: so a number tells which arguments are meant. 2: the import
/// and the update take an offset. 1 was without, and had no function that tells it.
#[unsafe(no_mangle)]
pub extern "C" fn graftspindle_revision() -> u64
    ensures { GraftspindleRevision result }
{
    2
}
