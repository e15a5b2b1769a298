//! What Rust calls to write a list: it hands on to the writer, and writes the length that it is lent, zero at a refusal.
#![tactic(auto)]

ghost use Rattle.writer.specs.Given.{given};
ghost use Rattle.service_writer.specs.Promises.{GraftspindleWrite};

/// An HGV of accounts of 100 bytes: 0 or the number of a refusal, and the length of what stands in front of `out`.
#[unsafe(no_mangle)]
pub extern "C" fn graftspindle_write(
    version: u64,
    sender: &[u8],
    date: &[u8],
    number: u64,
    previous: &[u8],
    creation: &[u8],
    rows: &[u8],
    accounts: &[u8],
    out: &mut [u8],
    length: &mut u64,
) -> u64
    ensures { GraftspindleWrite (given version sender.now date.now number previous.now creation.now rows.now accounts.now) out.old result length.new out.new }
{
    let written = writer::write_hgv(
        version, sender, date, number, previous, creation, rows, accounts, out,
    );
    let (stop, whole) = match written {
        Ok(whole) => (0, whole),
        Err(refusal) => (refusal.number(), 0),
    };
    *length = whole;
    stop
}
