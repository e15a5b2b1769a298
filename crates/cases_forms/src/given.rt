//! The writer. What is given is one text: version, sender, date, number, previous list, creation; then the buffer's length, two rows
//! and two accounts by their letters, the accounts' length, and how many bytes of the previous list follow its first. It is tried with one place changed,
//! and so are the accounts, and the file that is written.
use rules::Refusal;
use vectors::SAMPLES;
use vectors::program::Answer;

/// The accounts, and the buffer.
const ACCOUNTS: usize = 200;

const ROOM: usize = 512;

/// A byte that stands in no file.
const UNWRITTEN: u8 = 238;

pub fn number_in(f: &[u8]) -> u64 {
    numbers::number(texts::field(f, 1, 6))
}

/// The previous list, which can be given shorter and longer than it should be.
fn previous(given: &[u8]) -> &[u8] {
    let more = (number_in(texts::field(given, 68, 69)) as usize).min(40);
    texts::field(given, 24, 24 + more)
}

/// How long the HGV is, or why none was written.
pub fn write(given: &[u8], rows: &[u8], accounts: &[u8], out: &mut [u8]) -> Result<u64, Refusal> {
    writer::write_hgv(
        number_in(texts::field(given, 1, 6)),
        texts::field(given, 7, 12),
        texts::field(given, 13, 20),
        number_in(texts::field(given, 21, 23)),
        previous(given),
        texts::field(given, 43, 56),
        rows,
        accounts,
        out,
    )
}

/// Is the buffer the file of two lines in front of what was there, with one place changed.
fn is_file(out: &[u8], f: &[u8], samples: &[u8; SAMPLES]) -> bool {
    let mut file = [UNWRITTEN; ROOM];
    vectors::lay(&mut file, 1, 128, samples, b"2XY");
    vectors::lay(&mut file, 385, 64, samples, b"T");
    vectors::change(&mut file, f);
    let n = out.len().min(ROOM);
    out == &file[..n]
}

fn is_kept(out: &[u8]) -> bool {
    out.iter().all(|&b| b == UNWRITTEN)
}

fn write_into(
    asked: &[u8],
    given: &[u8],
    rows: &[u8],
    accounts: &[u8],
    out: &mut [u8],
    f: &[u8],
    samples: &[u8; SAMPLES],
) -> Answer {
    let written = write(given, rows, accounts, out);
    match asked {
        b"written " => Answer::from(is_file(out, f, samples)),
        b"kept    " => Answer::from(is_kept(out)),
        b"answered" => Answer::from(written.unwrap_or(0)),
        _ => Answer::of_call(&written),
    }
}

pub fn of_writer(asked: &[u8], f: &[u8], samples: &[u8; SAMPLES]) -> Answer {
    let mut given = [0u8; 69];
    vectors::lay(&mut given, 1, 69, samples, b"G");
    if matches!(asked, b"write   " | b"kept    " | b"answered") {
        vectors::change(&mut given, f);
    }
    let mut rows = [0u8; 48];
    vectors::lay(&mut rows, 1, 24, samples, &given[60..62]);
    let mut accounts = [0u8; ACCOUNTS];
    vectors::lay(&mut accounts, 1, 100, samples, &given[62..64]);
    if asked == b"account ".as_slice() {
        vectors::change(&mut accounts, f);
    }
    let length = (number_in(texts::field(&given, 65, 67)) as usize).min(ACCOUNTS);
    let mut out = [UNWRITTEN; ROOM];
    let room = (number_in(texts::field(&given, 57, 60)) as usize).min(ROOM);
    write_into(
        asked,
        &given,
        &rows,
        &accounts[..length],
        &mut out[..room],
        f,
        samples,
    )
}
