//! A whole HGV written from the accounts of a provider. Everything is checked before the first byte is written.
#![tactic(auto)]

ghost use Rattle.std.specs.Prelude.{◌≡◌, true, ◌||◌, map, ◌+◌, ◌*◌, ◌≤◌, length};
ghost use Rattle.std.specs.List.{list_all};
ghost use Rattle.theory.specs.Same.{eqs};
ghost use Rattle.theory.specs.Walk.{each};
ghost use Rattle.theory.specs.Join.{flat};
ghost use Rattle.sizes.specs.Sizes.{header_length, line_length, lines_most};
ghost use Rattle.writing.specs.Put.{put_field};
ghost use Rattle.sequences.specs.Sequence.{sequence};
ghost use Rattle.header.specs.Header.{no_list};
ghost use Rattle.accounts.specs.Account.{account_length, account_line};
ghost use Rattle.rules.specs.Numbers.{answer_number};
ghost use Rattle.writer.specs.Given.{given};
ghost use Rattle.writer.specs.Written.{told};
ghost use Rattle.writer.specs.Hgv.{accounts_in, accounts_of, list_of, list_texts, claim_texts, head_fields_hold, blocks_hold, faultless_line, pans_apart};
ghost use Rattle.writer.specs.laws.Stops.{accounts_number};
ghost use Rattle.writer.specs.Promises.{WriteHgv};

use header::columns;
use keys::KeyedParts;
use rules::{Refusal, require};
use texts::Parts;

// How long the header's zeros and numbers are.
const ZEROS: usize = columns::ZEROS.to - columns::ZEROS.from + 1;

const FILLER: usize = columns::FILLER.to - columns::FILLER.from + 1;

const COUNT: usize = columns::COUNT.to - columns::COUNT.from + 1;

const VERSION: usize = columns::VERSION.to - columns::VERSION.from + 1;

const NUMBER: usize = sequences::NUMBER.to - sequences::NUMBER.from + 1;

// Where the parts of the list sequence stand in the header.
const FILE: usize = columns::SEQUENCE.from - 1 + sequences::FILE.from;

const OWNER: usize = columns::SEQUENCE.from - 1 + sequences::OWNER.from;

const DATE: usize = columns::SEQUENCE.from - 1 + sequences::DATE.from;

const DAY_NUMBER: usize = columns::SEQUENCE.from - 1 + sequences::NUMBER.from;

// Is `previous` a list of the sender's, or none.
fn is_previous(sender: &[u8], previous: &[u8]) -> bool
    ensures { result ≡ sequence sender.now previous.now || eqs previous.now no_list }
{
    sequences::is_sequence(previous, sender) || texts::same(previous, b"HGV0000000000000000")
}

// Do the header's fields keep their form.
// Stays: the version is a number. Any is answered, by 61, and a narrower type would ask more of callers.
#[tactic(auto, unfolding(crate::specs::Hgv::head_fields_hold))]
fn has_names(
    version: u64,
    sender: &[u8],
    date: &[u8],
    number: u64,
    previous: &[u8],
    creation: &[u8],
) -> bool
    ensures { result ≡ head_fields_hold version sender.now date.now number previous.now creation.now }
{
    (version == 120001 || version == 220001)
        && fields::is_digits(sender, 6)
        && times::is_real_date(date)
        && 1 <= number
        && number <= 99
        && is_previous(sender, previous)
        && times::is_real_time(creation)
}

// Does the account's line break none of L1 to L10.
fn is_faultless(rows: &[u8], sender: &[u8; accounts::SENDER], a: &[u8; accounts::ACCOUNT]) -> bool
    ensures { result ≡ faultless_line rows.now sender.now a.now }
{
    let mut line = [0u8; sizes::LINE];
    accounts::put_line(&mut line, 1, sender, a);
    lines::line_fault(&line, sender, rows).is_ok()
}

// The same of each account.
fn each_faultless(
    rows: &[u8],
    sender: &[u8; accounts::SENDER],
    accounts: &[[u8; accounts::ACCOUNT]],
) -> bool
    ensures { result ≡ list_all (faultless_line rows.now sender.now) accounts.now }
{
    accounts.iter().all(|a| is_faultless(rows, sender, a))
}

// The accounts as parts.
fn parts_of<'a>(accounts: &'a [u8]) -> Parts<'a>
    ensures { (result.block.now ≡ accounts.now) × (result.width ≡ account_length) × (result.count ≡ accounts_in accounts.now) }
{
    Parts {
        block: accounts,
        width: accounts::ACCOUNT,
        count: accounts.len() / accounts::ACCOUNT,
    }
}

// The accounts, each with its length.
#[tactic(auto, unfolding(crate::specs::Hgv::accounts_of), using(theory::specs::laws::Words::chop_is))]
fn accounts_of<'a>(accounts: &'a [u8]) -> &'a [[u8; accounts::ACCOUNT]]
    ensures { (result.now ≡ accounts_of accounts.now) × (length result.now ≡ accounts_in accounts.now) }
{
    accounts.as_chunks::<{ accounts::ACCOUNT }>().0
}

// Does no account's line break one of L1 to L10.
#[tactic(auto, using(theory::specs::laws::Words::each_is))]
fn are_faultless(rows: &[u8], sender: &[u8; accounts::SENDER], accounts: &[u8]) -> bool
    ensures { result ≡ each (faultless_line rows.now sender.now) (accounts_of accounts.now) }
{
    each_faultless(rows, sender, accounts_of(accounts))
}

// Do issuer rows and accounts keep their form, and is the sender known.
#[tactic(auto, unfolding(crate::specs::Hgv::blocks_hold))]
fn has_blocks(sender: &[u8], rows: &[u8], accounts: &[u8]) -> bool
    ensures { result ≡ blocks_hold sender.now rows.now accounts.now }
{
    issuers::are_rows(rows)
        && issuers::is_known(rows, sender)
        && accounts.len() % accounts::ACCOUNT == 0
        && accounts_of(accounts).len() <= sizes::LINES_MOST
}

// The list sequence of the header.
#[tactic(auto, using(crate::proofs::Laws::list_written))]
fn put_list(out: &mut [u8], sender: &[u8; accounts::SENDER], date: &[u8], number: u64)
    requires { (header_length ≤ length out.old) × (length date.now ≡ 8) }
    ensures { out.new ≡ put_field 14 (list_of sender.now date.now number) out.old }
{
    writing::put_field(out, FILE, b"HGV");
    writing::put_field(out, OWNER, sender);
    writing::put_field(out, DATE, date);
    numbers::put_number(out, DAY_NUMBER, NUMBER, number);
}

// The header up to the previous list.
#[tactic(auto, using(crate::proofs::Laws::names_written))]
fn put_names(
    out: &mut [u8],
    sender: &[u8; accounts::SENDER],
    date: &[u8],
    number: u64,
    previous: &[u8],
)
    requires room { header_length ≤ length out.old }
    requires sized { (length date.now ≡ 8) × (length previous.now ≡ 19) }
    ensures { out.new ≡ put_field 1 (flat (list_texts sender.now date.now number previous.now)) out.old }
{
    writing::put_field(out, columns::HEADER_TYPE.from, b"0");
    writing::put_field(out, columns::SENDER.from, sender);
    writing::put_field(out, columns::RECEIVER.from, b"000002");
    put_list(out, sender, date, number);
    writing::put_field(out, columns::PREVIOUS.from, previous);
}

// The header from there on.
#[tactic(auto, using(crate::proofs::Laws::claims_written))]
fn put_claims(out: &mut [u8], count: u64, creation: &[u8], version: u64)
    requires { (header_length ≤ length out.old) × (length creation.now ≡ 14) }
    ensures { out.new ≡ put_field 52 (flat (claim_texts count creation.now version)) out.old }
{
    numbers::put_zeros(out, columns::ZEROS.from, ZEROS);
    numbers::put_number(out, columns::COUNT.from, COUNT, count);
    writing::put_field(out, columns::CREATION.from, creation);
    numbers::put_number(out, columns::VERSION.from, VERSION, version);
    numbers::put_zeros(out, columns::FILLER.from, FILLER);
    writing::put_field(out, columns::HEADER_END.from, b"\n");
}

// The lines of the accounts, behind the header.
fn put_lines(out: &mut [u8], sender: &[u8; accounts::SENDER], accounts: &[[u8; accounts::ACCOUNT]])
    requires { header_length + length accounts.now * line_length ≤ length out.old }
    ensures { out.new ≡ put_field (header_length + 1) (flat (map (account_line sender.now) accounts.now)) out.old }
{
    for (i, a) in accounts.iter().enumerate() {
        accounts::put_line(out, sizes::HEADER + i * sizes::LINE + 1, sender, a);
    }
}

// Have no two accounts one PAN: else it is 62.
#[tactic(auto, unfolding(crate::specs::Hgv::pans_apart, crate::specs::Hgv::accounts_of))]
fn are_pans_apart(accounts: &[u8]) -> bool
    requires { accounts_in accounts.now ≤ lines_most }
    ensures { result ≡ pans_apart accounts.now }
{
    let parts = parts_of(accounts);
    apart::all_apart(&KeyedParts::by(&parts, accounts::PAN))
}

// Of rows, accounts and the buffer's length: the first that is refused.
#[tactic(auto, unfolding(crate::specs::laws::Stops::accounts_number, crate::specs::laws::Stops::accounts_hold, theory::specs::First::choose))]
fn accounts_stop(
    sender: &[u8; accounts::SENDER],
    rows: &[u8],
    accounts: &[u8],
    room: usize,
) -> Result<(), Refusal>
    ensures { answer_number result ≡ accounts_number sender.now rows.now accounts.now room }
{
    require(has_blocks(sender, rows, accounts), Refusal::Given)?;
    require(are_faultless(rows, sender, accounts), Refusal::Given)?;
    require(are_pans_apart(accounts), Refusal::SamePan)?;
    let n = accounts_of(accounts).len();
    require(
        sizes::HEADER + n * sizes::LINE + sizes::FOOTER <= room,
        Refusal::HgvBuffer,
    )
}

/// The HGV of a list of this sender's, one line to an account: its length. It stands in front of `out`, whose other bytes stay.
// Stays: nine parameters and no struct of them. They are those of the C export, each step takes other ones of them, and the
// contract joins them by `given`; a struct that is lent its texts has no model, so its clauses would name each field again.
pub fn write_hgv(
    version: u64,
    sender: &[u8],
    date: &[u8],
    number: u64,
    previous: &[u8],
    creation: &[u8],
    rows: &[u8],
    accounts: &[u8],
    out: &mut [u8],
) -> Result<u64, Refusal>
    ensures { WriteHgv (given version sender.now date.now number previous.now creation.now rows.now accounts.now) out.old (told result) out.new }
{
    let Ok(sender) = <&[u8; accounts::SENDER]>::try_from(sender) else {
        return Err(Refusal::Given);
    };
    require(
        has_names(version, sender, date, number, previous, creation),
        Refusal::Given,
    )?;
    accounts_stop(sender, rows, accounts, out.len())?;
    let accounts = accounts_of(accounts);
    let n = accounts.len();
    put_names(out, sender, date, number, previous);
    put_claims(out, n as u64, creation, version);
    put_lines(out, sender, accounts);
    frames::put_foot(out, sizes::HEADER + n * sizes::LINE + 1);
    Ok((sizes::HEADER + n * sizes::LINE + sizes::FOOTER) as u64)
}
