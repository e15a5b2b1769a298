//! The form of the HGV's header (stop 26). Every public function takes a file of any length.
#![tactic(auto)]

pub mod columns;

ghost use Rattle.std.specs.Prelude.{◌≡◌, ◌≤◌};
ghost use Rattle.theory.specs.Every.{run};
ghost use Rattle.texts.specs.Field.{field};
ghost use Rattle.fields.specs.Field.{digit, zero_digit};
ghost use Rattle.times.specs.Time.{real_time};
ghost use Rattle.sequences.specs.Sequence.{sequence};
ghost use Rattle.header.specs.Header.{sender, list_sequence, creation, previous_holds};
ghost use Rattle.header.specs.Promises.{Sender, ListSequence, HasHeader};

use texts::Columns;

/// The list's sender: six digits, where the header is in form.
pub fn sender(h: &[u8]) -> &[u8]
    ensures { Sender h.now result.now }
{
    columns::SENDER.of(h)
}

/// The list's own sequence, 19 bytes.
pub fn list_sequence(h: &[u8]) -> &[u8]
    ensures { ListSequence h.now result.now }
{
    columns::SEQUENCE.of(h)
}

fn has_digits(s: &[u8], at: Columns, n: usize) -> bool
    ensures { result ≡ run digit n (field at.from at.to s.now) }
{
    fields::is_digits(at.of(s), n)
}

fn has_zeros(s: &[u8], at: Columns, n: usize) -> bool
    ensures { result ≡ run zero_digit n (field at.from at.to s.now) }
{
    fields::is_zeros(at.of(s), n)
}

fn has_sequence(h: &[u8]) -> bool
    ensures { result ≡ sequence (sender h.now) (list_sequence h.now) }
{
    sequences::is_sequence(list_sequence(h), sender(h))
}

#[tactic(auto, unfolding(crate::specs::Header::previous_holds))]
fn has_previous(h: &[u8]) -> bool
    ensures { result ≡ previous_holds h.now }
{
    let f = columns::PREVIOUS.of(h);
    let from = sender(h);
    sequences::is_sequence(f, from) || texts::same(f, b"HGV0000000000000000")
}

fn has_creation(h: &[u8]) -> bool
    ensures { result ≡ real_time (creation h.now) }
{
    times::is_real_time(columns::CREATION.of(h))
}

/// Is each field of the header in form: `0`, sender, receiver, both sequences, zeros, count, creation, zeros, LF. The
/// version is not asked here.
#[tactic(auto, unfolding(crate::specs::Header::header_holds))]
pub fn has_header(h: &[u8]) -> bool
    ensures { HasHeader h.now result }
{
    columns::HEADER_TYPE.has(h, b"0")
        && has_digits(h, columns::SENDER, 6)
        && has_digits(h, columns::RECEIVER, 6)
        && has_sequence(h)
        && has_previous(h)
        && has_zeros(h, columns::ZEROS, 14)
        && has_digits(h, columns::COUNT, 15)
        && has_creation(h)
        && has_zeros(h, columns::FILLER, 27)
        && columns::HEADER_END.has(h, b"\n")
}
