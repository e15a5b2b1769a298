//! What frames the HGV's lines: their first and last bytes (stop 32), and the footer behind them (stop 31), which the HGC has
//! too. Every public function that reads takes a file, or a part of one, of any length.
#![tactic(auto)]

ghost use Rattle.std.specs.Prelude.{◌≡◌, ◌+◌, ◌*◌, ◌-◌, ◌≤◌, length};
ghost use Rattle.std.specs.List.{list_all};
ghost use Rattle.theory.specs.Parts.{chop};
ghost use Rattle.theory.specs.Walk.{each};
ghost use Rattle.fields.specs.Field.{plain};
ghost use Rattle.hgv.specs.Layout.{footer};
ghost use Rattle.sizes.specs.Sizes.{footer_length};
ghost use Rattle.frames.specs.Frames.{footer_form, framed};
ghost use Rattle.frames.specs.Promises.{HasFooter, HasFrames, PutFoot};

use texts::{Columns, Parts};

// The columns of the footer.
const FOOTER_TYPE: Columns = Columns { from: 1, to: 1 };

const FOOTER_ZEROS: Columns = Columns { from: 2, to: 63 };

const FOOTER_END: Columns = Columns {
    from: sizes::FOOTER,
    to: sizes::FOOTER,
};

// Its zeros.
const ZEROS: usize = 62;

// The least byte of a line's text.
const PLAIN: u8 = 32;

#[tactic(auto, using(crate::proofs::Laws::footer_lent))]
fn footer(h: &[u8]) -> &[u8]
    ensures { result.now ≡ footer h.now }
{
    let start = h.len().saturating_sub(sizes::FOOTER);
    &h[start..]
}

#[tactic(auto, unfolding(crate::specs::Frames::footer_form))]
fn is_footer(f: &[u8]) -> bool
    ensures { result ≡ footer_form f.now }
{
    f.len() == sizes::FOOTER
        && FOOTER_TYPE.has(f, b"2")
        && fields::is_zeros(FOOTER_ZEROS.of(f), ZEROS)
        && FOOTER_END.has(f, b"\n")
}

/// Are the last 64 bytes `2`, 62 zeros and LF.
#[tactic(auto, unfolding(crate::specs::Frames::footer_holds))]
pub fn has_footer(h: &[u8]) -> bool
    ensures { HasFooter h.now result }
{
    is_footer(footer(h))
}

/// The footer written into a text from a position on, counted from 1.
pub fn put_foot(text: &mut [u8], from: usize)
    requires { (1 ≤ from) × (from - 1 + footer_length ≤ length text.old) }
    ensures { PutFoot text.old from text.new }
{
    let at = from - 1;
    writing::put_field(text, at + FOOTER_TYPE.from, b"2");
    numbers::put_zeros(text, at + FOOTER_ZEROS.from, ZEROS);
    writing::put_field(text, at + FOOTER_END.from, b"\n");
}

fn is_plain(f: &[u8]) -> bool
    ensures { result ≡ list_all plain f.now }
{
    f.iter().all(|&b| PLAIN <= b)
}

#[tactic(auto, unfolding(crate::specs::Frames::framed), using(theory::specs::laws::Words::all_is))]
fn is_framed(l: &[u8], width: usize) -> bool
    requires { 3 ≤ width }
    ensures { result ≡ framed width l.now }
{
    let last = width - 1;
    texts::has_text(l, 1, 1, b"1")
        && is_plain(texts::field(l, 2, last))
        && texts::has_text(l, width, width, b"\n")
}

fn each_framed(lines: &Parts) -> bool
    requires { 3 ≤ lines.now.width }
    ensures { result ≡ each (framed lines.now.width) (chop lines.now.width lines.now.count lines.now.block.now) }
{
    for i in 0..lines.count {
        if !is_framed(lines.part(i), lines.width) {
            return false;
        }
    }
    true
}

/// Has each line `1` in front, LF at its end, and no byte below 32 between.
#[tactic(auto, unfolding(crate::specs::Frames::frames_hold, hgv::specs::Layout::lines_of, hgv::specs::Layout::width_of))]
pub fn has_frames(h: &[u8]) -> bool
    ensures { HasFrames h.now result }
{
    each_framed(&hgv::lines(h))
}
