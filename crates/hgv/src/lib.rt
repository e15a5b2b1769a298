//! The HGV file's layout (stop 25). Every public function takes a file of any length.
#![tactic(auto)]

ghost use Rattle.std.specs.Prelude.{◌≡◌};
ghost use Rattle.hgv.specs.Layout.{body_length};
ghost use Rattle.hgv.specs.Promises.{Width, LinesIn, HasLength, Body, Lines};

use texts::Parts;

// Header and footer.
const BARE: usize = sizes::HEADER + sizes::FOOTER;

// 0 where the file is shorter than header and footer.
fn body_length(h: &[u8]) -> usize
    ensures { result ≡ body_length h.now }
{
    h.len().saturating_sub(BARE)
}

/// The width of its lines, in bytes.
#[tactic(auto, unfolding(crate::specs::Layout::width_of))]
pub fn width(h: &[u8]) -> usize
    ensures { Width h.now result }
{
    sizes::LINE
}

/// How many whole lines lie between header and footer: 0 where the file is shorter than both.
#[tactic(auto, unfolding(crate::specs::Layout::lines_in, crate::specs::Layout::width_of))]
pub fn lines_in(h: &[u8]) -> usize
    ensures { LinesIn h.now result }
{
    body_length(h) / width(h)
}

/// Is the length that of a header, 0 to 8,192 whole lines and a footer.
#[tactic(auto, unfolding(crate::specs::Layout::length_holds, crate::specs::Layout::width_of))]
pub fn has_length(h: &[u8]) -> bool
    ensures { HasLength h.now result }
{
    BARE <= h.len() && body_length(h) % width(h) == 0 && lines_in(h) <= sizes::LINES_MOST
}

/// What lies between header and footer: nothing where the file is shorter than both.
pub fn body(h: &[u8]) -> &[u8]
    ensures { Body h.now result.now }
{
    if h.len() < BARE {
        return &h[0..0];
    }
    let end = h.len() - sizes::FOOTER;
    &h[sizes::HEADER..end]
}

/// The lines, in file order: none where the file is shorter than header and footer.
#[tactic(auto, using(crate::specs::laws::Layout::lines_room))]
pub fn lines<'a>(h: &'a [u8]) -> Parts<'a>
    ensures { Lines h.now result }
{
    Parts {
        block: body(h),
        width: width(h),
        count: lines_in(h),
    }
}
