//! The wild characters of a vector: where a run of them stands, how many values it takes, and each value written over it.
#![tactic(auto)]

ghost use Rattle.std.specs.Prelude.{◌≡◌, ◌+◌, ◌≤◌, length};
ghost use Rattle.theory.specs.Every.{leading};
ghost use Rattle.ranges.specs.Ranges.{wild, base, lowest};
ghost use Rattle.ranges.specs.Promises.{Plain, Width, Values, PutValue};

/// The most places that a run has.
const PLACES: usize = 4;

fn is_wild(b: u8) -> bool
    ensures { result ≡ wild b }
{
    matches!(b, b'#' | b'@' | b'?')
}

/// How many bytes stand in front of the first wild character.
pub fn plain(s: &[u8]) -> usize
    ensures { Plain s.now result }
{
    for (i, &b) in s.iter().enumerate() {
        if is_wild(b) {
            return i;
        }
    }
    s.len()
}

/// How many wild characters stand in front.
fn wilds(s: &[u8]) -> usize
    ensures { (result ≡ leading wild s.now) × (result ≤ length s.now) }
{
    for (i, &b) in s.iter().enumerate() {
        if !is_wild(b) {
            return i;
        }
    }
    s.len()
}

/// How many places the run has that a text begins with, 4 at most.
pub fn width(s: &[u8]) -> usize
    ensures { Width s.now result }
{
    wilds(s).min(PLACES)
}

/// How many values a place takes.
#[tactic(auto, unfolding(crate::specs::Ranges::base))]
fn base(kind: u8) -> usize
    ensures { (result ≡ base kind) × ((1 ≤ result) × (result ≤ 256)) }
{
    match kind {
        b'#' => 10,
        b'@' => 26,
        _ => 256,
    }
}

/// The first of them.
#[tactic(auto, unfolding(crate::specs::Ranges::lowest, crate::specs::Ranges::base))]
fn lowest(kind: u8) -> u8
    ensures { (result ≡ lowest kind) × (result + base kind ≤ 256) }
{
    match kind {
        b'#' => b'0',
        b'@' => b'A',
        _ => 0,
    }
}

/// How many values a run takes.
pub fn values(kind: u8, width: usize) -> usize
    requires { width ≤ 4 }
    ensures { Values kind width result }
{
    base(kind).pow(width as u32)
}

/// A value over the run, counted from 0.
pub fn put_value(run: &mut [u8], kind: u8, v: usize)
    ensures { PutValue run.old kind v run.new }
{
    let each = base(kind);
    let first = lowest(kind);
    let mut left = v;
    for i in (0..run.len()).rev() {
        run[i] = first + (left % each) as u8;
        left /= each;
    }
}
