//! Keys of lines looked for among the parts of a block, and of each part the first that has its key. The places of the parts
//! are sorted by their keys once, and the order is tested; what is found in it by halving is tested too. Only where a test fails
//! are all parts looked at.
#![tactic(auto)]

ghost use Rattle.std.specs.Prelude.{◌≡◌, true, IfSome, ◌-◌, ◌≤◌, ◌<◌, length, get_or};
ghost use Rattle.sizes.specs.Sizes.{parts_most};
ghost use Rattle.keys.specs.Keys.{parts_of, key_of, key_at};
ghost use Rattle.keys.specs.Less.{less};
ghost use Rattle.finding.specs.Places.{place_for, first_for};
ghost use Rattle.finding.specs.laws.Found.{Found};
ghost use Rattle.finding.specs.laws.Sorted.{Follows, Rises, Sorted, Led};
ghost use Rattle.finding.specs.Promises.{Places, PlacesBy, Firsts};

use keys::{KeyedParts, Marked};
use sizes::PARTS_MOST;

// For fewer lines the sort takes longer than it saves.
const FEW: usize = 32;

// Stands the place of a part at this rank.
fn has_part(parts: &KeyedParts, order: &[u16], rank: usize) -> bool
    ensures { result ≡ true → (rank < length order.now) × (get_or order.now rank 0 < parts.now.count) }
{
    rank < order.len() && usize::from(order[rank]) < parts.count
}

fn key_at<'a>(parts: &KeyedParts<'a>, order: &[u16], rank: usize) -> &'a [u8]
    requires { (rank < length order.now) × (get_or order.now rank 0 < parts.now.count) }
    ensures { result.now ≡ key_at parts.now.keys parts.now.block.now (get_or order.now rank 0) }
{
    parts.key(usize::from(order[rank]))
}

// Comes the part at this rank behind the one ahead of it: its key is higher, or the same, and its place is the later one.
fn is_next(parts: &KeyedParts, order: &[u16], rank: usize) -> bool
    requires { (rank < length order.now) × (get_or order.now rank 0 < parts.now.count) }
    ensures { result ≡ true → 0 < rank → Follows parts.now.keys parts.now.block.now (get_or order.now (rank - 1) 0) (get_or order.now rank 0) }
{
    if rank == 0 {
        return true;
    }
    let ahead = rank - 1;
    if !has_part(parts, order, ahead) {
        return false;
    }
    let there = key_at(parts, order, ahead);
    let here = key_at(parts, order, rank);
    keys::is_less(there, here) || texts::same(there, here) && order[ahead] < order[rank]
}

// Comes each part in the order behind the one ahead of it.
fn rises(parts: &KeyedParts, order: &[u16]) -> bool
    ensures { result ≡ true → Rises parts.now.keys parts.now.block.now order.now parts.now.count (length order.now) }
{
    for i in 0..order.len() {
        if !has_part(parts, order, i) || !is_next(parts, order, i) {
            return false;
        }
    }
    true
}

// Sorts the places of all parts by their keys, those of one key by their places. Are they sorted.
fn sort(parts: &KeyedParts, order: &mut [u16]) -> bool
    requires few { parts.now.count ≤ parts_most }
    requires room { length order.old ≡ parts.now.count }
    ensures { result ≡ true → Sorted parts.now.keys parts.now.block.now order.new parts.now.count }
{
    let marks = [0u8; PARTS_MOST];
    let marked = Marked {
        parts: *parts,
        marks: &marks[..parts.count],
    };
    let mut ranks = [0u16; PARTS_MOST];
    sorting::sort(&marked, true, order, &mut ranks);
    rises(parts, order) && ordering::covers(marked.marks, true, order, &ranks)
}

/// Parts, and their places sorted by their keys.
#[derive(Clone, Copy)]
struct Shelf<'a, 'o> {
    parts: KeyedParts<'a>,
    order: &'o [u16],
    ghost each: { length order.now ≡ parts.count },
    ghost ordered: { ∥ Sorted parts.keys parts.block.now order.now parts.count ∥₁ },
}

// The parts sorted, where so many keys are looked for that it pays. None where it does not, or where they are not sorted.
fn arrange<'a, 'o>(
    parts: &KeyedParts<'a>,
    sought: usize,
    order: &'o mut [u16],
) -> Option<Shelf<'a, 'o>>
    requires few { parts.now.count ≤ parts_most }
    requires room { length order.old ≡ parts.now.count }
    ensures { IfSome result (λ shelf. shelf.parts ≡ parts.now) }
{
    if FEW <= sought && sort(parts, order) {
        Some(Shelf {
            parts: *parts,
            order,
        })
    } else {
        None
    }
}

impl<'a> Shelf<'a, '_> {
    // The key at this rank.
    fn key_at(&self, rank: usize) -> &'a [u8]
        requires { rank < self.now.parts.count }
        ensures { result.now ≡ key_at self.now.parts.keys self.now.parts.block.now (get_or self.now.order.now rank 0) }
    {
        key_at(&self.parts, self.order, rank)
    }

    // Has the part at this rank the key t.
    fn is_here(&self, rank: usize, t: &[u8]) -> bool
        ensures { result ≡ true → (rank < self.now.parts.count) × (key_at self.now.parts.keys self.now.parts.block.now (get_or self.now.order.now rank 0) ≡ t.now) }
    {
        rank < self.order.len() && texts::same(self.key_at(rank), t)
    }

    // Is the key ahead of this rank less than t, or is there none.
    fn is_ahead(&self, rank: usize, t: &[u8]) -> bool
        requires { rank ≤ self.now.parts.count }
        ensures { result ≡ true → 0 < rank → less (key_at self.now.parts.keys self.now.parts.block.now (get_or self.now.order.now (rank - 1) 0)) t.now ≡ true }
    {
        rank == 0 || keys::is_less(self.key_at(rank - 1), t)
    }

    // Is t less than the key at this rank, or is there none.
    fn is_behind(&self, rank: usize, t: &[u8]) -> bool
        ensures { result ≡ true → rank < self.now.parts.count → less t.now (key_at self.now.parts.keys self.now.parts.block.now (get_or self.now.order.now rank 0)) ≡ true }
    {
        self.order.len() <= rank || keys::is_less(t, self.key_at(rank))
    }

    // The rank at which the key t stands or would stand. Nothing is promised of it but its size: who uses it tests it.
    fn seek(&self, t: &[u8]) -> usize
        ensures { result ≤ self.now.parts.count }
    {
        self.order.partition_point(|&place| {
            let place = usize::from(place);
            place < self.parts.count && keys::is_less(self.parts.key(place), t)
        })
    }

    // Of the part at this rank: the place of the first that has its key. Of the parts ahead of it `found` tells it already.
    fn first_at(&self, rank: usize, found: &[u16]) -> u16
        requires within { rank < self.now.parts.count }
        requires led { Led self.now.parts.keys self.now.parts.count self.now.parts.block.now self.now.order.now rank found.now }
        ensures { result ≡ first_for self.now.parts.keys self.now.parts.count self.now.parts.block.now (get_or self.now.order.now rank 0) }
    {
        if rank == 0 {
            return self.order[rank];
        }
        let ahead = rank - 1;
        let there = self.key_at(ahead);
        if texts::same(there, self.key_at(rank)) {
            return found[usize::from(self.order[ahead])];
        }
        self.order[rank]
    }

    // What `firsts` promises: from the lowest key to the highest.
    fn lead(&self, found: &mut [u16])
        requires { length found.old ≡ self.now.parts.count }
        ensures { Firsts self.now.parts.block.now self.now.parts.keys found.old found.new }
    {
        for rank in 0..self.parts.count {
            let first = self.first_at(rank, found);
            found[usize::from(self.order[rank])] = first;
        }
    }
}

/// Parts among which a key is looked for.
trait Search {
    ghost use Rattle.keys.specs.declared.keyed.KeyedParts.{KeyedParts};

    ghost parts: { Self → KeyedParts };

    /// The parts.
    fn parts(&self) -> &KeyedParts
        ensures { result.now ≡ parts self.now };

    /// The place of the first part that has the key t.
    // Stays: their number where there is none, as the table of places that is filled has it.
    fn find(&self, t: &[u8]) -> usize
        ensures { Found (parts self.now) t.now result };
}

/// All are looked at in turn.
impl Search for KeyedParts<'_> {
    ghost parts = { λ parts. parts };

    fn parts(&self) -> &KeyedParts {
        self
    }

    fn find(&self, t: &[u8]) -> usize {
        for i in 0..self.count {
            if texts::same(self.key(i), t) {
                return i;
            }
        }
        self.count
    }
}

/// By the sorted order: where all keys ahead of a rank are less, the key stands there first, or nowhere.
impl Search for Shelf<'_, '_> {
    ghost parts = { λ shelf. shelf.parts };

    fn parts(&self) -> &KeyedParts {
        &self.parts
    }

    fn find(&self, t: &[u8]) -> usize {
        let rank = self.seek(t);
        if !self.is_ahead(rank, t) {
            return self.parts.find(t);
        }
        if self.is_here(rank, t) {
            return usize::from(self.order[rank]);
        }
        if self.is_behind(rank, t) {
            return self.parts.count;
        }
        self.parts.find(t)
    }
}

// The place of the key of the line at place i, if it is marked 0.
fn place_for<S: Search>(among: &S, lines: &Marked, i: usize) -> usize
    requires { i < length lines.now.marks.now }
    ensures { (result ≡ place_for (key_of (S.parts among.now).keys) (parts_of (S.parts among.now).keys (S.parts among.now).count (S.parts among.now).block.now) (key_of lines.now.parts.keys) lines.now.parts.keys.width lines.now.parts.block.now lines.now.marks.now i) × (result ≤ (S.parts among.now).count) }
{
    if lines.marks[i] != 0 {
        return among.parts().count;
    }
    among.find(lines.parts.key(i))
}

// What `places` promises.
fn fill<S: Search>(among: &S, lines: &Marked, found: &mut [u16])
    requires few { (S.parts among.now).count ≤ parts_most }
    requires marked { length found.old ≤ length lines.now.marks.now }
    ensures { Places (S.parts among.now).block.now (S.parts among.now).keys (S.parts among.now).count lines.now.parts.block.now lines.now.parts.keys lines.now.marks.now found.old found.new }
{
    for i in 0..found.len() {
        let at = place_for(among, lines, i);
        found[i] = at as u16;
    }
}

/// Where the keys of lines stand among the parts of a block, for as many lines as `found` has room for: a line that is not
/// marked 0 is not looked for. The places of the parts are sorted in the index, which is lent in any state and means nothing
/// afterwards.
pub fn places_by(parts: &KeyedParts, lines: &Marked, index: &mut [u16], found: &mut [u16])
    requires marked { length found.old ≤ length lines.now.marks.now }
    requires few { parts.now.count ≤ parts_most }
    requires indexed { parts.now.count ≤ length index.old }
    ensures { PlacesBy parts.now.block.now parts.now.keys parts.now.count lines.now.parts.block.now lines.now.parts.keys lines.now.marks.now found.old found.new }
{
    match arrange(parts, found.len(), &mut index[..parts.count]) {
        Some(shelf) => fill(&shelf, lines, found),
        None => fill(parts, lines, found),
    }
}

/// The same with an index of its own.
pub fn places(parts: &KeyedParts, lines: &Marked, found: &mut [u16])
    requires marked { length found.old ≤ length lines.now.marks.now }
    requires few { 0 < length found.old → parts.now.count ≤ parts_most }
    ensures { Places parts.now.block.now parts.now.keys parts.now.count lines.now.parts.block.now lines.now.parts.keys lines.now.marks.now found.old found.new }
{
    if found.is_empty() {
        return;
    }
    let mut index = [0u16; PARTS_MOST];
    places_by(parts, lines, &mut index, found);
}

/// Of each part, the place of the first that has its key; as many parts as `found` has room for.
pub fn firsts(parts: &KeyedParts, found: &mut [u16])
    requires asked { length found.old ≤ parts.now.count }
    requires few { length found.old ≤ parts_most }
    ensures { Firsts parts.now.block.now parts.now.keys found.old found.new }
{
    let asked = KeyedParts {
        block: parts.block,
        keys: parts.keys,
        count: found.len(),
    };
    let mut index = [0u16; PARTS_MOST];
    if let Some(shelf) = arrange(&asked, asked.count, &mut index[..asked.count]) {
        shelf.lead(found);
        return;
    }
    let marks = [0u8; PARTS_MOST];
    let lines = Marked {
        parts: asked,
        marks: &marks[..asked.count],
    };
    fill(&asked, &lines, found);
}
