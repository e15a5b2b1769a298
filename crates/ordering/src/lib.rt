//! Have no two parts of a block one key, and is each the first that has its own. The parts are sorted by their keys, and
//! the order is tested, since nothing is proved of the sort: where it rises and no part is missing, equal keys are
//! neighbours.
#![tactic(auto)]

ghost use Rattle.std.specs.Prelude.{◌≡◌, true, false, ◌&&◌, ◌≤◌, ◌<◌, eqb, ltb, length, get_or};
ghost use Rattle.sizes.specs.Sizes.{parts_most};
ghost use Rattle.theory.specs.Below.{below};
ghost use Rattle.theory.specs.Pick.{good};
ghost use Rattle.theory.specs.Same.{eqs};
ghost use Rattle.keys.specs.Keys.{key_at};
ghost use Rattle.sorting.specs.Counts.{counts};
ghost use Rattle.ordering.specs.Ranks.{ranked};
ghost use Rattle.ordering.specs.declared.Found.TheVariants as found;
ghost use Rattle.ordering.specs.laws.Again.{in_front, fresh};
ghost use Rattle.ordering.specs.laws.Order.{Step, Rising};
ghost use Rattle.ordering.specs.Promises.{AreApart, AreFirsts, Covers};

use keys::Marked;
use sizes::PARTS_MOST;

/// What is found of two parts, or of all neighbours in an order: they are in order, or a key stands there again, or neither
/// is known.
#[derive(Clone, Copy, Debug, PartialEq, Eq)]
enum Found {
    Rising,
    Again,
    Lost,
}

// Two parts with one key are in order where only the first is marked 0, and where both count the key stands there again.
#[tactic(auto, using(crate::proofs::Laws::good_eq, crate::proofs::Laws::good_ne))]
fn stay(marks: &[u8], all: bool, a: usize, c: usize) -> Found
    requires { (a < length marks.now) × (c < length marks.now) }
    ensures rising { result ≡ found.Rising → (a < c) × (good (get_or marks.now c 0) ≡ false) }
    ensures repeated { result ≡ found.Again → (a < c) × (good (get_or marks.now c 0) ≡ true) × (counts all (get_or marks.now a 0) ≡ true) }
{
    if c <= a {
        Found::Lost
    } else if marks[c] != 0 {
        Found::Rising
    } else if sorting::counts(marks[a], all) {
        Found::Again
    } else {
        Found::Lost
    }
}

// From the part a to its neighbour c.
fn step(marked: &Marked, all: bool, a: usize, c: usize) -> Found
    requires here { a < length marked.now.marks.now }
    requires there { c < length marked.now.marks.now }
    ensures rising { result ≡ found.Rising → Step marked.now.parts.keys marked.now.parts.block.now marked.now.marks.now a c }
    ensures repeated { result ≡ found.Again → fresh marked.now.parts.keys marked.now.parts.block.now all marked.now.marks.now c ≡ false }
{
    let here = marked.parts.key(a);
    let there = marked.parts.key(c);
    if keys::is_less(here, there) {
        return Found::Rising;
    }
    if !texts::same(here, there) {
        return Found::Lost;
    }
    stay(marked.marks, all, a, c)
}

// Does the order rise from each of its places to the next.
fn rise(marked: &Marked, all: bool, order: &[u16]) -> Found
    ensures rising { result ≡ found.Rising → Rising marked.now.parts.keys marked.now.parts.block.now marked.now.marks.now order.now (length order.now) }
    ensures repeated { result ≡ found.Again → below (fresh marked.now.parts.keys marked.now.parts.block.now all marked.now.marks.now) (length marked.now.marks.now) ≡ false }
{
    for i in 1..order.len() {
        let a = usize::from(order[i - 1]);
        let c = usize::from(order[i]);
        if marked.marks.len() <= a || marked.marks.len() <= c {
            return Found::Lost;
        }
        match step(marked, all, a, c) {
            Found::Rising => {}
            Found::Again => return Found::Again,
            Found::Lost => return Found::Lost,
        }
    }
    Found::Rising
}

// Stands a at this rank.
fn is_at(order: &[u16], rank: usize, a: usize) -> bool
    ensures { result ≡ ltb rank (length order.now) && eqb (get_or order.now rank 0) a }
{
    rank < order.len() && usize::from(order[rank]) == a
}

// Stands the part a at its rank, if it counts.
#[tactic(auto, unfolding(crate::specs::Ranks::ranked))]
fn stands(marks: &[u8], all: bool, order: &[u16], ranks: &[u16; PARTS_MOST], a: usize) -> bool
    requires { (a < length marks.now) × (length marks.now ≤ parts_most) }
    ensures { result ≡ ranked all marks.now order.now ranks.now (length order.now) a }
{
    !sorting::counts(marks[a], all) || is_at(order, usize::from(ranks[a]), a)
}

/// Stands each part that counts at its rank in the order.
pub fn covers(marks: &[u8], all: bool, order: &[u16], ranks: &[u16; PARTS_MOST]) -> bool
    requires { length marks.now ≤ parts_most }
    ensures { Covers marks.now all order.now ranks.now (length order.now) result }
{
    for a in 0..marks.len() {
        if !stands(marks, all, order, ranks, a) {
            return false;
        }
    }
    true
}

// Counts the part at place i, and has it the key t.
fn has_key(marked: &Marked, all: bool, i: usize, t: &[u8]) -> bool
    requires { i < length marked.now.marks.now }
    ensures { result ≡ counts all (get_or marked.now.marks.now i 0) && eqs t.now (key_at marked.now.parts.keys marked.now.parts.block.now i) }
{
    sorting::counts(marked.marks[i], all) && texts::same(t, marked.parts.key(i))
}

// Has one of the first n parts that count the key t.
fn is_in_front(marked: &Marked, all: bool, n: usize, t: &[u8]) -> bool
    requires { n ≤ length marked.now.marks.now }
    ensures { result ≡ in_front marked.now.parts.keys marked.now.parts.block.now all marked.now.marks.now n t.now }
{
    for i in 0..n {
        if has_key(marked, all, i, t) {
            return true;
        }
    }
    false
}

// Is the part at place i not marked 0, or is there none in front of it with its key.
#[tactic(auto, using(crate::proofs::Laws::good_eq, crate::proofs::Laws::good_ne), unfolding(crate::specs::laws::Again::fresh))]
fn is_fresh(marked: &Marked, all: bool, i: usize) -> bool
    requires { i < length marked.now.marks.now }
    ensures { result ≡ fresh marked.now.parts.keys marked.now.parts.block.now all marked.now.marks.now i }
{
    marked.marks[i] != 0 || !is_in_front(marked, all, i, marked.parts.key(i))
}

// Each part beside all in front of it: as many comparisons as the square of the parts.
fn search(marked: &Marked, all: bool) -> bool
    ensures { result ≡ below (fresh marked.now.parts.keys marked.now.parts.block.now all marked.now.marks.now) (length marked.now.marks.now) }
{
    for i in 0..marked.marks.len() {
        if !is_fresh(marked, all, i) {
            return false;
        }
    }
    true
}

// By the order, where it is one. Any other leads to the search.
fn test(marked: &Marked, all: bool, order: &[u16], ranks: &[u16; PARTS_MOST]) -> bool
    requires { length marked.now.marks.now ≤ parts_most }
    ensures { result ≡ below (fresh marked.now.parts.keys marked.now.parts.block.now all marked.now.marks.now) (length marked.now.marks.now) }
{
    match rise(marked, all, order) {
        Found::Again => false,
        Found::Rising if covers(marked.marks, all, order, ranks) => true,
        _ => search(marked, all),
    }
}

fn decide(marked: &Marked, all: bool) -> bool
    ensures { result ≡ below (fresh marked.now.parts.keys marked.now.parts.block.now all marked.now.marks.now) (length marked.now.marks.now) }
{
    if PARTS_MOST < marked.marks.len() {
        return search(marked, all);
    }
    let mut order = [0u16; PARTS_MOST];
    let mut ranks = [0u16; PARTS_MOST];
    let m = sorting::sort(marked, all, &mut order, &mut ranks);
    test(marked, all, &order[..m], &ranks)
}

/// Have no two of the parts marked 0 one key.
#[tactic(auto, using(crate::proofs::Laws::fresh_apart))]
pub fn are_apart(marked: &Marked) -> bool
    ensures { AreApart marked.now.parts.block.now marked.now.parts.keys marked.now.marks.now result }
{
    decide(marked, false)
}

/// Is each part marked 0 the first that has its key.
#[tactic(auto, using(crate::proofs::Laws::fresh_firsts))]
pub fn are_firsts(marked: &Marked) -> bool
    ensures { AreFirsts marked.now.parts.block.now marked.now.parts.keys marked.now.marks.now result }
{
    decide(marked, true)
}
