// A search in a section of records head, count, items, which starts at a mark.
#![tactic(auto)]

ghost use Rattle.std.specs.Prelude.{◌+◌, ◌≤◌, length};
ghost use Rattle.table.specs.Layout.{most_items};
ghost use Rattle.table.specs.Lookup.{items_of};
ghost use Rattle.table.specs.Part.{heads_in, ItemsFound};
ghost use Rattle.heads.specs.Heads.{Stands, FourStand, HeadsKnown};
ghost use Rattle.head_search.specs.Search.{StartsAt, SearchPassed};

use place_marks::{Four, Marks};
use table::Span;

// The place of a mark where the head there is not above c, else the place found before.
fn later(part: &[u32], found: usize, mark: u32, c: u32) -> usize
    requires { StartsAt part.now c found × Stands part.now mark }
    ensures { StartsAt part.now c result }
{
    let at = mark as usize;
    if at < part.len() {
        if part[at] <= c {
            return at;
        }
    }
    found
}

// The place of the last of four marks whose head is not above c, else the place found before.
fn latest(part: &[u32], found: usize, four: Four, c: u32) -> usize
    requires { StartsAt part.now c found × FourStand part.now four }
    ensures { StartsAt part.now c result }
{
    let p = later(part, found, four.p, c);
    let q = later(part, p, four.q, c);
    let r = later(part, q, four.r, c);
    later(part, r, four.s, c)
}

// Passes the records of n items from `from` on, up to one where a search for c ends, one of another count, or one at `stop` or behind it.
fn skip_run(part: &[u32], from: usize, n: usize, stop: usize, sorted: bool, c: u32) -> usize
    requires { stop + 1 + n ≤ length part.now }
    ensures { SearchPassed part.now sorted c from result }
{
    let step = n + 2;
    let mut at = from;
    // by hand: the walk goes on by the length of its records, and hands on its place
    while at < stop {
        if part[at + 1] as usize != n {
            return at;
        }
        let head = part[at];
        if (head == c) | (sorted & (c < head)) {
            return at;
        }
        at += step;
    }
    at
}

// Where the items of the first record head, count, items with head c stand in the part. Where the heads ascend, the search starts at a mark,
// and ends at a head above c.
pub fn items_by(part: &[u32], sorted: bool, marks: Marks, c: u32) -> Option<Span>
    requires { HeadsKnown part.now sorted marks }
    ensures { ItemsFound part.now most_items (items_of (heads_in part.now) c) result }
{
    let mut i: usize = 0;
    if sorted {
        let first = latest(part, 0, marks.a, c);
        i = latest(part, first, marks.b, c);
    }
    // by hand: a record's length is its own, and the place goes on by it
    while i < part.len() {
        let head = part[i];
        let n = part[i + 1] as usize;
        let from = i + 2;
        let to = from + n;
        if sorted & (c < head) {
            return None;
        }
        if head == c {
            return Some(Span { from, to });
        }
        i = skip_run(part, to, n, part.len() - 1 - n, sorted, c);
    }
    None
}
