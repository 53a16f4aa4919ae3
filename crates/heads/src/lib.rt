// Sections of records head, count, items: one walk finds whether they are well formed and sorted, and sets marks.
#![tactic(auto)]

ghost use Rattle.std.specs.Prelude.{◌+◌, ◌≤◌, ◌≡◌, length};
ghost use Rattle.apart.specs.declared.Order.TheVariants.{Fault};
ghost use Rattle.table.specs.Layout.{most_items};
ghost use Rattle.heads.specs.Heads.{HeadsFound};
ghost use Rattle.heads.specs.Walk.{Lower, RunPassed};

use apart::Order;
use place_marks::{Marks, count_fits, no_marks, order_of, with_mark};

// What the walk over a section finds.
#[derive(Clone, Copy)]
pub struct HeadsOrder {
    pub order: Order,
    pub marks: Marks,
}

// How far a walk has come: its place, a number below which no later head may be, and whether the heads ascend so far.
#[derive(Clone, Copy)]
struct HeadsWalk {
    at: usize,
    floor: u64,
    rising: bool,
}

// What is found in a section that is not well formed.
fn faulty(marks: Marks) -> HeadsOrder
    ensures { result.order ≡ Fault }
{
    HeadsOrder {
        order: Order::Fault,
        marks,
    }
}

// The lower of two places.
fn lower(a: usize, b: usize) -> usize
    ensures { Lower a b result }
{
    if a < b {
        return a;
    }
    b
}

// Passes the records of n items up to the first of another count, or the first that stands at `stop` or behind it. Such records make runs in
// a table: the place of the next one is then known before the count of this one is read.
fn pass_run(part: &[u32], walk: HeadsWalk, n: usize, stop: usize) -> HeadsWalk
    requires { (1 ≤ n) × (stop + 1 + n ≤ length part.now) }
    ensures { RunPassed part.now n stop walk result }
{
    let step = n + 2;
    let mut at = walk.at;
    let mut floor = walk.floor;
    let mut rising = walk.rising;
    // by hand: the walk goes on by the length of its records, and hands on its place
    while at < stop {
        if part[at + 1] as usize != n {
            return HeadsWalk { at, floor, rising };
        }
        let head = part[at] as u64;
        rising = rising & (floor <= head);
        floor = head + 1;
        at += step;
    }
    HeadsWalk { at, floor, rising }
}

// Whether the words are records of at most so many items each, one behind the other, and whether their heads ascend. A mark is set at the
// first record behind each ninth of the words.
pub fn heads_order(part: &[u32], most: usize) -> HeadsOrder
    requires { most ≤ most_items }
    ensures { HeadsFound part.now most result }
{
    let gap = part.len() / 9 + 1;
    let mut walk = HeadsWalk {
        at: 0,
        floor: 0,
        rising: true,
    };
    let mut next = gap;
    let mut marks = no_marks();
    // by hand: a record's length is its own, and the place goes on by it
    while walk.at < part.len() {
        let at = walk.at;
        if next <= at {
            marks = with_mark(marks, at);
            next = at + gap;
        }
        let rest = part.len() - at;
        if rest < 2 {
            return faulty(marks);
        }
        let n = part[at + 1] as usize;
        if !count_fits(n, most, rest - 2) {
            return faulty(marks);
        }
        let stop = lower(next, part.len() - 1 - n);
        walk = pass_run(part, walk, n, stop);
    }
    HeadsOrder {
        order: order_of(walk.rising),
        marks,
    }
}
