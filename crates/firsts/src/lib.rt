// The section of emoji sequences: one walk finds whether it is well formed and sorted by first items, and sets marks; a search starts at a
// mark.
#![tactic(auto)]

ghost use Rattle.std.specs.Prelude.{◌+◌, ◌≤◌, ◌≡◌, not, ◌&&◌, length, leb, eqb};
ghost use Rattle.apart.specs.declared.Order.TheVariants.{Fault};
ghost use Rattle.firsts.specs.Firsts.{
  optional,
  FirstsSteady,
  Numbered,
  FourNumbered,
  FirstsFound,
  FirstsKnown,
  Passing,
};

use apart::Order;
use place_marks::{Four, Marks, count_fits, no_marks, order_of, with_mark};

// "mapped and emoji 1 to 32"
const MOST_ITEMS: usize = 32;

// The largest place that a mark holds.
const MOST_PLACE: usize = 4294967295;

// A record of the section: its place, and its number, counted from 0.
#[derive(Clone, Copy)]
pub struct Start {
    pub place: usize,
    pub number: usize,
}

// What the walk over the section finds.
#[derive(Clone, Copy)]
pub struct FirstsOrder {
    pub order: Order,
    pub places: Marks,
    pub numbers: Marks,
}

fn first_record() -> Start
    ensures { result ≡ (record { place = 0; number = 0 }) }
{
    Start {
        place: 0,
        number: 0,
    }
}

// Whether a sequence may stand behind one whose first item is `floor`, for the section to be sorted.
fn follows(floor: u32, first: u32) -> bool
    ensures { result ≡ (leb floor first && not (eqb first optional)) }
{
    (floor <= first) & (first != 0xFE0F)
}

// What is found in a section that is not well formed.
fn faulty() -> FirstsOrder
    ensures { result.order ≡ Fault }
{
    FirstsOrder {
        order: Order::Fault,
        places: no_marks(),
        numbers: no_marks(),
    }
}

// Whether the words are records of 1 to 32 items each, one behind the other, whose first items do not fall, none of them FE0F. A mark is set
// at the last record before a first item that is more than twice as large, since the letters of most scripts lie in such a gap, and before
// the first that differs behind each seventh of the words.
pub fn firsts_order(part: &[u32]) -> FirstsOrder
    ensures { FirstsFound part.now result }
{
    let gap = part.len() / 7 + 1;
    let mut here = first_record();
    let mut last = here;
    let mut next = gap;
    let mut steady = true;
    let mut floor: u32 = 0;
    let mut places = no_marks();
    let mut numbers = no_marks();
    // by hand: a record's length is its own, and the place goes on by it
    while here.place < part.len() {
        let at = here.place;
        let n = part[at] as usize;
        if !count_fits(n, MOST_ITEMS, part.len() - at - 1) {
            return faulty();
        }
        let first = part[at + 1];
        if (floor < first) & ((next <= at) | (floor < first / 2)) & (at <= MOST_PLACE) {
            places = with_mark(places, last.place);
            numbers = with_mark(numbers, last.number);
            next = at + gap;
        }
        steady = steady & follows(floor, first);
        floor = first;
        last = here;
        here = Start {
            place: at + 1 + n,
            number: here.number + 1,
        };
    }
    FirstsOrder {
        order: order_of(steady),
        places,
        numbers,
    }
}

// The record at a mark where its first item is below e, else the one found before.
fn later(part: &[u32], found: Start, place: u32, number: u32, e: u32) -> Start
    requires { FirstsSteady part.now × Passing part.now e found × Numbered part.now place number }
    ensures { Passing part.now e result }
{
    let at = place as usize;
    if at < part.len() {
        if part[at + 1] < e {
            return Start {
                place: at,
                number: number as usize,
            };
        }
    }
    found
}

// The last record at one of four marks whose first item is below e, else the one found before.
fn latest(part: &[u32], found: Start, places: Four, numbers: Four, e: u32) -> Start
    requires { FirstsSteady part.now × Passing part.now e found × FourNumbered part.now places numbers }
    ensures { Passing part.now e result }
{
    let p = later(part, found, places.p, numbers.p, e);
    let q = later(part, p, places.q, numbers.q, e);
    let r = later(part, q, places.r, numbers.r, e);
    later(part, r, places.s, numbers.s, e)
}

// Passes the records of n items from `from` on whose first item is below e, up to the first of another count, or the first that stands at
// `stop` or behind it; that it goes so far is not promised. The place of the next one is then known before the count of this one is read.
fn pass_below(part: &[u32], from: Start, n: usize, stop: usize, e: u32) -> Start
    requires { FirstsSteady part.now × Passing part.now e from × (1 ≤ n) × (stop + n ≤ length part.now) }
    ensures { Passing part.now e result × (from.place ≤ result.place) }
{
    let step = n + 1;
    let mut at = from.place;
    let mut number = from.number;
    // by hand: the walk goes on by the length of its records, and hands on its place
    while at < stop {
        if part[at] as usize != n {
            return Start { place: at, number };
        }
        if part[at + 1] >= e {
            return Start { place: at, number };
        }
        at += step;
        number += 1;
    }
    Start { place: at, number }
}

// Where a search for sequences that match from e on starts. In a section that is sorted it is the first record whose first item is not below
// e: a walk from a mark finds it.
pub fn seek(part: &[u32], sorted: bool, places: Marks, numbers: Marks, e: u32) -> Start
    requires { FirstsKnown part.now sorted places numbers }
    ensures { Passing part.now e result }
{
    let start = first_record();
    if !sorted {
        return start;
    }
    let first = latest(part, start, places.a, numbers.a, e);
    let found = latest(part, first, places.b, numbers.b, e);
    let mut here = found;
    // by hand: a record's length is its own, and the place goes on by it
    while here.place < part.len() {
        let at = here.place;
        if part[at + 1] >= e {
            return here;
        }
        let n = part[at] as usize;
        let next = Start {
            place: at + 1 + n,
            number: here.number + 1,
        };
        here = pass_below(part, next, n, part.len() - n, e);
    }
    here
}
