// What the walks over sections of records share: places from which a search may start, by value; the test of a count; how a section stands.
#![tactic(auto)]

ghost use Rattle.std.specs.Prelude.{◌≡◌, false, ◌&&◌, leb};
ghost use Rattle.apart.specs.Order.{is_fault, is_sorted};
ghost use Rattle.place_marks.specs.Places.{no_marks, with_mark};

use apart::Order;

// The largest place that a mark holds.
const MOST_PLACE: usize = 4294967295;

// Places in a section, the lowest first.
#[derive(Clone, Copy)]
pub struct Four {
    pub p: u32,
    pub q: u32,
    pub r: u32,
    pub s: u32,
}

// Eight of them, those of `a` first; 0 where fewer are set. (Not combining marks.)
#[derive(Clone, Copy)]
pub struct Marks {
    pub a: Four,
    pub b: Four,
}

// Marks that are not set: the start of the section.
pub fn no_marks() -> Marks
    ensures { result ≡ no_marks }
{
    Marks {
        a: Four {
            p: 0,
            q: 0,
            r: 0,
            s: 0,
        },
        b: Four {
            p: 0,
            q: 0,
            r: 0,
            s: 0,
        },
    }
}

// Adds a mark behind the others and drops the first of them. A place that is too large is not set.
pub fn with_mark(marks: Marks, at: usize) -> Marks
    ensures { result ≡ with_mark marks at }
{
    if at > MOST_PLACE {
        return marks;
    }
    let a = marks.a;
    let b = marks.b;
    Marks {
        a: Four {
            p: a.q,
            q: a.r,
            r: a.s,
            s: b.p,
        },
        b: Four {
            p: b.q,
            q: b.r,
            r: b.s,
            s: at as u32,
        },
    }
}

// Whether a record may have n items, with so much room for them. One branch is then enough.
pub fn count_fits(n: usize, most: usize, room: usize) -> bool
    ensures { result ≡ (leb 1 n && leb n most && leb n room) }
{
    (1 <= n) & (n <= most) & (n <= room)
}

// How a well-formed section stands.
pub fn order_of(rising: bool) -> Order
    ensures { (is_fault result ≡ false) × (is_sorted result ≡ rising) }
{
    if rising {
        return Order::Sorted;
    }
    Order::AsGiven
}
