// The walk over the words of the groups, one behind the other: whether each is well formed, and whether its pairs are sorted.
#![tactic(auto)]

use apart::{Order, pairs_order};
use table::lookup::list_size;

// "at most 256 groups"
const MOST_GROUPS: usize = 256;

// flags 1, 2 and 4
const MOST_FLAGS: u32 = 7;

ghost use Rattle.std.specs.Prelude.{◌≤◌, ◌≡◌, not, length};
ghost use Rattle.table.specs.Layout.{most_groups, flags_fit};
ghost use Rattle.table.specs.GroupPart.{groups_in};
ghost use Rattle.apart.specs.Order.{is_fault, is_sorted};
ghost use Rattle.sections.specs.Known.{GroupsApart};
ghost use Rattle.group_sizes.specs.Walk.{EndOf, GroupTold, groups_within};
ghost use Rattle.group_sizes.specs.Sees.{Sees};

// What is seen of a section: whether it is well formed, and whether it is sorted.
#[derive(Clone, Copy)]
pub struct Seen {
    pub fits: bool,
    pub sorted: bool,
}

// The number of words of a group, and whether its pairs are sorted.
#[derive(Clone, Copy)]
struct GroupSeen {
    size: usize,
    sorted: bool,
}

// What a walk over a section answers, as two tests.
pub fn told(order: Order) -> Seen
    ensures { (result.fits ≡ not (is_fault order)) × (result.sorted ≡ is_sorted order) }
{
    match order {
        Order::Fault => Seen {
            fits: false,
            sorted: false,
        },
        Order::AsGiven => Seen {
            fits: true,
            sorted: false,
        },
        Order::Sorted => Seen {
            fits: true,
            sorted: true,
        },
    }
}

// Whether a group may have these flags: 1, 2 and, only beside 2, 4.
fn flags_fit(flags: u32) -> bool
    ensures { result ≡ flags_fit flags }
{
    (flags <= MOST_FLAGS) & ((flags / 2 % 2 == 1) | !(flags / 4 % 2 == 1))
}

// The place behind a group whose pairs end at `at`, if the list that is due is there.
fn group_end(rest: &[u32], at: usize, listed: bool) -> Option<usize>
    requires { at ≤ length rest.now }
    ensures { EndOf rest.now at listed result }
{
    if !listed {
        return Some(at);
    }
    let size = list_size(&rest[at..])?;
    Some(at + size)
}

// The group that `rest` begins with.
fn group_size(rest: &[u32]) -> Option<GroupSeen>
    ensures { GroupTold rest.now result }
{
    if rest.len() < 2 {
        return None;
    }
    let flags = rest[0];
    if !flags_fit(flags) {
        return None;
    }
    let n = rest[1] as usize;
    if n > rest.len() - 2 {
        return None;
    }
    let to = n + 2;
    let pairs = told(pairs_order(&rest[2..to]));
    if !pairs.fits {
        return None;
    }
    let size = group_end(rest, to, flags / 4 % 2 == 1)?;
    Some(GroupSeen {
        size,
        sorted: pairs.sorted,
    })
}

// Whether the words are groups, one behind the other, and not too many; and whether the pairs of each are sorted.
pub fn groups_fit(part: &[u32]) -> Seen
    ensures { Sees (groups_within most_groups part.now) (GroupsApart (groups_in part.now)) result }
{
    let mut at: usize = 0;
    let mut left: usize = MOST_GROUPS;
    let mut sorted = true;
    // by hand: a record's length is its own, and the place goes on by it
    while at < part.len() {
        if left == 0 {
            return Seen {
                fits: false,
                sorted: false,
            };
        }
        let Some(group) = group_size(&part[at..]) else {
            return Seen {
                fits: false,
                sorted: false,
            };
        };
        left -= 1;
        sorted = sorted & group.sorted;
        at += group.size;
    }
    Seen { fits: true, sorted }
}
