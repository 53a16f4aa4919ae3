// What is seen of one section of a table, by its place: whether it is well formed and sorted, and where a search in it may start.
#![tactic(auto)]

ghost use Rattle.std.specs.Prelude.{◌≤◌, ◌≡◌};
ghost use Rattle.lists.specs.Lists.{is_some};
ghost use Rattle.table.specs.Layout.{most_items, most_groups, ranges, class_ranges, excluded};
ghost use Rattle.table.specs.Spans.{within, Fits};
ghost use Rattle.table.specs.GroupPart.{groups_in};
ghost use Rattle.apart.specs.Apart.{Apart};
ghost use Rattle.sections.specs.Known.{behind_count, GroupsApart};
ghost use Rattle.whole_sizes.specs.Wholes.{wholes_fit};
ghost use Rattle.group_sizes.specs.Walk.{groups_within};
ghost use Rattle.group_sizes.specs.Sees.{Sees};
ghost use Rattle.seen_parts.specs.SeesParts.{SeesHeads, SeesFirsts};

use apart::{pairs_order, triples_order};
use firsts::firsts_order;
use group_sizes::{Seen, groups_fit, told};
use heads::heads_order;
use place_marks::Marks;
use rising_items::items_rise;
use table::Span;
use whole_sizes::{excluded_fit, wholes_fit};

// The same of a section of records with heads, and places in it.
#[derive(Clone, Copy)]
pub struct HeadsSeen {
    pub fits: bool,
    pub sorted: bool,
    pub marks: Marks,
}

// The same of the section of emoji sequences, and the numbers of the records at those places.
#[derive(Clone, Copy)]
pub struct FirstsSeen {
    pub fits: bool,
    pub sorted: bool,
    pub places: Marks,
    pub numbers: Marks,
}

// What is seen of one section.
pub fn pairs_in(words: &[u32], s: Span) -> Seen
    requires { Fits words.now s }
    ensures { Sees (is_some (ranges (within s words.now))) (Apart 2 1 (within s words.now)) result }
{
    told(pairs_order(s.of(words)))
}

pub fn classes_in(words: &[u32], s: Span) -> Seen
    requires { Fits words.now s }
    ensures { Sees (is_some (class_ranges (within s words.now))) (Apart 3 1 (within s words.now)) result }
{
    told(triples_order(s.of(words)))
}

pub fn heads_in(words: &[u32], s: Span, most: usize) -> HeadsSeen
    requires { Fits words.now s × (most ≤ most_items) }
    ensures { SeesHeads (within s words.now) most result }
{
    let found = heads_order(s.of(words), most);
    let heads = told(found.order);
    HeadsSeen {
        fits: heads.fits,
        sorted: heads.sorted,
        marks: found.marks,
    }
}

pub fn firsts_in(words: &[u32], s: Span) -> FirstsSeen
    requires { Fits words.now s }
    ensures { SeesFirsts (within s words.now) result }
{
    let found = firsts_order(s.of(words));
    let firsts = told(found.order);
    FirstsSeen {
        fits: firsts.fits,
        sorted: firsts.sorted,
        places: found.places,
        numbers: found.numbers,
    }
}

pub fn wholes_in(words: &[u32], s: Span) -> bool
    requires { Fits words.now s }
    ensures { result ≡ wholes_fit (within s words.now) }
{
    wholes_fit(s.of(words))
}

pub fn groups_in(words: &[u32], s: Span) -> Seen
    requires { Fits words.now s }
    ensures { Sees (groups_within most_groups (within s words.now)) (GroupsApart (groups_in (within s words.now))) result }
{
    groups_fit(s.of(words))
}

pub fn excluded_in(words: &[u32], s: Span) -> Seen
    requires { Fits words.now s }
    ensures { Sees (is_some (excluded (within s words.now))) (Apart 1 0 (within (behind_count s) words.now)) result }
{
    if excluded_fit(s.of(words)) {
        return Seen {
            fits: true,
            sorted: items_rise(&words[s.from + 1..s.to]),
        };
    }
    Seen {
        fits: false,
        sorted: false,
    }
}
