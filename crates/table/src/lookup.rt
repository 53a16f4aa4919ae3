// Lookups over the words of one section.
use crate::{GroupRecord, Span, WholeLists};

// "a count of 0 to 64, then records (count 2 to 8, items)"
const MOST_SEQUENCES: u32 = 64;

const LEAST_RUN: u32 = 2;

const MOST_RUN: u32 = 8;

ghost use Rattle.std.specs.Prelude.{◌≡◌, ◌+◌, ◌*◌, ◌≤◌, length, get_or, true, ◌&&◌, leb};
ghost use Rattle.lists.specs.Lists.{mem, is_some};
ghost use Rattle.table.specs.Layout.{most_items, headed, wholes};
ghost use Rattle.table.specs.Lookup.{items_of, whole_of};
ghost use Rattle.table.specs.Spans.{Fits, within};
ghost use Rattle.table.specs.GroupPart.{list_length, list_at, group_at};
ghost use Rattle.table.specs.Part.{in_pairs, class_among, in_four, Passed, EntryFound, counted_at, heads_in, wholes_in, WholesPart, ItemsFound, WholeFound};

// Whether c lies from first to last. Both tests are made, since where pairs stand in random order a branch at the first would be a guess.
pub fn between(c: u32, first: u32, last: u32) -> bool
    ensures { result ≡ (leb first c && leb c last) }
{
    (first <= c) & (c <= last)
}

// Whether c lies in one of four pairs first, last, of which the first stands at i and each other one `step` words behind the one before it. One
// branch is then enough for four.
fn in_four(part: &[u32], i: usize, step: usize, c: u32) -> bool
    requires { (2 ≤ step) × (step ≤ 3) × (i + 4 * step ≤ length part.now) }
    ensures { result ≡ in_four c part.now i step }
{
    let j = i + step;
    let k = j + step;
    let l = k + step;
    let first = between(c, part[i], part[i + 1]);
    let second = between(c, part[j], part[j + 1]);
    let third = between(c, part[k], part[k + 1]);
    let fourth = between(c, part[l], part[l + 1]);
    (first | second) | (third | fourth)
}

// A place up to which c lies in none of the entries of STEP words: that of four entries with c, or one with fewer than four left.
fn skip<const STEP: usize>(part: &[u32], c: u32) -> usize
    requires { (2 ≤ STEP) × (STEP ≤ 3) }
    ensures { Passed STEP c part.now result }
{
    let four = 4 * STEP;
    for i in 0..part.len() / four {
        if in_four(part, i * four, STEP, c) {
            return i * four;
        }
    }
    part.len() / four * four
}

// The first of the entries of STEP words that has c, asked one by one.
fn first_with<const STEP: usize>(part: &[u32], c: u32) -> Option<&[u32]>
    requires { (2 ≤ STEP) × (STEP ≤ 3) }
    ensures { EntryFound STEP c part.now result }
{
    for entry in part.chunks_exact(STEP) {
        if between(c, entry[0], entry[1]) {
            return Some(entry);
        }
    }
    None
}

// The first of the entries of STEP words that has c.
fn entry_with<const STEP: usize>(part: &[u32], c: u32) -> Option<&[u32]>
    requires { (2 ≤ STEP) × (STEP ≤ 3) }
    ensures { EntryFound STEP c part.now result }
{
    let i = skip::<STEP>(part, c);
    first_with::<STEP>(&part[i..], c)
}

// Whether c lies in one of the pairs first, last.
pub fn in_pairs(part: &[u32], c: u32) -> bool
    ensures { result ≡ in_pairs c part.now }
{
    entry_with::<2>(part, c).is_some()
}

// The class of the first triple first, last, class with c in it, or 0.
pub fn class_in(part: &[u32], c: u32) -> u32
    ensures { result ≡ class_among c part.now }
{
    match entry_with::<3>(part, c) {
        Some(triple) => triple[2],
        None => 0,
    }
}

// Whether c is one of the items.
pub fn mem_in(items: &[u32], c: u32) -> bool
    ensures { result ≡ mem c items.now }
{
    items.contains(&c)
}

// Where the items of the first record head, count, items with head c stand in the part.
pub fn head_in(part: &[u32], c: u32) -> Option<Span>
    requires { is_some (headed (length part.now) most_items part.now) ≡ true }
    ensures { ItemsFound part.now most_items (items_of (heads_in part.now) c) result }
{
    // by hand: a record's length is its own, and the place goes on by it
    let mut i: usize = 0;
    while i < part.len() {
        let n = part[i + 1] as usize;
        let from = i + 2;
        if part[i] == c {
            return Some(Span { from, to: from + n });
        }
        i = from + n;
    }
    None
}

// The items whose count stands at a place.
pub fn counted(words: &[u32], at: usize) -> Span
    requires { at + 1 + get_or words.now at 0 ≤ length words.now }
    ensures { result ≡ counted_at words.now at }
{
    let from = at + 1;
    let n = words[at] as usize;
    Span { from, to: from + n }
}

// The number of words of the list that `rest` begins with.
pub fn list_size(rest: &[u32]) -> Option<usize>
    ensures { result ≡ list_length rest.now }
{
    if rest.len() == 0 {
        return None;
    }
    let count = rest[0];
    if count > MOST_SEQUENCES {
        return None;
    }
    let mut at: usize = 1;
    for _ in 0..count {
        if at == rest.len() {
            return None;
        }
        let n = rest[at];
        if n < LEAST_RUN {
            return None;
        }
        if n > MOST_RUN {
            return None;
        }
        let items = n as usize;
        if items >= rest.len() - at {
            return None;
        }
        at = at + 1 + items;
    }
    Some(at)
}

// Where the records of a group's list stand behind its pairs.
fn list_at(part: &[u32], at: usize, listed: bool) -> Option<Span>
    requires { at ≤ length part.now }
    ensures { result ≡ list_at part.now at listed }
{
    if !listed {
        return None;
    }
    let size = list_size(&part[at..])?;
    Some(Span {
        from: at + 1,
        to: at + size,
    })
}

// The group whose record stands at a place.
pub fn group_at(part: &[u32], at: usize) -> GroupRecord
    requires { at + 2 + get_or part.now (at + 1) 0 ≤ length part.now }
    ensures { result ≡ group_at part.now at }
{
    let flags = part[at];
    let pairs = counted(part, at + 1);
    let listed = flags / 4 % 2 == 1;
    let list = list_at(part, pairs.to, listed);
    let next = match list {
        Some(s) => s.to,
        None => pairs.to,
    };
    GroupRecord {
        restricted: flags % 2 == 1,
        whitelisted: flags / 2 % 2 == 1,
        pairs,
        listed,
        list,
        next,
    }
}

// Where the lists of the first whole whose confused list has c stand in the part.
pub fn whole_in(part: &[u32], c: u32) -> Option<WholeLists>
    requires { is_some (wholes (length part.now) part.now) ≡ true }
    ensures { WholeFound part.now (whole_of (wholes_in part.now) c) result }
{
    // by hand: a record's length is its own, and the place goes on by it
    let mut i: usize = 0;
    while i < part.len() {
        let valid = counted(part, i);
        let at = valid.to;
        let confused = counted(part, at);
        if mem_in(confused.of(part), c) {
            return Some(WholeLists { valid, confused });
        }
        i = confused.to;
    }
    None
}

// Where the lists of the first whole of a section whose confused list has c stand among the words.
pub fn whole_in_of(words: &[u32], s: Span, c: u32) -> Option<WholeLists>
    requires { WholesPart words.now s }
    ensures { WholeFound words.now (whole_of (wholes_in (within s words.now)) c) result }
{
    let WholeLists { valid, confused } = whole_in(s.of(words), c)?;
    Some(WholeLists {
        valid: Span {
            from: s.from + valid.from,
            to: s.from + valid.to,
        },
        confused: Span {
            from: s.from + confused.from,
            to: s.from + confused.to,
        },
    })
}
