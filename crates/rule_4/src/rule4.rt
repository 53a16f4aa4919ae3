// Rule 4, on emoji sequences.
ghost use Rattle.std.specs.Prelude.{◌≡◌, true, ◌&&◌, ◌≤◌, length, get_or};
ghost use Rattle.lists.specs.Lists.{all, any};
ghost use Rattle.table.specs.Layout.{the_table};
ghost use Rattle.sections.specs.Laid.{Laid};
ghost use Rattle.soundness.specs.Sequences.{starts_with, two_selectors, rule4};
ghost use Rattle.records.specs.Left.{lists_left};
ghost use Rattle.rule_4.specs.Strips.{plain_sequence, same_stripped, distinct_stripped, NextItem, Bounded, Steady};

use finder::shared::shared;
use records::Lists;
use sections::Sections;
use table::lookup::mem_in;

const SELECTOR: u32 = 0xFE0F;

// Whether c is the first item.
pub fn starts_with(items: &[u32], c: u32) -> bool
    ensures { result ≡ starts_with c items.now }
{
    if 0 < items.len() {
        return c == items[0];
    }
    false
}

// Whether two FE0F stand together.
fn two_selectors(items: &[u32]) -> bool
    ensures { result ≡ two_selectors items.now }
{
    for &[a, b] in items.array_windows::<2>() {
        if a == SELECTOR && b == SELECTOR {
            return true;
        }
    }
    false
}

// Whether a sequence has no 2E, does not start with FE0F and has no two FE0F together.
fn plain_sequence(items: &[u32]) -> bool
    ensures { result ≡ plain_sequence items.now }
{
    if mem_in(items, 0x2E) {
        return false;
    }
    if starts_with(items, SELECTOR) {
        return false;
    }
    !two_selectors(items)
}

// The place, from i on, of the first item that is not FE0F, or the end.
pub fn next_item(items: &[u32], i: usize) -> usize
    requires { i ≤ length items.now }
    ensures { NextItem items.now i result }
{
    for r in i..items.len() {
        if items[r] != SELECTOR {
            return r;
        }
    }
    items.len()
}

// Whether two sequences are equal when stripped: compared item by item behind the start that they share.
fn same_stripped(a: &[u32], b: &[u32]) -> bool
    ensures { result ≡ same_stripped a.now b.now }
{
    let k = shared(a, b);
    let mut i = next_item(a, k);
    let mut j = next_item(b, k);
    // by hand: each place goes on by the FE0F that stand there, in the one sequence and in the other
    while i < a.len() {
        if b.len() <= j {
            return false;
        }
        if a[i] != b[j] {
            return false;
        }
        i = next_item(a, i + 1);
        j = next_item(b, j + 1);
    }
    b.len() <= j
}

// The first item, or 0.
pub fn first_of(items: &[u32]) -> u32
    ensures { result ≡ get_or items.now 0 0 }
{
    items.first().copied().unwrap_or(0)
}

// Whether no sequence that starts above the items, or below them, is equal to them when stripped: sequences are sorted, and the first item
// is there and is not FE0F.
pub fn is_bounded(sorted: bool, items: &[u32]) -> bool
    ensures { result ≡ true → Bounded sorted items.now }
{
    if items.len() == 0 {
        return false;
    }
    if items[0] == SELECTOR {
        return false;
    }
    sorted
}

// Whether one of the sequences is equal to the items when stripped. Where the items start with one that is not FE0F, no sequence is that starts with
// another, save FE0F; where the sequences are sorted, none is from one on that starts above the items.
pub fn any_same(part: &[u32], sorted: bool, items: &[u32]) -> bool
    requires { Steady sorted part.now }
    ensures { result ≡ any (same_stripped items.now) (lists_left part.now) }
{
    let bounded = is_bounded(sorted, items);
    let certain = is_bounded(true, items);
    let first = first_of(items);
    for other in Lists::of(part) {
        let start = first_of(other);
        if (certain & (start != first)) & (start != SELECTOR) {
            if bounded & (first < start) {
                return false;
            }
        } else {
            if same_stripped(items, other) {
                return true;
            }
        }
    }
    false
}

// Whether no two of the sequences are equal when stripped.
fn distinct_stripped(part: &[u32], sorted: bool) -> bool
    requires { Steady sorted part.now }
    ensures { result ≡ distinct_stripped (lists_left part.now) }
{
    let mut left = Lists::of(part);
    while let Some(items) = left.next() {
        if any_same(left.part, sorted, items) {
            return false;
        }
    }
    true
}

// Whether all of the sequences are plain.
fn plain_sequences(part: &[u32]) -> bool
    ensures { result ≡ all plain_sequence (lists_left part.now) }
{
    Lists::of(part).all(plain_sequence)
}

fn sequences_fit(part: &[u32], sorted: bool) -> bool
    requires { Steady sorted part.now }
    ensures { result ≡ (all plain_sequence (lists_left part.now) && distinct_stripped (lists_left part.now)) }
{
    plain_sequences(part) && distinct_stripped(part, sorted)
}

// Rule 4: no sequence holds 2E, starts with FE0F or has two FE0F together; stripped, no two are equal.
pub fn keeps_rule4(words: &[u32], ix: Sections) -> bool
    requires { Laid words.now ix }
    ensures { result ≡ rule4 (the_table words.now) }
{
    sequences_fit(ix.emoji.of(words), ix.sorted.emoji)
}
