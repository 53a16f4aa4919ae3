// Single replacement, and rounds of it into a lent slice.
#![tactic(auto)]

ghost use Rattle.std.specs.Prelude.{◌≤◌, ◌<◌, ◌+◌, ◌^◌, ◌≡◌, [], ◌∷◌, length, get_or, take};
ghost use Rattle.lists.specs.Lists.{same_list};
ghost use Rattle.sections.specs.Laid.{Laid};
ghost use Rattle.table.specs.Layout.{the_table};
ghost use Rattle.text.specs.Hangul.{syllable_count, jamo_of};
ghost use Rattle.text.specs.Decomposition.{single};
ghost use Rattle.decomposition.specs.Rounds.{most_from, items_by, ByFits, ReplacedBy, PartsAre, Expanded, Appended, Decomposed};

use sections::Sections;
use table::Span;
use text::hangul;

// What a single replacement puts in the place of a codepoint: nothing else, the items that stand at a place of the table, or the jamo of a
// syllable, counted from 0. They are read one by one: what is copied stays on the stack.
#[derive(Clone, Copy)]
pub enum Replacement {
    Itself,
    Items(Span),
    Jamo(u32),
}

// At most four codepoints: the first `count` of the items. A length beside an array: no heap.
#[derive(Clone, Copy)]
pub struct Parts {
    pub count: usize,
    pub items: [u32; 4],
}

// A single replacement: a syllable's jamo, else the items of the table's record, else c itself.
pub fn single(words: &[u32], ix: Sections, c: u32) -> Replacement
    requires { Laid words.now ix }
    ensures { ReplacedBy (the_table words.now) words.now c result }
{
    if hangul::is_syllable(c) {
        return Replacement::Jamo(c - 0xAC00);
    }
    match sections::lookup::decomposition_items(words, ix, c) {
        Some(s) => Replacement::Items(s),
        None => Replacement::Itself,
    }
}

// How many jamo the syllable number s has.
fn jamo_count(s: u32) -> usize
    ensures { result ≡ length (jamo_of s) }
{
    if s % 28 == 0 { 2 } else { 3 }
}

// The jamo at i of the syllable number s.
fn jamo_at(s: u32, i: usize) -> u32
    requires { (s < syllable_count) × (i < length (jamo_of s)) }
    ensures { result ≡ get_or (jamo_of s) i 0 }
{
    match i {
        0 => 0x1100 + s / 588,
        1 => 0x1161 + s % 588 / 28,
        _ => 0x11A7 + s % 28,
    }
}

// How many codepoints a replacement puts; 0 where the codepoint stays.
pub fn count(words: &[u32], by: Replacement) -> usize
    requires { ByFits words.now by }
    ensures { result ≡ length (items_by words.now by) }
{
    match by {
        Replacement::Itself => 0,
        Replacement::Items(s) => s.to - s.from,
        Replacement::Jamo(s) => jamo_count(s),
    }
}

// The one at i of them.
pub fn item(words: &[u32], by: Replacement, i: usize) -> u32
    requires { ByFits words.now by × (i < length (items_by words.now by)) }
    ensures { result ≡ get_or (items_by words.now by) i 0 }
{
    match by {
        Replacement::Itself => 0,
        Replacement::Items(s) => words[s.from + i],
        Replacement::Jamo(s) => jamo_at(s, i),
    }
}

// A single replacement by value.
pub fn replaced(words: &[u32], ix: Sections, c: u32) -> Parts
    requires { Laid words.now ix }
    ensures { PartsAre (single (the_table words.now) c) result }
{
    let by = single(words, ix, c);
    let n = count(words, by);
    if n == 0 {
        return Parts {
            count: 1,
            items: [c, 0, 0, 0],
        };
    }
    let mut items: [u32; 4] = [0; 4];
    for i in 0..n {
        items[i] = item(words, by, i);
    }
    Parts { count: n, items }
}

// Writes c at `at`, if there is room, and answers the next place.
pub fn put(out: &mut [u32], at: usize, c: u32) -> usize
    requires { at < 2 ^ 41 }
    ensures { Appended out.old out.new at (c ∷ []) result }
{
    let next = at + 1;
    if at < out.len() {
        out[at] = c;
    }
    next
}

// Whether the parts are c alone.
pub fn is_alone(parts: Parts, c: u32) -> bool
    requires { (parts.count ≤ 4) × (length parts.items ≡ 4) }
    ensures { result ≡ same_list (take parts.count parts.items) (c ∷ []) }
{
    parts.count == 1 && parts.items[0] == c
}

// Writes c with so many rounds of replacement at `at`, as far as there is room, and answers the place behind it. What one round leaves as
// it is, the later ones leave too: it is looked up once.
fn expand(words: &[u32], ix: Sections, out: &mut [u32], at: usize, c: u32, rounds: u32) -> usize
    requires laid { Laid words.now ix }
    requires rounds_bound { at + most_from rounds ≤ 2 ^ 41 }
    ensures { Expanded (the_table words.now) rounds c out.old out.new at result }
{
    if rounds == 0 {
        return put(out, at, c);
    }
    let by = single(words, ix, c);
    let n = count(words, by);
    if n == 0 {
        return put(out, at, c);
    }
    let mut to = at;
    for i in 0..n {
        let d = item(words, by, i);
        to = expand(words, ix, out, to, d, rounds - 1);
    }
    to
}

// Writes the full decomposition of c, not yet ordered, at `at`, as far as there is room, and answers the place behind it.
pub fn append_decomposed(words: &[u32], ix: Sections, out: &mut [u32], at: usize, c: u32) -> usize
    requires laid { Laid words.now ix }
    requires at_bound { at ≤ 2 ^ 40 }
    ensures { Decomposed (the_table words.now) c out.old out.new at result }
{
    expand(words, ix, out, at, c, 4)
}
