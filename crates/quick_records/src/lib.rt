// What rules 7 and 8 ask of each decomposition.
#![tactic(auto)]

use quick_filters::filters::{may_hold, note_runs};
use quick_filters::slots::find_slot;
use quick_levels::index_records;
use quick_seconds::second_fits;
use records::Heads;
use sections::Sections;
use sections::lookup::in_quick_check;
use text::class::class_of;
use unpaired::may_compose;

// So many codepoints of a section are put into the filter.
const MOST_SAID: u32 = 4096;

// What a walk over the decompositions is lent: their words, an index of them by their heads, and filters of the heads and of what the other
// sections speak of.
#[derive(Clone, Copy)]
struct Lent<'a> {
    part: &'a [u32],
    index: &'a [u32],
    heads: &'a [u32],
    said: &'a [u32],
}

ghost use Rattle.std.specs.Prelude.{◌≡◌, true, false, ℕ, ◌≤◌, ◌%◌, length};
ghost use Rattle.sections.specs.Laid.{Laid};
ghost use Rattle.table.specs.Layout.{the_table};
ghost use Rattle.table.specs.Part.{in_pairs};
ghost use Rattle.text.specs.Ordering.{out_of_order};
ghost use Rattle.sound_parts.specs.Parts.{record_of};
ghost use Rattle.heads.specs.Heads.{rising};
ghost use Rattle.quick_filters.specs.Filter.{filter_words};
ghost use Rattle.quick_levels.specs.Walk.{Each, Few};
ghost use Rattle.quick_records.specs.Fit.{PartOf, SetOf, Cleared, Behind, Lending, Composing, RecordAsked, Fitting};
ghost use Rattle.quick_seconds.specs.Seconds.{HeadsHeld, Good};

// The place of the first entry that ends at c or above it, from an entry on. No answer hangs on its being the first: `covers` asks it.
fn advance(set: &[u32], from: usize, c: u32) -> usize
    requires { (from % 2 ≡ 0) × (from ≤ length set.now) }
    ensures { (result % 2 ≡ 0) × (result ≤ length set.now) }
{
    // by hand: the place itself is the answer, also where one word is left over
    let mut k = from;
    while k + 1 < set.len() {
        if c <= set[k + 1] {
            return k;
        }
        k += 2;
    }
    k
}

// Whether the entry at k covers the codepoints from a to b.
fn covers(set: &[u32], k: usize, a: u32, b: u32) -> bool
    requires { k % 2 ≡ 0 }
    ensures { result ≡ true → (c : ℕ) → a ≤ c → c ≤ b → in_pairs c set.now ≡ true }
{
    if set.len() <= k {
        return false;
    }
    if set.len() <= k + 1 {
        return false;
    }
    (set[k] <= a) & (b <= set[k + 1])
}

// Whether one entry covers them.
pub fn covers_run(set: &[u32], a: u32, b: u32) -> bool
    ensures { result ≡ true → (c : ℕ) → a ≤ c → c ≤ b → in_pairs c set.now ≡ true }
{
    let k = advance(set, 0, b);
    covers(set, k, a, b)
}

// Whether the class of y is 0 or at least that of x.
fn in_order(words: &[u32], ix: Sections, x: u32, y: u32) -> bool
    requires { Laid words.now ix }
    ensures { result ≡ true → out_of_order (the_table words.now) x y ≡ false }
{
    let k = class_of(words, ix, y);
    if k == 0 {
        return true;
    }
    class_of(words, ix, x) <= k
}

// Whether b is in order behind what a decomposes to.
fn behind_fits(words: &[u32], ix: Sections, lent: &Lent<'_>, a: u32, b: u32) -> bool
    requires { Laid words.now ix × Lending (the_table words.now) lent.now }
    ensures { result ≡ true → Behind (the_table words.now) a b }
{
    let Some(at) = find_slot(lent.part, lent.index, a, 2) else {
        return false;
    };
    let v = lent.index[at] as usize;
    if v == 0 {
        return true;
    }
    in_order(words, ix, lent.part[v + 2], b)
}

// The same, where a may be a head.
fn stands_behind(words: &[u32], ix: Sections, lent: &Lent<'_>, a: u32, b: u32) -> bool
    requires { Laid words.now ix × Lending (the_table words.now) lent.now }
    ensures { result ≡ true → Behind (the_table words.now) a b }
{
    if !may_hold(lent.heads, a) {
        return true;
    }
    behind_fits(words, ix, lent, a, b)
}

// Whether a head with the first item a is that of a composition pair, and a is outside the set.
fn composes(words: &[u32], ix: Sections, lent: &Lent<'_>, head: u32, a: u32) -> bool
    requires { Laid words.now ix × Lending (the_table words.now) lent.now }
    ensures { result ≡ true → Composing (the_table words.now) head a }
{
    let first = may_hold(lent.said, head);
    let second = may_hold(lent.said, a);
    if !(first | second) {
        return true;
    }
    if in_quick_check(words, ix, a) {
        return false;
    }
    may_compose(head, words, ix, a)
}

// Whether a record fits whose head is in the set: one item is no composition pair.
fn fits_inside(
    words: &[u32],
    ix: Sections,
    lent: &Lent<'_>,
    good: &mut [u32],
    head: u32,
    items: &[u32],
) -> bool
    requires lent { Laid words.now ix × Lending (the_table words.now) lent.now }
    requires good { Good (the_table words.now) good.old }
    ensures { RecordAsked (the_table words.now) good.new true (record_of head items.now) result }
{
    if items.len() != 2 {
        return true;
    }
    if second_fits(words, ix, lent.heads, good, items[1]) {
        return true;
    }
    !may_compose(head, words, ix, items[0])
}

// The same, where its head may be outside the set.
fn fits_outside(
    words: &[u32],
    ix: Sections,
    lent: &Lent<'_>,
    good: &mut [u32],
    head: u32,
    items: &[u32],
) -> bool
    requires lent { Laid words.now ix × Lending (the_table words.now) lent.now }
    requires good { Good (the_table words.now) good.old }
    ensures { RecordAsked (the_table words.now) good.new false (record_of head items.now) result }
{
    if items.len() != 2 {
        return false;
    }
    let a = items[0];
    let b = items[1];
    if !second_fits(words, ix, lent.heads, good, b) {
        return false;
    }
    if !composes(words, ix, lent, head, a) {
        return false;
    }
    stands_behind(words, ix, lent, a, b)
}

// Whether every decomposition fits.
fn all_fit(words: &[u32], ix: Sections, lent: &Lent<'_>, set: &[u32], good: &mut [u32]) -> bool
    requires lent { Laid words.now ix × Lending (the_table words.now) lent.now }
    requires good { Good (the_table words.now) good.old × SetOf (the_table words.now) set.now }
    ensures { result ≡ true → Each (Fitting (the_table words.now)) (the_table words.now).decompositions }
{
    let mut k: usize = 0;
    for (head, items) in Heads::of(lent.part) {
        k = advance(set, k, head);
        let fits = if covers(set, k, head, head) {
            fits_inside(words, ix, lent, good, head, items)
        } else {
            fits_outside(words, ix, lent, good, head, items)
        };
        if !fits {
            return false;
        }
    }
    true
}

// Puts the codepoints of the set, the classes and the exclusions into the filter, if they are not too many.
fn note_said(words: &[u32], ix: Sections, said: &mut [u32]) -> bool
    requires { Laid words.now ix × (length said.old ≡ filter_words) }
    ensures { result ≡ true → Cleared (the_table words.now) said.new }
{
    if !note_runs(ix.quick.of(words), 2, 1, said, MOST_SAID) {
        return false;
    }
    if !note_runs(ix.classes.of(words), 3, 1, said, MOST_SAID) {
        return false;
    }
    let e = ix.exclusions.from + 1;
    let f = ix.exclusions.to;
    note_runs(&words[e..f], 1, 0, said, MOST_SAID)
}

// The same, with a filter of the codepoints of the other sections and an index of the heads.
pub fn records_fit(words: &[u32], ix: Sections, part: &[u32], set: &[u32], heads: &[u32]) -> bool
    requires laid { Laid words.now ix × PartOf (the_table words.now) part.now }
    requires words_value { rising 0 (the_table words.now).decompositions ≡ true }
    requires each { Each Few (the_table words.now).decompositions }
    requires heads_held { HeadsHeld (the_table words.now) heads.now × SetOf (the_table words.now) set.now }
    ensures { result ≡ true → Each (Fitting (the_table words.now)) (the_table words.now).decompositions }
{
    let mut said = [0u32; 1024];
    let mut index = [0u32; 2048];
    let mut good = [0u32; 257];
    if class_of(words, ix, 0) != 0 {
        return false;
    }
    if !note_said(words, ix, &mut said) {
        return false;
    }
    if !index_records(part, 0, &mut index) {
        return false;
    }
    let lent = Lent {
        part,
        index: &index,
        heads,
        said: &said,
    };
    all_fit(words, ix, &lent, set, &mut good)
}
