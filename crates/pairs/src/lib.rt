// What two codepoints compose to: Hangul, then the composition pairs of the table.
#![tactic(auto)]

ghost use Rattle.std.specs.Prelude.{◌≡◌, ◌≤◌, ◌<◌, ◌+◌, ◌/◌, length, get_or};
ghost use Rattle.sections.specs.Laid.{Laid};
ghost use Rattle.table.specs.Layout.{the_table};
ghost use Rattle.table.specs.Spans.{within};
ghost use Rattle.text.specs.Hangul.{hangul_pair};
ghost use Rattle.text.specs.Composition.{is_pair, pair, table_pair};
ghost use Rattle.pairs.specs.Found.{composed_to, headed_at, pair_at, PairFound};
ghost use Rattle.pair_index.specs.Index.{Bounds};
ghost use Rattle.unpaired.specs.Unpaired.{pair_places, is_pair_at, Unpaired, Asked};

use sections::Sections;
use table::Span;
use text::hangul;
use unpaired::index::bounds_of;
use unpaired::is_pair;

// The syllable of a leading consonant and a vowel, or of an open syllable and a trailing consonant.
pub fn hangul_pair(a: u32, b: u32) -> Option<u32>
    ensures { composed_to result ≡ hangul_pair a b }
{
    if hangul::makes_open(a, b) {
        return Some(0xAC00 + ((a - 0x1100) * 21 + (b - 0x1161)) * 28);
    }
    if hangul::makes_closed(a, b) {
        return Some(a + (b - 0x11A7));
    }
    None
}

// Whether the record at `at` is a composition pair of a and b.
fn pair_at(
    words: &[u32],
    ix: Sections,
    unpaired: &mut [u32],
    part: &[u32],
    at: usize,
    a: u32,
    b: u32,
) -> bool
    requires laid { Laid words.now ix }
    requires unpaired { Unpaired (the_table words.now) unpaired.old × (at / 3 < pair_places) }
    requires at_in_bounds { at + 2 + get_or part.now (at + 1) 0 ≤ length part.now }
    requires at_value { is_pair_at (the_table words.now) (at / 3) ≡ is_pair (the_table words.now) (headed_at part.now at) }
    ensures { Asked (the_table words.now) unpaired.new (pair_at (the_table words.now) part.now at a b) result }
{
    if part[at + 1] != 2 {
        return false;
    }
    if part[at + 2] != a {
        return false;
    }
    if part[at + 3] != b {
        return false;
    }
    is_pair(words, ix, part[at], unpaired, (at / 3) as u32, a)
}

// The place behind the record at `at`.
fn behind(part: &[u32], at: usize) -> usize
    requires { at + 2 + get_or part.now (at + 1) 0 ≤ length part.now }
    ensures { result ≡ at + 2 + get_or part.now (at + 1) 0 }
{
    at + 2 + part[at + 1] as usize
}

// The head of the first composition pair of a and b among the decompositions, which stand in s if they have these items.
fn pair_in(
    words: &[u32],
    ix: Sections,
    unpaired: &mut [u32],
    part: &[u32],
    s: Span,
    a: u32,
    b: u32,
) -> Option<u32>
    requires laid { Laid words.now ix }
    requires unpaired { Unpaired (the_table words.now) unpaired.old }
    requires part_value { part.now ≡ within ix.decompositions words.now }
    requires bounds { Bounds (the_table words.now).decompositions a b s }
    ensures { PairFound (the_table words.now) unpaired.new (table_pair (the_table words.now) a b) result }
{
    // by hand: a record's length is its own, and the place goes on by it
    let to = s.to;
    let mut at = s.from;
    while at < to {
        if pair_at(words, ix, unpaired, part, at, a, b) {
            return Some(part[at]);
        }
        at = behind(part, at);
    }
    None
}

// What the table composes a and b to, by the index of the call.
fn table_pair(words: &[u32], ix: Sections, unpaired: &mut [u32], a: u32, b: u32) -> Option<u32>
    requires laid { Laid words.now ix }
    requires unpaired { Unpaired (the_table words.now) unpaired.old }
    ensures { PairFound (the_table words.now) unpaired.new (table_pair (the_table words.now) a b) result }
{
    let part = ix.decompositions.of(words);
    let s = bounds_of(unpaired, part.len(), a, b);
    pair_in(words, ix, unpaired, part, s, a, b)
}

// What a and b compose to: Hangul first, then the table's pairs. The two do not stand side by side among the arguments: what is spilled of them on
// the stack would.
pub fn pair_of(words: &[u32], ix: Sections, a: u32, unpaired: &mut [u32], b: u32) -> Option<u32>
    requires laid { Laid words.now ix }
    requires unpaired { Unpaired (the_table words.now) unpaired.old }
    ensures { PairFound (the_table words.now) unpaired.new (pair (the_table words.now) a b) result }
{
    // by hand: the closure of an `or_else` would hold a and b side by side
    match hangul_pair(a, b) {
        Some(h) => Some(h),
        None => table_pair(words, ix, unpaired, a, b),
    }
}
