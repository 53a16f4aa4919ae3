// The second items of composition pairs, Hangul included, and whether the quick-check set holds those of the table.
#![tactic(auto)]

ghost use Rattle.std.specs.Prelude.{◌≡◌};
ghost use Rattle.lists.specs.Lists.{all};
ghost use Rattle.sections.specs.Laid.{Laid};
ghost use Rattle.table.specs.Spans.{Fits, within};
ghost use Rattle.table.specs.Layout.{the_table};
ghost use Rattle.table.specs.Part.{records_in};
ghost use Rattle.text.specs.QuickCheck.{is_second};
ghost use Rattle.sound_parts.specs.Parts.{Holds, as_headed};
ghost use Rattle.second_items.specs.Seconds.{second_is, second_held, second_held_in, SecondsHeld};

use records::Heads;
use rule_7::rule7::is_pair;
use sections::Sections;
use sections::lookup::in_quick_check;
use table::Span;
use text::hangul::{is_trailing, is_vowel};

// Whether a decomposition is a composition pair with the second item x. The sections are lent, since most have another second item: none is copied
// for them.
fn second_is(words: &[u32], ix: &Sections, head: u32, items: &[u32], x: u32) -> bool
    requires { Laid words.now ix.now }
    ensures { result ≡ second_is (the_table words.now) x head items.now }
{
    if items.len() < 2 {
        return false;
    }
    if items[1] != x {
        return false;
    }
    is_pair(words, *ix, head, items)
}

// Whether x is the second item of a composition pair, Hangul included. Where the set holds every second item of the table, as `held` may say,
// what it does not hold needs no walk.
pub fn is_second(words: &[u32], ix: Sections, held: bool, x: u32) -> bool
    requires laid { Laid words.now ix }
    requires seconds_held { SecondsHeld (the_table words.now) held }
    ensures { result ≡ is_second (the_table words.now) x }
{
    if is_vowel(x) {
        return true;
    }
    if is_trailing(x) {
        return true;
    }
    if held {
        if !in_quick_check(words, ix, x) {
            return false;
        }
    }
    let part = ix.decompositions.of(words);
    Heads::of(part).any(|(head, items)| second_is(words, &ix, head, items, x))
}

// Whether a decomposition is no composition pair, or its second item is in the set. The sections are lent, since a walk asks it of every record.
fn holds_second(words: &[u32], ix: &Sections, head: u32, items: &[u32]) -> bool
    requires { Laid words.now ix.now }
    ensures { result ≡ second_held (the_table words.now) head items.now }
{
    if items.len() < 2 {
        return true;
    }
    if in_quick_check(words, *ix, items[1]) {
        return true;
    }
    !is_pair(words, *ix, head, items)
}

// The same of one record.
pub fn second_held(words: &[u32], ix: Sections, head: u32, items: &[u32]) -> bool
    requires { Laid words.now ix }
    ensures { result ≡ second_held (the_table words.now) head items.now }
{
    holds_second(words, &ix, head, items)
}

// Whether the second item of each composition pair of the records of a part is in the set.
pub fn seconds_held_of(words: &[u32], ix: Sections, s: Span) -> bool
    requires laid { Laid words.now ix }
    requires fits { Fits words.now s }
    requires holds { Holds as_headed (within s words.now) }
    ensures { result ≡ all (second_held_in (the_table words.now)) (records_in as_headed (within s words.now)) }
{
    Heads::of(s.of(words)).all(|(head, items)| holds_second(words, &ix, head, items))
}
