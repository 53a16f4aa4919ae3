// Rule 5: a scan of an answer finds the emoji sequences that are meant, and no others.
ghost use Rattle.std.specs.Prelude.{◌≡◌, ◌&&◌, ◌<◌, length, get_or, take};
ghost use Rattle.lists.specs.Lists.{all, any};
ghost use Rattle.table.specs.Layout.{sequences, the_table};
ghost use Rattle.sections.specs.Laid.{Laid};
ghost use Rattle.finder.specs.Emoji.{strip};
ghost use Rattle.soundness.specs.Sequences.{starts_with, one_valid, can_start, apart, rule5};
ghost use Rattle.table.specs.Part.{records_in};
ghost use Rattle.sound_parts.specs.Parts.{Holds};
ghost use Rattle.firsts.specs.Firsts.{FirstsKnown};
ghost use Rattle.records.specs.Left.{lists_left};
ghost use Rattle.rule_4.specs.Strips.{same_stripped, Steady};
ghost use Rattle.rule_5.specs.Apart.{keeps_apart, stands_alone};
ghost use Rattle.rule_5.specs.Sought.{EmojiKnown};

use firsts::seek;
use records::Lists;
use rule_4::rule4::{any_same, first_of, is_bounded, next_item, starts_with};
use sections::Sections;
use sections::lookup::is_valid;

// Whether the stripped items are one valid codepoint.
fn one_valid(words: &[u32], ix: Sections, items: &[u32]) -> bool
    requires { Laid words.now ix }
    ensures { result ≡ one_valid (the_table words.now) (strip items.now) }
{
    let i = next_item(items, 0);
    if items.len() <= i {
        return false;
    }
    let j = next_item(items, i + 1);
    if j < items.len() {
        return false;
    }
    is_valid(words, ix, items[i])
}

// Whether c is first of one of the sequences. Where they are sorted, it is first of none from one on that starts above it.
fn first_in(part: &[u32], sorted: bool, c: u32) -> bool
    requires { Steady sorted part.now }
    ensures { result ≡ any (starts_with c) (lists_left part.now) }
{
    for items in Lists::of(part) {
        if starts_with(items, c) {
            return true;
        }
        if sorted & (c < first_of(items)) {
            return false;
        }
    }
    false
}

// Whether c is first of any sequence.
fn any_first(ix: Sections, emoji: &[u32], c: u32) -> bool
    requires holds { Holds sequences emoji.now }
    requires firsts_known { FirstsKnown emoji.now ix.sorted.emoji ix.starts.emoji ix.starts.numbers }
    ensures { result ≡ any (starts_with c) (records_in sequences emoji.now) }
{
    let start = seek(
        emoji,
        ix.sorted.emoji,
        ix.starts.emoji,
        ix.starts.numbers,
        c,
    );
    first_in(&emoji[start.place..], ix.sorted.emoji, c)
}

// Whether c is valid or first of any sequence.
fn can_start(words: &[u32], ix: Sections, emoji: &[u32], c: u32) -> bool
    requires laid { Laid words.now ix }
    requires emoji_known { EmojiKnown (the_table words.now) ix emoji.now }
    ensures { result ≡ can_start (the_table words.now) c }
{
    is_valid(words, ix, c) || any_first(ix, emoji, c)
}

// Whether one of the sequences is equal to the items when stripped.
fn is_sequence(ix: Sections, emoji: &[u32], items: &[u32]) -> bool
    requires holds { Holds sequences emoji.now }
    requires firsts_known { FirstsKnown emoji.now ix.sorted.emoji ix.starts.emoji ix.starts.numbers }
    ensures { result ≡ any (same_stripped items.now) (records_in sequences emoji.now) }
{
    if !is_bounded(ix.sorted.emoji, items) {
        return any_same(emoji, ix.sorted.emoji, items);
    }
    let first = first_of(items);
    let start = seek(
        emoji,
        ix.sorted.emoji,
        ix.starts.emoji,
        ix.starts.numbers,
        first,
    );
    any_same(&emoji[start.place..], ix.sorted.emoji, items)
}

// Whether the stripped items are a stripped sequence or one valid codepoint.
fn stands_alone(words: &[u32], ix: Sections, emoji: &[u32], items: &[u32]) -> bool
    requires laid { Laid words.now ix }
    requires emoji_known { EmojiKnown (the_table words.now) ix emoji.now }
    ensures { result ≡ stands_alone (the_table words.now) items.now }
{
    is_sequence(ix, emoji, items) || one_valid(words, ix, items)
}

// Whether the start before k stands alone and the item at k can start, which is asked first: it is cheaper.
fn parts_at(words: &[u32], ix: Sections, emoji: &[u32], items: &[u32], k: usize) -> bool
    requires laid { Laid words.now ix }
    requires emoji_known { EmojiKnown (the_table words.now) ix emoji.now }
    requires k_in_bounds { k < length items.now }
    ensures { result ≡ (stands_alone (the_table words.now) (take k items.now) && can_start (the_table words.now) (get_or items.now k 0)) }
{
    can_start(words, ix, emoji, items[k]) && stands_alone(words, ix, emoji, &items[..k])
}

// Whether no proper start of the stripped items that stands alone is followed by what can start.
fn keeps_apart(words: &[u32], ix: Sections, emoji: &[u32], items: &[u32]) -> bool
    requires laid { Laid words.now ix }
    requires emoji_known { EmojiKnown (the_table words.now) ix emoji.now }
    ensures { result ≡ apart (the_table words.now) (strip items.now) }
{
    let first = next_item(items, 0);
    if items.len() <= first {
        return true;
    }
    // by hand: the place goes on to the next item that is no FE0F
    let mut i = next_item(items, first + 1);
    while i < items.len() {
        if parts_at(words, ix, emoji, items, i) {
            return false;
        }
        i = next_item(items, i + 1);
    }
    true
}

// Rule 5, of one sequence.
fn sequence_apart(words: &[u32], ix: Sections, emoji: &[u32], items: &[u32]) -> bool
    requires laid { Laid words.now ix }
    requires emoji_known { EmojiKnown (the_table words.now) ix emoji.now }
    ensures { result ≡ keeps_apart (the_table words.now) items.now }
{
    if one_valid(words, ix, items) {
        return false;
    }
    keeps_apart(words, ix, emoji, items)
}

// Rule 5, of every sequence.
fn sequences_apart(words: &[u32], ix: Sections, emoji: &[u32]) -> bool
    requires laid { Laid words.now ix }
    requires emoji_known { EmojiKnown (the_table words.now) ix emoji.now }
    ensures { result ≡ all (keeps_apart (the_table words.now)) (lists_left emoji.now) }
{
    Lists::of(emoji).all(|items| sequence_apart(words, ix, emoji, items))
}

// Rule 5: no valid codepoint is alone a stripped sequence, and no sequence goes on where a shorter one or a valid codepoint ends and another can start.
pub fn keeps_rule5(words: &[u32], ix: Sections) -> bool
    requires { Laid words.now ix }
    ensures { result ≡ rule5 (the_table words.now) }
{
    sequences_apart(words, ix, ix.emoji.of(words))
}
