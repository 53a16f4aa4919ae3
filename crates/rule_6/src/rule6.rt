// Rule 6, on the heads of decompositions and on classes.
ghost use Rattle.std.specs.Prelude.{◌≡◌, true, ◌||◌, ◌+◌, ◌<◌, length};
ghost use Rattle.lists.specs.Lists.{all, mem};
ghost use Rattle.sections.specs.Laid.{Laid};
ghost use Rattle.table.specs.Layout.{the_table};
ghost use Rattle.text.specs.Hangul.{is_syllable};
ghost use Rattle.soundness.specs.Scalars.{rule1};
ghost use Rattle.soundness.specs.Pairs.{decomposes_fully, heads, rule6};
ghost use Rattle.records.specs.Left.{heads_left};
ghost use Rattle.bit_sets.specs.Sets.{has, window_words};
ghost use Rattle.sound_choices.specs.Rounds.{heads_of, start_of, Holding};
ghost use Rattle.sound_rounds.specs.Reached.{PartsOf, RoundsChosen};
ghost use Rattle.rule_2.specs.Windows.{Passes, WordPasses};
ghost use Rattle.rule_6.specs.Heads.{is_stable, stable_at, settled, head_fits, heads_fit};

use bit_sets::has;
use decomposition::{is_alone, replaced};
use records::Heads;
use sections::Sections;
use sound_choices::choices::find_first;
use sound_parts::spared::{classes_spare_of, plain_head};
use sound_rounds::rounds::{choose_rounds, no_syllables, reach};
use text::hangul::is_syllable;

const WINDOW: u32 = 0x10000;

// The windows of all codepoints.
const WINDOWS: u32 = 17;

// The words of a window's set.
const WORDS: u32 = 2048;

// Whether c decomposes no further.
fn is_stable(words: &[u32], ix: Sections, c: u32) -> bool
    requires { Laid words.now ix }
    ensures { result ≡ is_stable (the_table words.now) c }
{
    let parts = replaced(words, ix, c);
    is_alone(parts, c)
}

// Whether c is the head of one of the records.
fn has_head(part: &[u32], c: u32) -> bool
    ensures { result ≡ mem c (heads_of (heads_left part.now)) }
{
    Heads::of(part).any(|(head, _)| c == head)
}

// Whether a head is plain and none of those behind it.
fn head_fits(head: u32, behind: &[u32]) -> bool
    ensures { result ≡ head_fits head (heads_left behind.now) }
{
    plain_head(head) && !has_head(behind, head)
}

// Whether the heads of the records are plain and distinct.
fn heads_fit(part: &[u32]) -> bool
    ensures { result ≡ heads_fit (heads_left part.now) }
{
    let mut left = Heads::of(part);
    while let Some((head, _)) = left.next() {
        if !head_fits(head, left.part) {
            return false;
        }
    }
    true
}

// Whether a round may change the codepoint at the place d of a window: it is a syllable or a head.
fn may_change(heads: &[u32], base: u32, d: u32) -> bool
    requires heads_len { length heads.now ≡ window_words }
    requires base_bound { base < 0x110000 }
    requires d_bound { d < 0x10000 }
    ensures { result ≡ (is_syllable (base + d) || has heads.now d) }
{
    is_syllable(base + d) || has(heads, d)
}

// Whether the codepoint at the place d of a window decomposes no further, where the set holds it.
fn stable_at(words: &[u32], ix: Sections, heads: &[u32], set: &[u32], base: u32, d: u32) -> bool
    requires laid { Laid words.now ix }
    requires holding { Holding base heads.now (heads_of (the_table words.now).decompositions) }
    requires set_len { length set.now ≡ window_words }
    requires base_bound { base < 0x110000 }
    requires d_bound { d < 0x10000 }
    ensures { result ≡ stable_at (the_table words.now) base set.now d }
{
    if !has(set, d) {
        return true;
    }
    if !may_change(heads, base, d) {
        return true;
    }
    is_stable(words, ix, base + d)
}

// The same for the 32 places of the word i. Rule 2 has such lines for its own test: each is one call of the library's `all`.
fn stable_places(words: &[u32], ix: Sections, heads: &[u32], set: &[u32], base: u32, i: u32) -> bool
    requires laid { Laid words.now ix }
    requires holding { Holding base heads.now (heads_of (the_table words.now).decompositions) }
    requires set_len { length set.now ≡ window_words }
    requires base_bound { base < 0x110000 }
    requires i_lt_window_words { i < window_words }
    ensures { WordPasses (stable_at (the_table words.now) base set.now) i result }
{
    (i * 32..i * 32 + 32).all(|d| stable_at(words, ix, heads, set, base, d))
}

// The same, at once where the set holds none of them, or none can change.
fn stable_word(words: &[u32], ix: Sections, heads: &[u32], set: &[u32], base: u32, i: u32) -> bool
    requires laid { Laid words.now ix }
    requires holding { Holding base heads.now (heads_of (the_table words.now).decompositions) }
    requires set_len { length set.now ≡ window_words }
    requires base_bound { base < 0x110000 }
    requires i_lt_window_words { i < window_words }
    ensures { WordPasses (stable_at (the_table words.now) base set.now) i result }
{
    let k = i as usize;
    if set[k] == 0 {
        return true;
    }
    if heads[k] == 0 {
        if no_syllables(base + i * 32) {
            return true;
        }
    }
    stable_places(words, ix, heads, set, base, i)
}

// The same for every word.
fn stable_in(words: &[u32], ix: Sections, heads: &[u32], set: &[u32], base: u32) -> bool
    requires laid { Laid words.now ix }
    requires holding { Holding base heads.now (heads_of (the_table words.now).decompositions) }
    requires set_len { length set.now ≡ window_words }
    requires base_bound { base < 0x110000 }
    ensures { Passes (stable_at (the_table words.now) base set.now) 0x10000 result }
{
    (0..WORDS).all(|i| stable_word(words, ix, heads, set, base, i))
}

// Whether what is reached from the heads after four rounds decomposes no further.
fn all_stable(
    words: &[u32],
    ix: Sections,
    part: &[u32],
    gs: &[u32],
    rows: &[u32],
    heads: &mut [u32],
    set: &mut [u32],
    other: &mut [u32],
) -> bool
    requires laid { Laid words.now ix }
    requires parts_of { PartsOf (the_table words.now) part.now gs.now }
    requires rounds_chosen { RoundsChosen (the_table words.now) (start_of (the_table words.now) true) 4 rows.now heads.old set.old
        other.old }
    ensures { Passes (settled (the_table words.now)) 0x110000 result }
{
    // A walk like that of rule 2: a closure for the turn would hold all that is lent here, and say no less.
    for window in 0..WINDOWS {
        let base = window * WINDOW;
        reach(words, ix, part, gs, true, 4, base, rows, heads, set, other);
        if !stable_in(words, ix, heads, set, base) {
            return false;
        }
    }
    true
}

// Whether four rounds decompose every head fully. `part` and `gs` are the sections of the decompositions and of the groups.
fn decompose_fully(words: &[u32], ix: Sections, part: &[u32], gs: &[u32]) -> bool
    requires laid { Laid words.now ix }
    requires parts_of { PartsOf (the_table words.now) part.now gs.now }
    requires words_value { rule1 (the_table words.now) ≡ true }
    ensures { result ≡ all (decomposes_fully (the_table words.now)) (heads (the_table words.now)) }
{
    let mut first = [0u32; 1366];
    let mut rows = [0u32; 5464];
    let mut heads = [0u32; 2048];
    let mut set = [0u32; 2048];
    let mut other = [0u32; 2048];
    find_first(part, &mut set, &mut first);
    choose_rounds(
        words, ix, part, gs, true, &first, &mut rows, &mut heads, &mut set, &mut other,
    );
    all_stable(words, ix, part, gs, &rows, &mut heads, &mut set, &mut other)
}

// Rule 6: four rounds decompose fully; heads are distinct, and no ASCII, syllable or jamo; no entry gives a jamo or a syllable a class
// other than 0. Rule 1 holds.
pub fn keeps_rule6(words: &[u32], ix: Sections) -> bool
    requires laid { Laid words.now ix }
    requires words_value { rule1 (the_table words.now) ≡ true }
    ensures { result ≡ rule6 (the_table words.now) }
{
    let part = ix.decompositions.of(words);
    if !heads_fit(part) {
        return false;
    }
    if !decompose_fully(words, ix, part, ix.groups.of(words)) {
        return false;
    }
    classes_spare_of(words, ix.classes)
}
