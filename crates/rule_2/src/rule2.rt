// Rule 2: valid is exactly the groups' characters and those of their full decompositions.
ghost use Rattle.std.specs.Prelude.{◌≡◌, true, false, ◌||◌, ◌+◌, ◌<◌, length};
ghost use Rattle.sections.specs.Laid.{Laid};
ghost use Rattle.table.specs.Spans.{Fits, within};
ghost use Rattle.table.specs.Layout.{the_table};
ghost use Rattle.table.specs.Part.{in_pairs};
ghost use Rattle.soundness.specs.Scalars.{rule1};
ghost use Rattle.soundness.specs.Valid.{rule2};
ghost use Rattle.bit_sets.specs.Sets.{has, window_words};
ghost use Rattle.sound_choices.specs.Rounds.{start_of, WindowOf};
ghost use Rattle.sound_rounds.specs.Reached.{PartsOf, RoundsChosen};
ghost use Rattle.rule_2.specs.Windows.{Passes, WordPasses};
ghost use Rattle.rule_2.specs.Cover.{covered_at, covered};

use bit_sets::has;
use bit_sets::ranges::put_pairs;
use buffers::clear;
use sections::Sections;
use sections::lookup::is_valid;
use sound_choices::choices::find_first;
use sound_rounds::rounds::{choose_rounds, reach};
use sound_rounds::starts::groups_in;
use table::Span;

const WINDOW: u32 = 0x10000;

// The windows of all codepoints.
const WINDOWS: u32 = 17;

// The words of a window's set.
const WORDS: u32 = 2048;

// Whether one of two sets holds the place d.
fn either_has(a: &[u32], b: &[u32], d: u32) -> bool
    requires a_len { length a.now ≡ window_words }
    requires b_len { length b.now ≡ window_words }
    requires d_bound { d < 0x10000 }
    ensures { result ≡ (has a.now d || has b.now d) }
{
    has(a, d) || has(b, d)
}

// Whether the first set holds the place d exactly where one of the others does.
fn covered_at(valid: &[u32], groups: &[u32], set: &[u32], d: u32) -> bool
    requires valid_len { length valid.now ≡ window_words }
    requires groups_len { length groups.now ≡ window_words }
    requires set_len { length set.now ≡ window_words }
    requires d_bound { d < 0x10000 }
    ensures { result ≡ covered_at valid.now groups.now set.now d }
{
    let spelled = either_has(groups, set, d);
    if has(valid, d) {
        return spelled;
    }
    !spelled
}

// The same for the 32 places of the word i. Rule 6 has such lines for its own test: each is one call of the library's `all`.
fn covered_places(valid: &[u32], groups: &[u32], set: &[u32], i: u32) -> bool
    requires valid_len { length valid.now ≡ window_words }
    requires groups_len { length groups.now ≡ window_words }
    requires set_len { length set.now ≡ window_words }
    requires i_lt_window_words { i < window_words }
    ensures { WordPasses (covered_at valid.now groups.now set.now) i result }
{
    (i * 32..i * 32 + 32).all(|d| covered_at(valid, groups, set, d))
}

// The same, at once where the word of the first set is what the others' words are together.
fn covered_word(valid: &[u32], groups: &[u32], set: &[u32], i: u32) -> bool
    requires valid_len { length valid.now ≡ window_words }
    requires groups_len { length groups.now ≡ window_words }
    requires set_len { length set.now ≡ window_words }
    requires i_lt_window_words { i < window_words }
    ensures { WordPasses (covered_at valid.now groups.now set.now) i result }
{
    let k = i as usize;
    let spelled = set[k] | groups[k];
    valid[k] == spelled || covered_places(valid, groups, set, i)
}

// The same for every word.
fn covered_in(valid: &[u32], groups: &[u32], set: &[u32]) -> bool
    requires valid_len { length valid.now ≡ window_words }
    requires groups_len { length groups.now ≡ window_words }
    requires set_len { length set.now ≡ window_words }
    ensures { Passes (covered_at valid.now groups.now set.now) 0x10000 result }
{
    (0..WORDS).all(|i| covered_word(valid, groups, set, i))
}

// The set of the codepoints of the pairs at s that are in the window takes the place of the set.
fn pairs_in(words: &[u32], s: Span, base: u32, set: &mut [u32])
    requires fits { Fits words.now s }
    requires set_len { length set.old ≡ window_words }
    ensures { WindowOf set.new (λ d. in_pairs (base + d) (within s words.now)) }
{
    clear(set);
    put_pairs(set, base, s.of(words));
}

// Whether every codepoint is valid exactly where it is a group's character or in the full decomposition of one.
fn all_covered(
    words: &[u32],
    ix: Sections,
    part: &[u32],
    gs: &[u32],
    rows: &[u32],
    heads: &mut [u32],
    set: &mut [u32],
    other: &mut [u32],
) -> bool
    requires laid { Laid words.now ix }
    requires parts_of { PartsOf (the_table words.now) part.now gs.now }
    requires rounds_chosen { RoundsChosen (the_table words.now) (start_of (the_table words.now) false) 4 rows.now heads.old set.old
        other.old }
    ensures { Passes (covered (the_table words.now)) 0x110000 result }
{
    // A walk like that of rule 6: a closure for the turn would hold all that is lent here, and say no less.
    for window in 0..WINDOWS {
        let base = window * WINDOW;
        reach(words, ix, part, gs, false, 4, base, rows, heads, set, other);
        groups_in(gs, base, other);
        pairs_in(words, ix.valid, base, heads);
        if !covered_in(heads, other, set) {
            return false;
        }
    }
    true
}

// Rule 2, where `part` and `gs` are the sections of the decompositions and of the groups.
fn valid_fits(words: &[u32], ix: Sections, part: &[u32], gs: &[u32]) -> bool
    requires laid { Laid words.now ix }
    requires parts_of { PartsOf (the_table words.now) part.now gs.now }
    requires words_value { rule1 (the_table words.now) ≡ true }
    ensures { result ≡ rule2 (the_table words.now) }
{
    if is_valid(words, ix, 0x2E) {
        return false;
    }
    if is_valid(words, ix, 0xFE0F) {
        return false;
    }
    let mut first = [0u32; 1366];
    let mut rows = [0u32; 5464];
    let mut heads = [0u32; 2048];
    let mut set = [0u32; 2048];
    let mut other = [0u32; 2048];
    find_first(part, &mut set, &mut first);
    choose_rounds(
        words, ix, part, gs, false, &first, &mut rows, &mut heads, &mut set, &mut other,
    );
    all_covered(words, ix, part, gs, &rows, &mut heads, &mut set, &mut other)
}

// Rule 2: valid is exactly the groups' characters and those of their full decompositions; 2E and FE0F are not among them. Rule 1 holds.
pub fn keeps_rule2(words: &[u32], ix: Sections) -> bool
    requires laid { Laid words.now ix }
    requires words_value { rule1 (the_table words.now) ≡ true }
    ensures { result ≡ rule2 (the_table words.now) }
{
    valid_fits(words, ix, ix.decompositions.of(words), ix.groups.of(words))
}
