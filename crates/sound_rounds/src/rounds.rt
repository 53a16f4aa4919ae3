// Rounds of single replacement in a window, and the records that each round replaces by.
ghost use Rattle.std.specs.Prelude.{◌≡◌, true, false, [], ℕ, ◌+◌, ◌*◌, ◌%◌, ◌<◌, ◌≤◌, length};
ghost use Rattle.lists.specs.Lists.{mem, joined_map};
ghost use Rattle.sections.specs.Laid.{Laid};
ghost use Rattle.table.specs.Layout.{the_table};
ghost use Rattle.text.specs.Hangul.{is_syllable};
ghost use Rattle.text.specs.Decomposition.{single};
ghost use Rattle.soundness.specs.Valid.{counted_from};
ghost use Rattle.bit_sets.specs.Sets.{Put, window_words};
ghost use Rattle.sound_choices.specs.Rounds.{heads_of, start_of, kept_at, Holding, rows_words};
ghost use Rattle.sound_choices.specs.Choices.{FirstSet};
ghost use Rattle.sound_rounds.specs.Reached.{PartsOf, Aligned, RoundIn, Reached, RoundsChosen};

use crate::starts::{heads_in, start_in};
use bit_sets::{has, put, put_points};
use buffers::{clear, copy_into};
use decomposition::replaced;
use sections::Sections;
use sound_choices::choices::{choose_in, put_chosen};
use text::hangul::is_syllable;

const WINDOW: u32 = 0x10000;

// The windows of all codepoints.
const WINDOWS: u32 = 17;

const ROW: u32 = 43712;

// The words of a window's set.
const WORDS: u32 = 2048;

// Puts the single replacement of c into the set, as far as it is in the window.
fn put_replaced(words: &[u32], ix: Sections, c: u32, base: u32, set: &mut [u32])
    requires laid { Laid words.now ix }
    requires set_len { length set.old ≡ window_words }
    ensures { Put set.old set.new (λ d. mem (base + d) (single (the_table words.now) c)) }
{
    let parts = replaced(words, ix, c);
    put_points(set, base, &parts.items[..parts.count]);
}

// Puts what a round makes of the codepoint at the place d into the second set, if the first one holds it and no record replaces it.
fn put_kept(
    words: &[u32],
    ix: Sections,
    heads: &[u32],
    from: &[u32],
    base: u32,
    d: u32,
    to: &mut [u32],
)
    requires laid { Laid words.now ix }
    requires heads_len { length heads.now ≡ window_words }
    requires from_len { length from.now ≡ window_words }
    requires base_bound { base < 0x110000 }
    requires d_bound { d < 0x10000 }
    requires to_len { length to.old ≡ window_words }
    ensures { Put to.old to.new (λ e. mem (base + e) (kept_at (the_table words.now) base
        from.now heads.now d)) }
{
    if !has(from, d) {
        return;
    }
    if is_syllable(base + d) {
        put_replaced(words, ix, base + d, base, to);
        return;
    }
    if !has(heads, d) {
        put(to, d);
    }
}

// The same for the 32 places of the word i.
fn put_places_kept(
    words: &[u32],
    ix: Sections,
    heads: &[u32],
    from: &[u32],
    base: u32,
    i: u32,
    to: &mut [u32],
)
    requires laid { Laid words.now ix }
    requires heads_len { length heads.now ≡ window_words }
    requires from_len { length from.now ≡ window_words }
    requires base_bound { base < 0x110000 }
    requires i_lt_window_words { i < window_words }
    requires to_len { length to.old ≡ window_words }
    ensures { Put to.old to.new
        (λ e. mem (base + e) (joined_map (kept_at (the_table words.now) base from.now heads.now)
        (counted_from (i * 32) 32))) }
{
    for d in i * 32..i * 32 + 32 {
        put_kept(words, ix, heads, from, base, d, to);
    }
}

// Whether none of the 32 codepoints from c on is a syllable.
pub fn no_syllables(c: u32) -> bool
    requires { c < 0x120000 }
    ensures { result ≡ true → (d : ℕ) → d < 32 → is_syllable (c + d) ≡ false }
{
    if c + 31 < 0xAC00 {
        return true;
    }
    0xD7A3 < c
}

// The same, at once where the set holds none of them, or a round changes none.
fn put_word_kept(
    words: &[u32],
    ix: Sections,
    heads: &[u32],
    from: &[u32],
    base: u32,
    i: u32,
    to: &mut [u32],
)
    requires laid { Laid words.now ix }
    requires heads_len { length heads.now ≡ window_words }
    requires from_len { length from.now ≡ window_words }
    requires base_bound { base < 0x110000 }
    requires i_lt_window_words { i < window_words }
    requires to_len { length to.old ≡ window_words }
    ensures { Put to.old to.new
        (λ e. mem (base + e) (joined_map (kept_at (the_table words.now) base from.now heads.now)
        (counted_from (i * 32) 32))) }
{
    let k = i as usize;
    if from[k] == 0 {
        return;
    }
    if heads[k] == 0 {
        if no_syllables(base + i * 32) {
            to[k] = to[k] | from[k];
            return;
        }
    }
    put_places_kept(words, ix, heads, from, base, i, to);
}

// The same for every word.
fn put_all_kept(words: &[u32], ix: Sections, heads: &[u32], from: &[u32], base: u32, to: &mut [u32])
    requires laid { Laid words.now ix }
    requires heads_len { length heads.now ≡ window_words }
    requires from_len { length from.now ≡ window_words }
    requires base_bound { base < 0x110000 }
    requires to_len { length to.old ≡ window_words }
    ensures { Put to.old to.new
        (λ e. mem (base + e) (joined_map (kept_at (the_table words.now) base from.now heads.now)
        (counted_from 0 0x10000))) }
{
    for i in 0..WORDS {
        put_word_kept(words, ix, heads, from, base, i, to);
    }
}

// A round in a window: what the codepoints of the list are replaced by takes their place in the set. The other set is used on the way.
fn round_in(
    words: &[u32],
    ix: Sections,
    part: &[u32],
    gs: &[u32],
    rows: &[u32],
    k: u32,
    heads: &[u32],
    base: u32,
    set: &mut [u32],
    other: &mut [u32],
)
    requires laid { Laid words.now ix }
    requires parts_of { PartsOf (the_table words.now) part.now gs.now }
    requires rows_len { length rows.now ≡ rows_words }
    requires k_bound { k < 4 }
    requires holding { Holding base heads.now (heads_of (the_table words.now).decompositions) }
    requires aligned { Aligned base }
    requires set_len { length set.old ≡ window_words }
    requires other_len { length other.old ≡ window_words }
    ensures { RoundIn (the_table words.now) base k rows.now set.old set.new
        other.new }
{
    clear(other);
    put_all_kept(words, ix, heads, set, base, other);
    put_chosen(part, rows, k * ROW, base, other);
    copy_into(set, other);
}

// Rounds in a window from the start on: the set of what is reached after k rounds takes the place of the set. The rows before the
// row k are those of the rounds before.
pub fn reach(
    words: &[u32],
    ix: Sections,
    part: &[u32],
    gs: &[u32],
    headed: bool,
    k: u32,
    base: u32,
    rows: &[u32],
    heads: &mut [u32],
    set: &mut [u32],
    other: &mut [u32],
)
    requires laid { Laid words.now ix }
    requires parts_of { PartsOf (the_table words.now) part.now gs.now }
    requires k_bound { k ≤ 4 }
    requires aligned { Aligned base }
    requires rows_len { length rows.now ≡ rows_words }
    requires heads_len { length heads.old ≡ window_words }
    requires set_len { length set.old ≡ window_words }
    requires other_len { length other.old ≡ window_words }
    ensures { Reached (the_table words.now) (start_of (the_table words.now) headed) k base rows.now
        heads.new set.new other.new }
{
    heads_in(part, base, heads);
    start_in(part, gs, headed, base, set);
    for j in 0..k {
        round_in(words, ix, part, gs, rows, j, heads, base, set, other);
    }
}

// Chooses, in the row k, the records that replace a codepoint reached after k rounds.
fn choose_round(
    words: &[u32],
    ix: Sections,
    part: &[u32],
    gs: &[u32],
    headed: bool,
    k: u32,
    first: &[u32],
    rows: &mut [u32],
    heads: &mut [u32],
    set: &mut [u32],
    other: &mut [u32],
)
    requires laid { Laid words.now ix }
    requires parts_of { PartsOf (the_table words.now) part.now gs.now }
    requires k_bound { k < 4 }
    requires first_set { FirstSet (the_table words.now).decompositions first.now }
    requires rounds_chosen { RoundsChosen (the_table words.now) (start_of (the_table words.now) headed) k rows.old heads.old set.old
        other.old }
    ensures { RoundsChosen (the_table words.now) (start_of (the_table words.now) headed) (k + 1)
        rows.new heads.new set.new other.new }
{
    for window in 0..WINDOWS {
        let base = window * WINDOW;
        reach(
            words, ix, part, gs, headed, k, base, rows, heads, set, other,
        );
        choose_in(part, first, set, base, rows, k * ROW);
    }
}

// The same for all four rounds. No record is chosen yet.
pub fn choose_rounds(
    words: &[u32],
    ix: Sections,
    part: &[u32],
    gs: &[u32],
    headed: bool,
    first: &[u32],
    rows: &mut [u32],
    heads: &mut [u32],
    set: &mut [u32],
    other: &mut [u32],
)
    requires laid { Laid words.now ix }
    requires parts_of { PartsOf (the_table words.now) part.now gs.now }
    requires first_set { FirstSet (the_table words.now).decompositions first.now }
    requires rounds_chosen { RoundsChosen (the_table words.now) (start_of (the_table words.now) headed) 0 rows.old heads.old set.old
        other.old }
    ensures { RoundsChosen (the_table words.now) (start_of (the_table words.now) headed) 4 rows.new
        heads.new set.new other.new }
{
    for k in 0..4 {
        choose_round(
            words, ix, part, gs, headed, k, first, rows, heads, set, other,
        );
    }
}
