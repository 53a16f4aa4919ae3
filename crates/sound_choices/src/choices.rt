// Decomposition records that are chosen, a bit for each: a row of bits for each round.
ghost use Rattle.std.specs.Prelude.{◌≡◌, true, false, ◌&&◌, ◌+◌, ◌-◌, ◌*◌, ◌<◌, ◌≤◌, length, eqb};
ghost use Rattle.lists.specs.Lists.{all, mem};
ghost use Rattle.table.specs.Layout.{most_words};
ghost use Rattle.table.specs.Part.{records_in};
ghost use Rattle.sound_parts.specs.Parts.{Holds, as_headed};
ghost use Rattle.bit_sets.specs.Sets.{has, Put, SetOf, window_words};
ghost use Rattle.sound_choices.specs.Rounds.{heads_of, head_at, chosen_items, row_words, row_places, rows_words};
ghost use Rattle.sound_choices.specs.Choices.{is_point, Seen, row_of, FirstsIn, FirstFound, chooses_in};

use bit_sets::{has, put, put_points};
use buffers::clear;
use records::Heads;
use text::hangul::is_syllable;

const WINDOW: u32 = 0x10000;

// The windows of all codepoints.
const WINDOWS: u32 = 17;

// The places of a row; a part has no more records.
const ROW: u32 = 43712;

// Puts the head h of the record i to those seen, if it is in the window. Chooses the record, if the head was not there before and is no
// syllable.
fn see(seen: &mut [u32], first: &mut [u32], base: u32, h: u32, i: u32)
    requires seen_len { length seen.old ≡ window_words }
    requires first_len { length first.old ≡ row_words }
    requires i_lt_row_places { i < row_places }
    ensures { Seen base h i seen.old seen.new first.old first.new }
{
    if h < base {
        return;
    }
    let d = h - base;
    if WINDOW <= d {
        return;
    }
    if has(seen, d) {
        return;
    }
    put(seen, d);
    if !is_syllable(h) {
        put(first, i);
    }
}

// Chooses the records that replace their heads, of those whose heads are in the window. No head was seen before.
fn first_in(part: &[u32], base: u32, seen: &mut [u32], first: &mut [u32])
    requires holds { Holds as_headed part.now }
    requires part_len_bound { length part.now ≤ most_words }
    requires seen_len { length seen.old ≡ window_words }
    requires first_len { length first.old ≡ row_words }
    ensures { FirstsIn base (records_in as_headed part.now) first.old first.new seen.new }
{
    clear(seen);
    for (i, (head, _)) in (0..ROW).zip(Heads::of(part)) {
        see(seen, first, base, head, i);
    }
}

// Chooses the records that replace their heads. The set `first` is empty, and `seen` is used on the way.
pub fn find_first(part: &[u32], seen: &mut [u32], first: &mut [u32])
    requires holds { Holds as_headed part.now }
    requires part_len_bound { length part.now ≤ most_words }
    requires part_value { all is_point (heads_of (records_in as_headed part.now)) ≡ true }
    requires seen_len { length seen.old ≡ window_words }
    requires first_len { length first.old ≡ row_words }
    requires set_of { SetOf first.old (λ i. false) }
    ensures { FirstFound (records_in as_headed part.now) first.new seen.new }
{
    for window in 0..WINDOWS {
        first_in(part, window * WINDOW, seen, first);
    }
}

// Chooses the record i in the row that starts at `row`, if it replaces its head h, and that is in the window and the set.
fn choose(first: &[u32], set: &[u32], base: u32, h: u32, rows: &mut [u32], row: u32, i: u32)
    requires first_len { length first.now ≡ row_words }
    requires set_len { length set.now ≡ window_words }
    requires i_lt_row_places { i < row_places }
    requires i_in_bounds { row + i < length rows.old * 32 }
    requires rows_len { length rows.old ≡ rows_words }
    ensures { Put rows.old rows.new (λ e. eqb e (row + i) && chooses_in base h i first.now
        set.now) }
{
    if h < base {
        return;
    }
    let d = h - base;
    if WINDOW <= d {
        return;
    }
    if !has(first, i) {
        return;
    }
    if has(set, d) {
        put(rows, row + i);
    }
}

// The same for every record.
pub fn choose_in(part: &[u32], first: &[u32], set: &[u32], base: u32, rows: &mut [u32], row: u32)
    requires holds { Holds as_headed part.now }
    requires part_len_bound { length part.now ≤ most_words }
    requires first_len { length first.now ≡ row_words }
    requires set_len { length set.now ≡ window_words }
    requires row_places_in_bounds { row + row_places ≤ length rows.old * 32 }
    requires rows_len { length rows.old ≡ rows_words }
    ensures { Put rows.old rows.new (row_of row (records_in as_headed part.now)
        (λ i. chooses_in base (head_at (records_in as_headed part.now) i) i first.now set.now)) }
{
    for (i, (head, _)) in (0..ROW).zip(Heads::of(part)) {
        choose(first, set, base, head, rows, row, i);
    }
}

// Puts the items into the set that are in the window, if the place e of the rows is chosen.
fn put_if_chosen(items: &[u32], rows: &[u32], e: u32, base: u32, set: &mut [u32])
    requires e_in_bounds { e < length rows.now * 32 }
    requires set_len { length set.old ≡ window_words }
    ensures { Put set.old set.new (λ d. has rows.now e && mem (base + d) items.now) }
{
    if has(rows, e) {
        put_points(set, base, items);
    }
}

// The same for every record and its place in the row.
pub fn put_chosen(part: &[u32], rows: &[u32], row: u32, base: u32, set: &mut [u32])
    requires holds { Holds as_headed part.now }
    requires part_len_bound { length part.now ≤ most_words }
    requires row_places_in_bounds { row + row_places ≤ length rows.now * 32 }
    requires rows_len { length rows.now ≡ rows_words }
    requires set_len { length set.old ≡ window_words }
    ensures { Put set.old set.new
        (λ d. mem (base + d) (chosen_items (λ i. has rows.now (row + i)) 0 (records_in as_headed part.now))) }
{
    for (i, (_, items)) in (0..ROW).zip(Heads::of(part)) {
        put_if_chosen(items, rows, row + i, base, set);
    }
}
