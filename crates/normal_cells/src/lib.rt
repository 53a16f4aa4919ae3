// The tokens in the work area, decomposed, are put into normal form: each text is ordered and composed, and what follows moves down. Codepoints
// and tags stand in two parts of the area, since C lends it as one run of words.
#![tactic(auto)]

ghost use Rattle.std.specs.Prelude.{◌≤◌, ◌<◌, ◌+◌, ◌≡◌, length, take, drop};
ghost use Rattle.limits.specs.Limits.{most_worked, least_work};
ghost use Rattle.sections.specs.Laid.{Laid};
ghost use Rattle.table.specs.Layout.{the_table};
ghost use Rattle.unpaired.specs.Unpaired.{Unpaired};
ghost use Rattle.normal_cells.specs.Normal.{MovedDown, TextKept, EmojiKept, twos, NormalCells};

use composition::nfc::ordered_composed;
use limits::MOST_WORKED;
use sections::Sections;

// Moves the n codepoints from `from` on down behind the first `at`, with a tag for the first of them and one for each later one.
fn move_down(w: &mut [u32], from: usize, n: usize, at: usize, first: u32, later: u32) -> usize
    requires { (least_work ≤ length w.old) × (at ≤ from) × (from + n ≤ most_worked) }
    ensures { MovedDown w.old w.new from n at first later result }
{
    let mut tag = first;
    for i in 0..n {
        let j = at + i;
        w[j] = w[from + i];
        w[MOST_WORKED + j] = tag;
        tag = later;
    }
    at + n
}

// Puts the normal form of the text from `from` up to `to` behind the first `at` codepoints. The text is ordered and composed where it stands:
// a copy of it would stay on the stack. So the classes have an array of their own, and pairs with the codepoints would be that copy.
fn keep_text(
    words: &[u32],
    ix: Sections,
    unpaired: &mut [u32],
    w: &mut [u32],
    from: usize,
    to: usize,
    at: usize,
) -> usize
    requires laid { Laid words.now ix }
    requires unpaired { Unpaired (the_table words.now) unpaired.old }
    requires least_work_in_bounds { (least_work ≤ length w.old) × (at ≤ from) × (from < to) × (to ≤ most_worked) }
    ensures text_kept { TextKept (the_table words.now) w.old w.new from to at result }
    ensures unpaired_2 { Unpaired (the_table words.now) unpaired.new }
{
    let n = to - from;
    let mut classes = [0u32; MOST_WORKED];
    let r = ordered_composed(words, ix, unpaired, &mut w[from..to], &mut classes[..n]);
    move_down(w, from, r, at, 1, 2)
}

// Puts the codepoint of an emoji at `from` behind the first `at` codepoints.
fn keep_emoji(w: &mut [u32], from: usize, at: usize) -> usize
    requires { (least_work ≤ length w.old) × (at ≤ from) × (from < most_worked) }
    ensures { EmojiKept w.old w.new from at result }
{
    move_down(w, from, 1, at, 0, 0)
}

// The end of the text token that starts at `from`: behind its later codepoints, which have the tag 2.
fn token_end(w: &[u32], from: usize, n: usize) -> usize
    requires { (least_work ≤ length w.now) × (from < n) × (n ≤ most_worked) }
    ensures { result ≡ from + 1 + twos (drop (from + 1) (take n (drop most_worked w.now))) }
{
    for i in from + 1..n {
        if w[MOST_WORKED + i] != 2 {
            return i;
        }
    }
    n
}

// Puts the tokens that stand in the first n cells into normal form, and answers how many cells are left. `unpaired` keeps what records were found
// to be no composition pairs, for the whole call.
pub fn normalise(
    words: &[u32],
    ix: Sections,
    unpaired: &mut [u32],
    w: &mut [u32],
    n: usize,
) -> usize
    requires laid { Laid words.now ix }
    requires unpaired { Unpaired (the_table words.now) unpaired.old }
    requires least_work_in_bounds { (least_work ≤ length w.old) × (n ≤ most_worked) }
    ensures normal_cells { NormalCells (the_table words.now) w.old w.new n result }
    ensures unpaired_2 { Unpaired (the_table words.now) unpaired.new }
{
    let mut at = 0;
    let mut i = 0;
    // by hand: a token's length is its own, and the place goes on by it
    while i < n {
        if w[MOST_WORKED + i] == 0 {
            at = keep_emoji(w, i, at);
            i += 1;
            continue;
        }
        let end = token_end(w, i, n);
        at = keep_text(words, ix, unpaired, w, i, end, at);
        i = end;
    }
    at
}
