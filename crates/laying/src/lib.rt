// Laying tokens down in the work area: codepoints in its first MOST_WORKED words, tags beside them in the next MOST_WORKED, since C lends the area
// as one run of words. Each codepoint is written to its place at once: what is copied stays on the stack.
#![tactic(auto)]

ghost use Rattle.std.specs.Prelude.{◌≤◌, ◌-◌, ◌≡◌, length};
ghost use Rattle.limits.specs.Limits.{most_worked, least_work};
ghost use Rattle.table.specs.Layout.{most_items, the_table};
ghost use Rattle.sections.specs.Laid.{Laid};
ghost use Rattle.table.specs.Spans.{within};
ghost use Rattle.decomposition.specs.Rounds.{Appended};
ghost use Rattle.finder.specs.Emoji.{strip};
ghost use Rattle.finder.specs.Match.{SequenceFits};
ghost use Rattle.tokens.specs.Single.{ItemsThere};
ghost use Rattle.laying.specs.Laying.{next_tag, TagsPut, EmojiPut, TextPut, ItemsPut};

use decomposition::{append_decomposed, put};
use limits::MOST_WORKED;
use sections::Sections;
use table::Span;

// What tokens come to: their worked length, or a number over MOST_WORKED where it is over, and not by how much; and whether there are emoji and
// text.
#[derive(Clone, Copy)]
pub struct Tally {
    pub worked: usize,
    pub emoji: bool,
    pub text: bool,
}

// What is laid down so far, and the tag of the next codepoint of text. Past the limit nothing is decomposed or laid down any more.
#[derive(Clone, Copy)]
pub struct Run {
    pub tally: Tally,
    pub tag: u32,
}

// Tags the codepoints from `from` up to `to`, the first of them with `first` and each later one with `later`, if they are not over.
fn put_tags(w: &mut [u32], from: usize, to: usize, first: u32, later: u32)
    requires { least_work ≤ length w.old }
    ensures { TagsPut w.old w.new from to first later }
{
    if MOST_WORKED < to {
        return;
    }
    let mut tag = first;
    for i in from..to {
        w[MOST_WORKED + i] = tag;
        tag = later;
    }
}

// Writes the sequence without its FE0F at `at`, as far as there is room, and answers the place behind it.
fn strip_into(seq: &[u32], out: &mut [u32], at: usize) -> usize
    requires { (at ≤ most_worked) × (length seq.now ≤ most_items) }
    ensures { Appended out.old out.new at (strip seq.now) result }
{
    let mut to = at;
    for &c in seq {
        if c == 0xFE0F {
            continue;
        }
        to = put(out, to, c);
    }
    to
}

// Lays an emoji down, "stripped of FE0F".
pub fn put_emoji(words: &[u32], w: &mut [u32], run: Run, sequence: Span) -> Run
    requires { (least_work ≤ length w.old) × SequenceFits words.now sequence }
    ensures { EmojiPut words.now w.old w.new sequence run result }
{
    let n = run.tally.worked;
    if MOST_WORKED < n {
        return Run {
            tally: Tally {
                emoji: true,
                ..run.tally
            },
            tag: 1,
        };
    }
    let end = strip_into(sequence.of(words), &mut w[..MOST_WORKED], n);
    put_tags(w, n, end, 0, 0);
    Run {
        tally: Tally {
            worked: end,
            emoji: true,
            ..run.tally
        },
        tag: 1,
    }
}

// The tag of the next codepoint of a text behind those from `from` up to `to`.
fn next_tag(tag: u32, from: usize, to: usize) -> u32
    requires { from ≤ to }
    ensures { result ≡ next_tag tag (to - from) }
{
    if from == to {
        return tag;
    }
    2
}

// Lays one codepoint of text down, decomposed.
pub fn put_text(words: &[u32], ix: Sections, w: &mut [u32], run: Run, c: u32) -> Run
    requires laid { Laid words.now ix }
    requires least_work_in_bounds { least_work ≤ length w.old }
    ensures { TextPut (the_table words.now) w.old w.new c run result }
{
    let at = run.tally.worked;
    if MOST_WORKED < at {
        return Run {
            tally: Tally {
                text: true,
                ..run.tally
            },
            ..run
        };
    }
    let end = append_decomposed(words, ix, &mut w[..MOST_WORKED], at, c);
    put_tags(w, at, end, run.tag, 2);
    let tag = next_tag(run.tag, at, end);
    Run {
        tally: Tally {
            worked: end,
            text: true,
            ..run.tally
        },
        tag,
    }
}

// Lays the items of a mapping down, decomposed. `keep_items` of kept_scan has this loop over another state: a function that took the step would
// need the step's promise in its own contract, and be longer than both.
pub fn put_items(words: &[u32], ix: Sections, w: &mut [u32], run: Run, items: Span) -> Run
    requires laid { Laid words.now ix }
    requires least_work_in_bounds { (least_work ≤ length w.old) × ItemsThere words.now items }
    ensures { ItemsPut (the_table words.now) w.old w.new (within items words.now) run result }
{
    let mut r = run;
    for &c in items.of(words) {
        r = put_text(words, ix, w, r, c);
    }
    r
}
