// The scan of a label whose text needs no NFC: text is laid down as it is, and the worked length counted by what it is decomposed to. It is
// given up at the first codepoint of text that is in the quick-check set or whose class is out of order: the scan that decomposes decides then.
#![tactic(auto)]

ghost use Rattle.std.specs.Prelude.{◌≤◌, ◌≡◌, true, length};
ghost use Rattle.limits.specs.Limits.{most_input, least_work};
ghost use Rattle.sections.specs.Laid.{Laid};
ghost use Rattle.table.specs.Layout.{the_table};
ghost use Rattle.table.specs.Spans.{within};
ghost use Rattle.finder.specs.Match.{SequenceFits};
ghost use Rattle.tokens.specs.Scan.{codepoint_step};
ghost use Rattle.tokens.specs.Single.{ItemsThere};
ghost use Rattle.scanning.specs.Scanning.{first_step};
ghost use Rattle.kept_scan.specs.Keeping.{follows, MayKeep, TextKept, ItemsKept, EmojiKept, StepKept, StepTook, KeptScans};

use decomposition::append_decomposed;
use finder::emoji::find;
use laying::{Run, Tally, put_emoji};
use limits::MOST_WORKED;
use sections::Sections;
use sections::lookup::in_quick_check;
use table::Span;
use text::class::class_of;
use tokens::single::{Single, alone};

// What is laid down so far, its worked length, and the class of the last codepoint of the running text, 0 where there is none.
#[derive(Clone, Copy)]
pub struct Held {
    pub run: Run,
    pub worked: usize,
    pub class: u32,
}

// What one step gave, and how much of the label it took.
#[derive(Clone, Copy)]
pub struct Took {
    pub taken: usize,
    pub held: Held,
}

// What the scan gives where it comes to the end: the number of codepoints that stand in the work area, and the tally of the tokens.
#[derive(Clone, Copy)]
pub struct Kept {
    pub count: usize,
    pub tally: Tally,
}

// Whether a codepoint of class k stands in order behind one of class j.
fn stands_behind(j: u32, k: u32) -> bool
    ensures { result ≡ follows j k }
{
    if k == 0 {
        return true;
    }
    j <= k
}

// Whether c, which has this class, may be laid down as it is.
fn may_keep(words: &[u32], ix: Sections, held: Held, class: u32, c: u32) -> bool
    requires { Laid words.now ix }
    ensures { result ≡ true → MayKeep (the_table words.now) held class c }
{
    if held.run.tally.worked >= MOST_WORKED {
        return false;
    }
    if held.worked > MOST_WORKED {
        return false;
    }
    if !stands_behind(held.class, class) {
        return false;
    }
    !in_quick_check(words, ix, c)
}

// Lays one codepoint of text down as it is, or gives the scan up.
fn keep_text(words: &[u32], ix: Sections, w: &mut [u32], held: Held, c: u32) -> Option<Held>
    requires laid { Laid words.now ix }
    requires least_work_in_bounds { least_work ≤ length w.old }
    ensures { TextKept (the_table words.now) w.old w.new c held result }
{
    let run = held.run;
    let n = run.tally.worked;
    let class = class_of(words, ix, c);
    if !may_keep(words, ix, held, class, c) {
        return None;
    }
    let worked = append_decomposed(words, ix, &mut w[..0], held.worked, c);
    w[n] = c;
    w[MOST_WORKED + n] = run.tag;
    Some(Held {
        run: Run {
            tally: Tally {
                worked: n + 1,
                text: true,
                ..run.tally
            },
            tag: 2,
        },
        worked,
        class,
    })
}

// Lays the items of a mapping down as they are.
fn keep_items(words: &[u32], ix: Sections, w: &mut [u32], held: Held, items: Span) -> Option<Held>
    requires laid { Laid words.now ix }
    requires least_work_in_bounds { (least_work ≤ length w.old) × ItemsThere words.now items }
    ensures { ItemsKept (the_table words.now) w.old w.new (within items words.now) held result }
{
    let mut r = held;
    for &c in items.of(words) {
        r = keep_text(words, ix, w, r, c)?;
    }
    Some(r)
}

// Lays an emoji down, "stripped of FE0F".
fn keep_emoji(words: &[u32], w: &mut [u32], held: Held, sequence: Span) -> Option<Held>
    requires { (least_work ≤ length w.old) × SequenceFits words.now sequence }
    ensures { EmojiKept words.now w.old w.new sequence held result }
{
    let run = held.run;
    if held.worked > MOST_WORKED {
        return None;
    }
    let next = put_emoji(words, w, run, sequence);
    if next.tally.worked > MOST_WORKED {
        return None;
    }
    Some(Held {
        run: next,
        worked: held.worked + (next.tally.worked - run.tally.worked),
        class: 0,
    })
}

// Takes one codepoint that no emoji sequence takes.
fn keep_one(words: &[u32], ix: Sections, w: &mut [u32], held: Held, c: u32) -> Option<Held>
    requires laid { Laid words.now ix }
    requires least_work_in_bounds { least_work ≤ length w.old }
    ensures { StepKept (the_table words.now) (codepoint_step (the_table words.now) c) w.old w.new held result }
{
    let found = alone(words, ix, c);
    match found {
        Single::Valid => keep_text(words, ix, w, held, c),
        Single::Mapped(s) => keep_items(words, ix, w, held, s),
        Single::Ignored => Some(held),
        Single::Disallowed => None,
    }
}

// Takes one step at the start of the rest of a label: an emoji sequence, or else one codepoint.
fn keep_step(words: &[u32], ix: Sections, rest: &[u32], w: &mut [u32], held: Held) -> Option<Took>
    requires laid { Laid words.now ix }
    requires least_work_in_bounds { (least_work ≤ length w.old) × (1 ≤ length rest.now) }
    ensures { StepTook (the_table words.now) (first_step (the_table words.now) rest.now) w.old w.new held result }
{
    let found = find(words, ix, rest);
    match found {
        Some(m) => {
            let next = keep_emoji(words, w, held, m.sequence)?;
            Some(Took {
                taken: m.taken,
                held: next,
            })
        }
        None => {
            let next = keep_one(words, ix, w, held, rest[0])?;
            Some(Took {
                taken: 1,
                held: next,
            })
        }
    }
}

// Scans a label, as long as its text passes. Where it does to the end, the tokens stand in the work area in normal form: they are as they were.
// `scan` of scanning has this loop over another state, and does not share it for the reason that stands at `put_items` of laying.
pub fn scan_kept(words: &[u32], ix: Sections, label: &[u32], w: &mut [u32]) -> Option<Kept>
    requires laid { Laid words.now ix }
    requires least_work_in_bounds { (least_work ≤ length w.old) × (length label.now ≤ most_input) }
    ensures { KeptScans (the_table words.now) label.now w.old w.new result }
{
    let run = Run {
        tally: Tally {
            worked: 0,
            emoji: false,
            text: false,
        },
        tag: 1,
    };
    let mut held = Held {
        run,
        worked: 0,
        class: 0,
    };
    let mut at = 0;
    // by hand: a step takes what its token is long, and the place goes on by it
    while at < label.len() {
        let took = keep_step(words, ix, &label[at..], w, held)?;
        held = took.held;
        at += took.taken;
    }
    let worked = held.worked;
    if worked > MOST_WORKED {
        return None;
    }
    let tally = held.run.tally;
    Some(Kept {
        count: tally.worked,
        tally: Tally { worked, ..tally },
    })
}
