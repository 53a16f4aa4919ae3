// The scan of a label into tokens, laid down in the work area.
#![tactic(auto)]

ghost use Rattle.std.specs.Prelude.{◌≤◌, length};
ghost use Rattle.limits.specs.Limits.{most_input, least_work};
ghost use Rattle.sections.specs.Laid.{Laid};
ghost use Rattle.table.specs.Layout.{the_table};
ghost use Rattle.tokens.specs.Scan.{codepoint_step};
ghost use Rattle.scanning.specs.Scanning.{StepPut, first_step, Scans};

use finder::emoji::find;
use laying::{Run, Tally, put_emoji, put_items, put_text};
use sections::Sections;
use tokens::single::{Single, alone};

// What a step took: the emoji of the record with this number, with so many FE0F of the input, or one codepoint.
#[derive(Clone, Copy)]
pub enum Which {
    Emoji { number: usize, selectors: usize },
    Codepoint,
}

// What one step gave: how much of the label it took, what that was, and the run behind it.
#[derive(Clone, Copy)]
pub struct Stepped {
    pub taken: usize,
    pub which: Which,
    pub run: Run,
}

// Takes one codepoint that no emoji sequence takes, unless it is disallowed.
fn take_one(words: &[u32], ix: Sections, w: &mut [u32], run: Run, c: u32) -> Option<Stepped>
    requires laid { Laid words.now ix }
    requires least_work_in_bounds { least_work ≤ length w.old }
    ensures { StepPut (the_table words.now) (codepoint_step (the_table words.now) c) w.old w.new run result }
{
    let found = alone(words, ix, c);
    match found {
        Single::Valid => Some(Stepped {
            taken: 1,
            which: Which::Codepoint,
            run: put_text(words, ix, w, run, c),
        }),
        Single::Mapped(s) => Some(Stepped {
            taken: 1,
            which: Which::Codepoint,
            run: put_items(words, ix, w, run, s),
        }),
        Single::Ignored => Some(Stepped {
            taken: 1,
            which: Which::Codepoint,
            run,
        }),
        Single::Disallowed => None,
    }
}

// Takes one step at the start of the rest of a label: an emoji sequence, or else one codepoint, unless it is disallowed.
fn step(words: &[u32], ix: Sections, rest: &[u32], w: &mut [u32], run: Run) -> Option<Stepped>
    requires laid { Laid words.now ix }
    requires least_work_in_bounds { (least_work ≤ length w.old) × (1 ≤ length rest.now) }
    ensures { StepPut (the_table words.now) (first_step (the_table words.now) rest.now) w.old w.new run result }
{
    let found = find(words, ix, rest);
    match found {
        Some(m) => Some(Stepped {
            taken: m.taken,
            which: Which::Emoji {
                number: m.number,
                selectors: m.selectors,
            },
            run: put_emoji(words, w, run, m.sequence),
        }),
        None => take_one(words, ix, w, run, rest[0]),
    }
}

// Scans a label: the place of a disallowed codepoint, or the tally of its tokens. As long as the worked length is at most MOST_WORKED the tokens,
// their text decomposed, stand in the work area; past that 5 alone is looked for.
pub fn scan(words: &[u32], ix: Sections, label: &[u32], w: &mut [u32]) -> Result<Tally, usize>
    requires laid { Laid words.now ix }
    requires least_work_in_bounds { (least_work ≤ length w.old) × (length label.now ≤ most_input) }
    ensures { Scans (the_table words.now) label.now w.old w.new result }
{
    let mut run = Run {
        tally: Tally {
            worked: 0,
            emoji: false,
            text: false,
        },
        tag: 1,
    };
    let mut at = 0;
    // by hand: a step takes what its token is long, and the place goes on by it
    while at < label.len() {
        let next = step(words, ix, &label[at..], w, run).ok_or(at)?;
        run = next.run;
        at += next.taken;
    }
    Ok(run.tally)
}
