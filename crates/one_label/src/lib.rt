// One label, refusals 5 to 14 and 16.
#![tactic(auto)]

ghost use Rattle.std.specs.Prelude.{◌+◌, ◌≤◌, length};
ghost use Rattle.limits.specs.Limits.{least_work, most_input, most_worked};
ghost use Rattle.sections.specs.Laid.{Laid};
ghost use Rattle.table.specs.Layout.{the_table};
ghost use Rattle.unpaired.specs.Unpaired.{Unpaired};
ghost use Rattle.memo.specs.Memo.{Memo};
ghost use Rattle.one_label.specs.Judged.{StandingFits, Normalised, Judges, TokensJudged, QuickScans};

use answers::{Kind, Refusal};
use bit_sets::has;
use kept_scan::{Kept, scan_kept};
use label::judging::judge;
use laying::Tally;
use limits::MOST_WORKED;
use normal_cells::normalise;
use scanning::scan;
use sections::Sections;
use unpaired::QUICK_PLACE;

// What is answered for a label that is not refused: the length of its answer, its kind and its worked length. Not an `AcceptedLabel` and a length:
// the callers read each of the three by itself, and the label call's length is the one behind its own answer.
#[derive(Clone, Copy)]
pub struct JudgedLabel {
    pub length: usize,
    pub kind: Kind,
    pub worked: usize,
}

// Puts the tokens into normal form, unless they stand in it already, `standing` codepoints, and answers how many codepoints they are.
fn normalised(
    words: &[u32],
    ix: Sections,
    standing: Option<usize>,
    worked: usize,
    unpaired: &mut [u32],
    w: &mut [u32],
) -> usize
    requires laid { Laid words.now ix }
    requires unpaired { Unpaired (the_table words.now) unpaired.old }
    requires least_work_in_bounds { (least_work ≤ length w.old) × (worked ≤ most_worked) × StandingFits standing }
    ensures normalised { Normalised (the_table words.now) standing worked w.old w.new result }
    ensures unpaired_2 { Unpaired (the_table words.now) unpaired.new }
{
    match standing {
        Some(n) => n,
        None => normalise(words, ix, unpaired, w, worked),
    }
}

// 6 to 14 and 16 on the tokens that a scan has laid down: decomposed, or in normal form, `standing` codepoints.
fn judge_tokens(
    words: &[u32],
    ix: Sections,
    tally: Tally,
    standing: Option<usize>,
    done: usize,
    place: usize,
    unpaired: &mut [u32],
    w: &mut [u32],
    memo: &mut [u32],
) -> Result<JudgedLabel, Refusal>
    requires laid { Laid words.now ix }
    requires unpaired { Unpaired (the_table words.now) unpaired.old }
    requires least_work_in_bounds { (least_work ≤ length w.old) × (done ≤ most_worked + 1) × StandingFits standing }
    requires memo { Memo words.now memo.old }
    ensures tokens_judged { TokensJudged (the_table words.now) done place tally standing w.old w.new result }
    ensures unpaired_2 { Unpaired (the_table words.now) unpaired.new }
    ensures memo_2 { Memo words.now memo.new }
{
    if !tally.emoji {
        if !tally.text {
            return Err(Refusal::NoTokens(place));
        }
    }
    if tally.worked > MOST_WORKED {
        return Err(Refusal::WorkedTooLong(place));
    }
    if done + tally.worked > MOST_WORKED {
        return Err(Refusal::WorkedTooLong(place));
    }
    let length = normalised(words, ix, standing, tally.worked, unpaired, w);
    let kind = judge(words, ix, w, length, tally.emoji, tally.text, place, memo)?;
    Ok(JudgedLabel {
        length,
        kind,
        worked: tally.worked,
    })
}

// Judges the label by the scan that decomposes its text.
fn judge_scanned(
    words: &[u32],
    ix: Sections,
    label: &[u32],
    start: usize,
    done: usize,
    place: usize,
    unpaired: &mut [u32],
    w: &mut [u32],
    memo: &mut [u32],
) -> Result<JudgedLabel, Refusal>
    requires laid { Laid words.now ix }
    requires unpaired { Unpaired (the_table words.now) unpaired.old }
    requires least_work_in_bounds { (least_work ≤ length w.old) × (length label.now ≤ most_input) × (start ≤ most_input) × (done ≤ most_worked + 1) }
    requires memo { Memo words.now memo.old }
    ensures judges { Judges (the_table words.now) start done place label.now w.old w.new result }
    ensures unpaired_2 { Unpaired (the_table words.now) unpaired.new }
    ensures memo_2 { Memo words.now memo.new }
{
    let scanned = scan(words, ix, label, w);
    match scanned {
        Ok(tally) => judge_tokens(words, ix, tally, None, done, place, unpaired, w, memo),
        Err(i) => Err(Refusal::Disallowed(start + i)),
    }
}

// The scan that leaves text as it is, where rule 8 was found to hold.
fn scan_quick(
    words: &[u32],
    ix: Sections,
    label: &[u32],
    unpaired: &[u32],
    w: &mut [u32],
) -> Option<Kept>
    requires laid { Laid words.now ix }
    requires unpaired { Unpaired (the_table words.now) unpaired.now }
    requires least_work_in_bounds { (least_work ≤ length w.old) × (length label.now ≤ most_input) }
    ensures { QuickScans (the_table words.now) label.now w.old w.new result }
{
    if !has(unpaired, QUICK_PLACE) {
        return None;
    }
    scan_kept(words, ix, label, w)
}

// Judges the label that starts at `start` of the name and has the number `place`; `done` is the worked length before it. The answer of
// an accepted label stands in front in the work area. `unpaired`, and what the look-alike test remembers in `memo`, serve the labels
// behind it too.
pub fn judge_label(
    words: &[u32],
    ix: Sections,
    label: &[u32],
    start: usize,
    done: usize,
    place: usize,
    unpaired: &mut [u32],
    w: &mut [u32],
    memo: &mut [u32],
) -> Result<JudgedLabel, Refusal>
    requires laid { Laid words.now ix }
    requires unpaired { Unpaired (the_table words.now) unpaired.old }
    requires least_work_in_bounds { (least_work ≤ length w.old) × (length label.now ≤ most_input) × (start ≤ most_input) × (done ≤ most_worked + 1) }
    requires memo { Memo words.now memo.old }
    ensures judges { Judges (the_table words.now) start done place label.now w.old w.new result }
    ensures unpaired_2 { Unpaired (the_table words.now) unpaired.new }
    ensures memo_2 { Memo words.now memo.new }
{
    let kept = scan_quick(words, ix, label, unpaired, w);
    match kept {
        Some(found) => judge_tokens(
            words,
            ix,
            found.tally,
            Some(found.count),
            done,
            place,
            unpaired,
            w,
            memo,
        ),
        None => judge_scanned(words, ix, label, start, done, place, unpaired, w, memo),
    }
}
