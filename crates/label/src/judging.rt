// The verdict on the tokens of a label, as they stand in the work area: refusals 8 to 14 and 16, and the kind. The memo is the look-alike test's, for
// the labels of one name.
ghost use Rattle.std.specs.Prelude.{◌≡◌, ◌≤◌, length};
ghost use Rattle.limits.specs.Limits.{least_work, most_worked};
ghost use Rattle.sections.specs.Laid.{Laid};
ghost use Rattle.table.specs.Layout.{the_table};
ghost use Rattle.memo.specs.Memo.{Memo};
ghost use Rattle.spelling.specs.CellTags.{codes_in, tags_in};
ghost use Rattle.label.specs.Judge.{judge_ascii, judge_text};
ghost use Rattle.label.specs.CellText.{text_at};
ghost use Rattle.label.specs.Judging.{verdict_of, in_group, mixed_at, judge_at, CellsJudged};

use crate::cells::text_alone;
use answers::{GroupKind, Kind, Refusal};
use compounds::compounds_fit;
use groups::{FoundGroup, group_of};
use limits::MOST_WORKED;
use lookalike::confusable;
use nsm_text::nsm_fits;
use sections::Sections;
use spelling::{all_ascii, fenced, hyphens, leading_mark, low_line};

// A single text token below 80 hex: rules 8 and 9, kind ASCII.
fn judge_ascii(s: &[u32], place: usize) -> Result<Kind, Refusal>
    ensures { verdict_of result ≡ judge_ascii place s.now }
{
    if low_line(s) {
        return Err(Refusal::LowLine(place));
    }
    if hyphens(s) {
        return Err(Refusal::Hyphens(place));
    }
    Ok(Kind::Ascii)
}

// In the group that holds the text: 16, then 13, which is spared to a whitelisted group, then 14; the kind is the group.
fn judge_in_group(
    words: &[u32],
    ix: Sections,
    text: &[u32],
    group: FoundGroup,
    place: usize,
    memo: &mut [u32],
) -> Result<Kind, Refusal>
    requires laid { Laid words.now ix }
    requires memo { Memo words.now memo.old }
    ensures result_value { verdict_of result ≡ in_group (the_table words.now) place text.now group.number group.restricted group.whitelisted }
    ensures memo_2 { Memo words.now memo.new }
{
    let FoundGroup {
        number,
        restricted,
        whitelisted,
    } = group;
    if !compounds_fit(words, ix, whitelisted, number, text) {
        return Err(Refusal::Compound(place));
    }
    if !whitelisted && !nsm_fits(words, ix, text) {
        return Err(Refusal::NsmRun(place));
    }
    if confusable(words, ix, text, memo) {
        return Err(Refusal::Confusable(place));
    }
    Ok(Kind::Group(GroupKind { number, restricted }))
}

// The text alone: 12 where no group holds it, else 16, 13 and 14 in the first that does.
fn judge_text(
    words: &[u32],
    ix: Sections,
    w: &mut [u32],
    n: usize,
    place: usize,
    memo: &mut [u32],
) -> Result<Kind, Refusal>
    requires laid { Laid words.now ix }
    requires least_work_in_bounds { least_work ≤ length w.old }
    requires n_le_most_worked { n ≤ most_worked }
    requires memo { Memo words.now memo.old }
    ensures cells_judged { CellsJudged (judge_text (the_table words.now) place (text_at (codes_in w.old n) (tags_in w.old n)))
        w.old w.new result }
    ensures memo_2 { Memo words.now memo.new }
{
    let m = text_alone(w, n);
    let text = &w[MOST_WORKED..MOST_WORKED + m];
    match group_of(words, ix, text).found {
        Some(group) => judge_in_group(words, ix, text, group, place, memo),
        None => Err(Refusal::NoGroup(place)),
    }
}

// Other tokens: 8 and 10 over all codepoints, 11 for each text token, then the text alone.
fn judge_mixed(
    words: &[u32],
    ix: Sections,
    w: &mut [u32],
    n: usize,
    place: usize,
    memo: &mut [u32],
) -> Result<Kind, Refusal>
    requires laid { Laid words.now ix }
    requires least_work_in_bounds { least_work ≤ length w.old }
    requires n_le_most_worked { n ≤ most_worked }
    requires memo { Memo words.now memo.old }
    ensures cells_judged { CellsJudged (mixed_at (the_table words.now) place (codes_in w.old n) (tags_in w.old n))
        w.old w.new result }
    ensures memo_2 { Memo words.now memo.new }
{
    if low_line(&w[..n]) {
        return Err(Refusal::LowLine(place));
    }
    if fenced(words, ix, &w[..n]) {
        return Err(Refusal::Fenced(place));
    }
    if leading_mark(words, ix, w, n) {
        return Err(Refusal::LeadingMark(place));
    }
    judge_text(words, ix, w, n, place, memo)
}

// 8 to 14 and 16, and the kind, on tokens in normal form, n codepoints; `emoji` and `text` say whether there are tokens of that kind.
pub fn judge(
    words: &[u32],
    ix: Sections,
    w: &mut [u32],
    n: usize,
    emoji: bool,
    text: bool,
    place: usize,
    memo: &mut [u32],
) -> Result<Kind, Refusal>
    requires laid { Laid words.now ix }
    requires least_work_in_bounds { least_work ≤ length w.old }
    requires n_le_most_worked { n ≤ most_worked }
    requires memo { Memo words.now memo.old }
    ensures cells_judged { CellsJudged (judge_at (the_table words.now) place (codes_in w.old n) (tags_in w.old n) emoji text)
        w.old w.new result }
    ensures memo_2 { Memo words.now memo.new }
{
    if !text {
        return Ok(Kind::Emoji);
    }
    if !emoji && all_ascii(&w[..n]) {
        return judge_ascii(&w[..n], place);
    }
    judge_mixed(words, ix, w, n, place, memo)
}
