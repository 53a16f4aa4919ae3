// The label call: its answer, and each word of both buffers.
#![tactic(auto)]

ghost use Rattle.std.specs.Prelude.{◌≤◌, length};
ghost use Rattle.limits.specs.Limits.{most_input, least_work};
ghost use Rattle.sections.specs.Laid.{Laid};
ghost use Rattle.table.specs.Layout.{the_table};
ghost use Rattle.memo.specs.Memo.{Memo};
ghost use Rattle.name.specs.Label.{one_label, label_before15};
ghost use Rattle.name.specs.Calls.{LabelCalls, LabelJudged, BeforeStop};

use answers::{AcceptedLabel, Refusal, label_length};
use ending::finish;
use memo::MEMO;
use name::admit::admit;
use name::labels::{label_end, put_label};
use one_label::judge_label;
use quick_asked::ask;
use scanning::scan;
use sections::Sections;
use unpaired::KNOWN_WORDS;
use unpaired::index::index_pairs;

// The place of refusal 5 in a part that a stop stands behind: in the part, or at the stop.
fn before_stop(words: &[u32], ix: Sections, part: &[u32], w: &mut [u32]) -> usize
    requires laid { Laid words.now ix }
    requires least_work_in_bounds { (least_work ≤ length w.old) × (length part.now ≤ most_input) }
    ensures { BeforeStop (the_table words.now) part.now w.old w.new result }
{
    let scanned = scan(words, ix, part, w);
    match scanned {
        Err(i) => i,
        Ok(_) => part.len(),
    }
}

// Judges the one label of the label call: a stop in it is refused as 5.
fn judge_one(
    words: &[u32],
    ix: Sections,
    setting: u32,
    input: &[u32],
    answer: &mut [u32],
    w: &mut [u32],
    memo: &mut [u32],
) -> Result<AcceptedLabel, Refusal>
    requires laid { Laid words.now ix }
    requires least_work_in_bounds { (least_work ≤ length w.old) × (length input.now ≤ most_input) }
    requires memo { Memo words.now memo.old }
    ensures { LabelJudged (one_label setting (the_table words.now) input.now) answer.old answer.new w.old w.new result }
{
    let end = label_end(input, 0);
    if end < input.len() {
        let at = before_stop(words, ix, &input[..end], w);
        return Err(Refusal::Disallowed(at));
    }
    let mut unpaired = [0u32; KNOWN_WORDS];
    index_pairs(words, ix, &mut unpaired);
    ask(words, ix, &mut unpaired, input.len());
    let judged = judge_label(words, ix, input, 0, 0, 0, &mut unpaired, w, memo)?;
    let kind = judged.kind;
    if kind.is_barred(setting) {
        return Err(Refusal::Restricted(0));
    }
    let length = put_label(answer, 0, true, &w[..judged.length]);
    Ok(AcceptedLabel { length, kind })
}

// Judges a label as far as 14 and 17; 15 and the clearing of both buffers are left to the call.
pub fn judge_input(
    setting: u32,
    words: &[u32],
    input: &[u32],
    answer: &mut [u32],
    work: &mut [u32],
) -> Result<AcceptedLabel, Refusal>
    ensures { LabelJudged (label_before15 setting words.now input.now (length work.old)) answer.old answer.new work.old work.new result }
{
    let ix = admit(words, input, work.len())?;
    let mut memo = [0; MEMO];
    judge_one(words, ix, setting, input, answer, work, &mut memo[0..MEMO])
}

// Normalises one label into `answer`, and answers its length and its kind; both buffers are left as by the name call.
pub fn label(
    input: &[u32],
    words: &[u32],
    setting: u32,
    answer: &mut [u32],
    work: &mut [u32],
) -> Result<AcceptedLabel, Refusal>
    ensures { LabelCalls setting words.now input.now answer.old answer.new work.old work.new result }
{
    let judged = judge_input(setting, words, input, answer, work);
    let length = label_length(judged);
    if !finish(answer, work, length) {
        return Err(Refusal::BufferTooSmall);
    }
    judged
}
