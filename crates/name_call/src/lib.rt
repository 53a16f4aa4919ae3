// The name call: its answer, and each word of both buffers.
#![tactic(auto)]

ghost use Rattle.std.specs.Prelude.{◌≤◌, length};
ghost use Rattle.limits.specs.Limits.{most_input, least_work};
ghost use Rattle.sections.specs.Laid.{Laid};
ghost use Rattle.table.specs.Layout.{the_table};
ghost use Rattle.memo.specs.Memo.{Memo};
ghost use Rattle.name.specs.Name.{labels_of, labels_verdict, name_before15};
ghost use Rattle.name.specs.Calls.{NameCalls, NameJudged};

use answers::{AcceptedName, Refusal, name_length};
use ending::finish;
use memo::MEMO;
use name::admit::admit;
use name::labels::put_label;
use one_label::judge_label;
use quick_asked::ask;
use sections::Sections;
use unpaired::KNOWN_WORDS;
use unpaired::index::index_pairs;

// Judges the labels of a name from the left, and writes the answer of each into the part behind the last stop. The empty name has none.
fn judge_labels(
    words: &[u32],
    ix: Sections,
    setting: u32,
    name: &[u32],
    answer: &mut [u32],
    w: &mut [u32],
    memo: &mut [u32],
) -> Result<AcceptedName, Refusal>
    requires laid { Laid words.now ix }
    requires least_work_in_bounds { (least_work ≤ length w.old) × (length name.now ≤ most_input) }
    requires memo { Memo words.now memo.old }
    ensures { NameJudged name.now (labels_verdict setting (the_table words.now) 0 0 0 (labels_of name.now)) answer.old answer.new w.old w.new result }
{
    if name.len() == 0 {
        return Ok(AcceptedName {
            length: 0,
            labels: 0,
        });
    }
    let mut unpaired = [0u32; KNOWN_WORDS];
    index_pairs(words, ix, &mut unpaired);
    ask(words, ix, &mut unpaired, name.len());
    let mut at = 0;
    let mut done = 0;
    let mut place = 0;
    let mut len = 0;
    for label in name.split(|&c| c == 0x2E) {
        let judged = judge_label(words, ix, label, at, done, place, &mut unpaired, w, memo)?;
        if judged.kind.is_barred(setting) {
            return Err(Refusal::Restricted(place));
        }
        len = put_label(answer, len, place == 0, &w[..judged.length]);
        done += judged.worked + 1;
        place += 1;
        at += label.len() + 1;
    }
    Ok(AcceptedName {
        length: len,
        labels: place,
    })
}

// Judges a name as far as 14 and 17. The label call and the screen form begin so too: what they share is `admit`, and what follows it takes other
// arguments and has another promise in each.
pub fn judge_name(
    setting: u32,
    words: &[u32],
    input: &[u32],
    answer: &mut [u32],
    work: &mut [u32],
) -> Result<AcceptedName, Refusal>
    ensures { NameJudged input.now (name_before15 setting words.now input.now (length work.old)) answer.old answer.new work.old work.new result }
{
    let ix = admit(words, input, work.len())?;
    let mut memo = [0; MEMO];
    judge_labels(words, ix, setting, input, answer, work, &mut memo[0..MEMO])
}

// Normalises a name into `answer`, and answers its length and the number of its labels. The words behind the answer and the work area
// are cleared; a refusal clears both buffers. 15 is judged last. With a setting other than 0, labels of restricted groups are refused. The label
// call and the screen form end so too, each over its own answer: `finish` is what they share.
pub fn name(
    input: &[u32],
    words: &[u32],
    setting: u32,
    answer: &mut [u32],
    work: &mut [u32],
) -> Result<AcceptedName, Refusal>
    ensures { NameCalls setting words.now input.now answer.old answer.new work.old work.new result }
{
    let judged = judge_name(setting, words, input, answer, work);
    let length = name_length(judged);
    if !finish(answer, work, length) {
        return Err(Refusal::BufferTooSmall);
    }
    judged
}
