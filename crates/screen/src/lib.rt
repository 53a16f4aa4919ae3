// The screen form of a name (02, Item 1). forms/specs/Forms.antt states the form, specs/Screen.antt what the call answers.
#![tactic(auto)]

ghost use Rattle.std.specs.Prelude.{◌≤◌, length};
ghost use Rattle.limits.specs.Limits.{most_input, least_work};
ghost use Rattle.sections.specs.Laid.{Laid};
ghost use Rattle.table.specs.Layout.{the_table};
ghost use Rattle.memo.specs.Memo.{Memo};
ghost use Rattle.name.specs.Name.{labels_of};
ghost use Rattle.screen.specs.Screen.{labels_typed, screen_before15, ScreenJudged, ScreenCalls};

use answers::{AcceptedName, Refusal, name_length};
use ending::finish;
use memo::MEMO;
use name::admit::admit;
use name::labels::put_label;
use one_label::judge_label;
use screen_label::show_label;
use screen_token::is_greek;
use sections::Sections;
use unpaired::KNOWN_WORDS;
use unpaired::index::index_pairs;

// Judges the labels of a name from the left as the name call does, and writes the screen form of each into the part behind the last stop. The
// empty name has none.
fn show_labels(
    words: &[u32],
    ix: Sections,
    greek: u32,
    setting: u32,
    name: &[u32],
    answer: &mut [u32],
    w: &mut [u32],
    memo: &mut [u32],
) -> Result<AcceptedName, Refusal>
    requires laid { Laid words.now ix }
    requires least_work_in_bounds { (least_work ≤ length w.old) × (length name.now ≤ most_input) }
    requires memo { Memo words.now memo.old }
    ensures { ScreenJudged (the_table words.now) greek name.now (labels_typed setting (the_table words.now) 0 0 0 (labels_of name.now)) answer.old answer.new w.old w.new result }
{
    if name.len() == 0 {
        return Ok(AcceptedName {
            length: 0,
            labels: 0,
        });
    }
    let mut unpaired = [0u32; KNOWN_WORDS];
    index_pairs(words, ix, &mut unpaired);
    let mut at = 0;
    let mut done = 0;
    let mut place = 0;
    let mut len = 0;
    for label in name.split(|&c| c == 0x2E) {
        let judged = judge_label(words, ix, label, at, done, place, &mut unpaired, w, memo)?;
        if judged.kind.is_barred(setting) {
            return Err(Refusal::Restricted(place));
        }
        let own = is_greek(greek, judged.kind);
        let from = put_label(answer, len, place == 0, &w[..0]);
        len = show_label(words, ix, own, label, &mut unpaired, answer, from, w);
        done += judged.worked + 1;
        place += 1;
        at += label.len() + 1;
    }
    Ok(AcceptedName {
        length: len,
        labels: place,
    })
}

// Judges a name as far as 14 and 17, and writes its screen form as far as there is room.
fn judge_screen(
    greek: u32,
    setting: u32,
    words: &[u32],
    input: &[u32],
    answer: &mut [u32],
    work: &mut [u32],
) -> Result<AcceptedName, Refusal>
    ensures { ScreenJudged (the_table words.now) greek input.now (screen_before15 setting words.now input.now (length work.old)) answer.old answer.new work.old work.new result }
{
    let ix = admit(words, input, work.len())?;
    let mut memo = [0; MEMO];
    show_labels(
        words,
        ix,
        greek,
        setting,
        input,
        answer,
        work,
        &mut memo[0..MEMO],
    )
}

// Writes the screen form of a name into `answer`, and answers its length and the number of its labels. `greek` is the number of the Greek group;
// the refusals, the setting and what is left in both buffers are those of the name call. 15 is judged on the screen form.
pub fn screen(
    input: &[u32],
    words: &[u32],
    greek: u32,
    setting: u32,
    answer: &mut [u32],
    work: &mut [u32],
) -> Result<AcceptedName, Refusal>
    ensures { ScreenCalls greek setting words.now input.now answer.old answer.new work.old work.new result }
{
    let judged = judge_screen(greek, setting, words, input, answer, work);
    let length = name_length(judged);
    if !finish(answer, work, length) {
        return Err(Refusal::BufferTooSmall);
    }
    judged
}
