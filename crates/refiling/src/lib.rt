// How a table files a name that is filed already: as it is, otherwise, or not at all. refiled/specs/Refiled.antt states it. The answer of each label is
// compared with the label where it stands in the work area, so that no room is needed for a whole form, and 15 cannot arise.
#![tactic(auto)]

ghost use Rattle.std.specs.Prelude.{◌≤◌, ◌≡◌, true, length};
ghost use Rattle.limits.specs.Limits.{least_work, most_input};
ghost use Rattle.sections.specs.Laid.{Laid};
ghost use Rattle.table.specs.Layout.{the_table};
ghost use Rattle.unpaired.specs.Unpaired.{Unpaired};
ghost use Rattle.memo.specs.Memo.{Memo};
ghost use Rattle.name.specs.Name.{labels_of};
ghost use Rattle.refiled.specs.Refiled.{refiled_verdict, changed};
ghost use Rattle.refiled.specs.Changes.{change_is, verdict_is};
ghost use Rattle.refiling.specs.Labels.{filed_is, filing, Lent, Lasting};

use answers::Refusal;
use book_answers::BookError;
use name::admit::first_not_scalar;
use one_label::judge_label;
use refiled::change_by;
use sections::Sections;

// What the labels of a name give: the length of the form, and whether it is the name.
#[derive(Clone, Copy)]
pub struct FiledForm {
    pub length: usize,
    pub same: bool,
}

// Judges the labels of a name from the left, and compares the answer of each with the label itself.
fn file_labels(
    words: &[u32],
    ix: Sections,
    name: &[u32],
    unpaired: &mut [u32],
    w: &mut [u32],
    memo: &mut [u32],
) -> Result<FiledForm, Refusal>
    requires lent { Lent words.now ix unpaired.old w.old memo.old }
    requires in_bounds { (1 ≤ length name.now) × (length name.now ≤ most_input) }
    ensures value { filed_is result ≡ filing (the_table words.now) 0 0 0 0 true (labels_of name.now) }
    ensures lasting { Lasting words.now w.old w.new unpaired.new memo.new }
{
    let mut at = 0;
    let mut done = 0;
    let mut place = 0;
    let mut len = 0;
    let mut same = true;
    for label in name.split(|&c| c == 0x2E) {
        let judged = judge_label(words, ix, label, at, done, place, unpaired, w, memo)?;
        let alike = buffers::same(&w[..judged.length], label);
        same = same & alike;
        len += judged.length + 1;
        done += judged.worked + 1;
        place += 1;
        at += label.len() + 1;
    }
    Ok(FiledForm {
        length: len - 1,
        same,
    })
}

// How the table files a name: whether as it is filed, or the refusal. What is known of the table alone, `ix`, `unpaired` and `memo`, serves the next name
// too.
pub fn refile(
    words: &[u32],
    ix: Sections,
    name: &[u32],
    unpaired: &mut [u32],
    w: &mut [u32],
    memo: &mut [u32],
) -> Result<bool, BookError>
    requires lent { Lent words.now ix unpaired.old w.old memo.old }
    requires in_bounds { (1 ≤ length name.now) × (length name.now ≤ most_input) }
    ensures verdict { verdict_is result ≡ refiled_verdict words.now (length w.old) name.now }
    ensures result_value { change_is result ≡ changed words.now (length w.old) name.now }
    ensures lasting { Lasting words.now w.old w.new unpaired.new memo.new }
{
    if let Some(place) = first_not_scalar(name) {
        return Err(BookError::Refused(Refusal::NotScalar(place)));
    }
    let form = file_labels(words, ix, name, unpaired, w, memo)?;
    change_by(form.length, form.same)
}
