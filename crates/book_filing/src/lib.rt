// The form under which a name is filed, with the refusals before it: 40 and 41, those of the name call, 42 and 43.
#![tactic(auto)]

ghost use Rattle.std.specs.Prelude.{length};
ghost use Rattle.book_answers.specs.Calls.{form_for};
ghost use Rattle.book_forms.specs.Forms.{Files};

use book_answers::BookError;
use book_forms::{check_length, open};

// The length of the form, which stands in front of the answer buffer.
pub fn form_for(
    area: &[u32],
    name: &[u32],
    words: &[u32],
    setting: u32,
    answer: &mut [u32],
    work: &mut [u32],
) -> Result<usize, BookError>
    ensures { Files area.now (form_for setting words.now name.now (length answer.old) (length work.old)) answer.old answer.new work.old work.new result }
{
    open(area)?;
    let form = name_call::name(name, words, setting, answer, work)?;
    check_length(form.length)?;
    Ok(form.length)
}
