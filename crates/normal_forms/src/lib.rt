// NFD and NFC of a text, by a table. specs/Forms.antt states what they answer. Both have four lines at the front and four at the end in common: a
// function that took what stands between as a closure would need its promise as a clause, and be longer.
#![tactic(auto)]

ghost use Rattle.std.specs.Prelude.{◌≡◌, length};
ghost use Rattle.text.specs.Ordering.{nfd};
ghost use Rattle.text.specs.Composition.{nfc};
ghost use Rattle.full_decomposition.specs.Within.{form_values};
ghost use Rattle.normal_forms.specs.Forms.{nfd_call, nfc_call};
ghost use Rattle.normal_forms.specs.Promise.{Stands, Forms};

use composition::compose::compose;
use ending::finish;
use full_decomposition::{FormError, decomposed};
use unpaired::KNOWN_WORDS;
use unpaired::index::index_pairs;

// NFD at the front of `answer`.
fn nfd_front(
    text: &[u32],
    words: &[u32],
    answer: &mut [u32],
    work: &mut [u32],
) -> Result<usize, FormError>
    ensures { Stands nfd text.now words.now answer.old answer.new (length work.old) result }
{
    let found = layout::layout(words);
    match found {
        None => Err(FormError::LayoutFault),
        Some(ix) => decomposed(words, ix, text, answer, work),
    }
}

// NFC at the front of `answer`.
fn nfc_front(
    text: &[u32],
    words: &[u32],
    answer: &mut [u32],
    work: &mut [u32],
) -> Result<usize, FormError>
    ensures { Stands nfc text.now words.now answer.old answer.new (length work.old) result }
{
    let found = layout::layout(words);
    let Some(ix) = found else {
        return Err(FormError::LayoutFault);
    };
    let n = decomposed(words, ix, text, answer, work)?;
    let mut unpaired = [0u32; KNOWN_WORDS];
    index_pairs(words, ix, &mut unpaired);
    let left = compose(words, ix, &mut unpaired, &mut answer[..n], &work[..n]);
    Ok(left)
}

// NFD of the text into `answer`; zeros follow, and a refusal leaves zeros alone. The work area is zeros in the end.
pub fn nfd(
    text: &[u32],
    words: &[u32],
    answer: &mut [u32],
    work: &mut [u32],
) -> Result<usize, FormError>
    ensures { Forms nfd_call text.now words.now answer.old answer.new work.old work.new (form_values result) }
{
    let found = nfd_front(text, words, answer, work);
    let n = found.unwrap_or(0);
    finish(answer, work, n);
    found
}

// NFC of the text into `answer`; zeros follow, and a refusal leaves zeros alone. The work area is zeros in the end.
pub fn nfc(
    text: &[u32],
    words: &[u32],
    answer: &mut [u32],
    work: &mut [u32],
) -> Result<usize, FormError>
    ensures { Forms nfc_call text.now words.now answer.old answer.new work.old work.new (form_values result) }
{
    let found = nfc_front(text, words, answer, work);
    let n = found.unwrap_or(0);
    finish(answer, work, n);
    found
}
