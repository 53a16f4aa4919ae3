// The full decomposition of a text, by a table that is laid out, at the front of a buffer. specs/Within.antt states when there is none.
#![tactic(auto)]

ghost use Rattle.std.specs.Prelude.{◌≡◌, length};
ghost use Rattle.sections.specs.Laid.{Laid};
ghost use Rattle.table.specs.Layout.{the_table};
ghost use Rattle.full_decomposition.specs.Promise.{Decomposes, Arranged, Standing};

use composition::nfc::put_classes;
use decomposition::append_decomposed;
use limits::MOST_WORKED;
use sections::Sections;

// Why there is no form.
#[derive(Clone, Copy)]
pub enum FormError {
    LayoutFault,
    WorkedTooLong,
    WorkAreaTooSmall,
    BufferTooSmall,
}

// Writes the four rounds of the text, as far as there is room, and answers their length. Past the worked limit it stops, and answers how far
// it got.
fn decompose_into(words: &[u32], ix: Sections, text: &[u32], out: &mut [u32]) -> usize
    requires { Laid words.now ix }
    ensures { Decomposes (the_table words.now) text.now out.old out.new result }
{
    let mut to = 0;
    for &c in text {
        to = append_decomposed(words, ix, out, to, c);
        if to > MOST_WORKED {
            return to;
        }
    }
    to
}

// Puts the text into canonical order, and leaves its classes beside it.
fn arrange(words: &[u32], ix: Sections, text: &mut [u32], classes: &mut [u32])
    requires laid { Laid words.now ix }
    requires text_len { length text.old ≡ length classes.old }
    ensures { Arranged (the_table words.now) text.old text.new classes.new }
{
    put_classes(words, ix, text, classes);
    ordering::order(text, classes);
}

// NFD at the front of `answer`, with its classes at the front of `work`: its length, or why there is none.
pub fn decomposed(
    words: &[u32],
    ix: Sections,
    text: &[u32],
    answer: &mut [u32],
    work: &mut [u32],
) -> Result<usize, FormError>
    requires { Laid words.now ix }
    ensures { Standing (the_table words.now) text.now answer.old answer.new work.old work.new result }
{
    let n = decompose_into(words, ix, text, answer);
    if n > MOST_WORKED {
        return Err(FormError::WorkedTooLong);
    }
    if n > work.len() {
        return Err(FormError::WorkAreaTooSmall);
    }
    if n > answer.len() {
        return Err(FormError::BufferTooSmall);
    }
    arrange(words, ix, &mut answer[..n], &mut work[..n]);
    Ok(n)
}
