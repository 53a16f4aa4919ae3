// NFD and NFC of a text for C and Rust.
ghost use Rattle.normal_forms.specs.Forms.{nfd_call, nfc_call};
ghost use Rattle.normal_forms.specs.Promise.{Forms};
ghost use Rattle.normal_crossing.specs.NormalCrossing.{form_fields};

use normal_crossing::{WanlophengForm, cross_nfc, cross_nfd};

// NFD of a text.
#[unsafe(no_mangle)]
pub extern "C" fn wanlopheng_nfd(
    text: &[u32],
    words: &[u32],
    answer: &mut [u32],
    work: &mut [u32],
) -> WanlophengForm
    ensures { Forms nfd_call text.now words.now answer.old answer.new work.old work.new (form_fields result) }
{
    cross_nfd(text, words, answer, work)
}

// NFC of a text.
#[unsafe(no_mangle)]
pub extern "C" fn wanlopheng_nfc(
    text: &[u32],
    words: &[u32],
    answer: &mut [u32],
    work: &mut [u32],
) -> WanlophengForm
    ensures { Forms nfc_call text.now words.now answer.old answer.new work.old work.new (form_fields result) }
{
    cross_nfc(text, words, answer, work)
}
