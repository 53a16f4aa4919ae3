// NFD and NFC of a text for C and Rust, each with the promise of the call that it hands on and its answer as a struct of plain numbers. The crate
// `boundary` gives them their names outside.
#![tactic(auto)]

ghost use Rattle.std.specs.Prelude.{◌≡◌};
ghost use Rattle.full_decomposition.specs.Within.{form_number, form_values};
ghost use Rattle.normal_forms.specs.Forms.{nfd_call, nfc_call};
ghost use Rattle.normal_forms.specs.Promise.{Forms};
ghost use Rattle.normal_crossing.specs.NormalCrossing.{form_fields};

use full_decomposition::FormError;

// The refusal number, 0 where there is none, and the length of the form.
#[repr(C)]
#[derive(Clone, Copy)]
pub struct WanlophengForm {
    pub number: u32,
    pub length: usize,
}

// The number of each refusal. A function: neither `FormError` nor `u32` is of this crate.
fn form_number(e: FormError) -> u32
    ensures { result ≡ form_number e }
{
    match e {
        FormError::LayoutFault => 1,
        FormError::WorkedTooLong => 50,
        FormError::WorkAreaTooSmall => 51,
        FormError::BufferTooSmall => 52,
    }
}

impl From<Result<usize, FormError>> for WanlophengForm {
    ghost from_gives = { λ answer r. form_fields r ≡ form_values answer };

    fn from(answer: Result<usize, FormError>) -> WanlophengForm {
        match answer {
            Ok(length) => WanlophengForm { number: 0, length },
            Err(e) => WanlophengForm {
                number: form_number(e),
                length: 0,
            },
        }
    }
}

// NFD of a text.
pub fn cross_nfd(
    text: &[u32],
    words: &[u32],
    answer: &mut [u32],
    work: &mut [u32],
) -> WanlophengForm
    ensures { Forms nfd_call text.now words.now answer.old answer.new work.old work.new (form_fields result) }
{
    let found = normal_forms::nfd(text, words, answer, work);
    WanlophengForm::from(found)
}

// NFC of a text. C has a name for each form, and each call has a contract of its own.
pub fn cross_nfc(
    text: &[u32],
    words: &[u32],
    answer: &mut [u32],
    work: &mut [u32],
) -> WanlophengForm
    ensures { Forms nfc_call text.now words.now answer.old answer.new work.old work.new (form_fields result) }
{
    let found = normal_forms::nfc(text, words, answer, work);
    WanlophengForm::from(found)
}
