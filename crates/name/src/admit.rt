// Refusals 1 to 4, "tried in order over the whole name".
ghost use Rattle.std.specs.Prelude.{◌≡◌, not};
ghost use Rattle.lists.specs.Lists.{place_with};
ghost use Rattle.scalar.specs.Scalar.{is_scalar};
ghost use Rattle.name.specs.Admission.{place_is, AdmissionIs};

use answers::Refusal;
use limits::{LEAST_WORK, MOST_INPUT};
use scalar::is_scalar;
use sections::Sections;

// Where the first codepoint stands that is no scalar value.
pub fn first_not_scalar(input: &[u32]) -> Option<usize>
    ensures { place_is result ≡ place_with (λ c. not (is_scalar c)) 0 input.now }
{
    for (i, c) in input.iter().enumerate() {
        if !is_scalar(*c) {
            return Some(i);
        }
    }
    None
}

// Refusals 1 to 4 of a name or a label, with a work area of `work` words; else the places of the table's sections.
pub fn admit(words: &[u32], input: &[u32], work: usize) -> Result<Sections, Refusal>
    ensures { AdmissionIs words.now input.now work result }
{
    let Some(ix) = layout::layout(words) else {
        return Err(Refusal::LayoutFault);
    };
    if work < LEAST_WORK {
        return Err(Refusal::WorkAreaTooSmall);
    }
    if MOST_INPUT < input.len() {
        return Err(Refusal::InputTooLong);
    }
    match first_not_scalar(input) {
        Some(i) => Err(Refusal::NotScalar(i)),
        None => Ok(ix),
    }
}
