// What a book's area is, and what a form of some length is: 40 and 41, then 42 and 43. specs/Forms.antt states both.
#![tactic(auto)]

ghost use Rattle.std.specs.Prelude.{ℕ, ◌≡◌, List, length};
ghost use Rattle.book_answers.specs.Calls.{fileable};
ghost use Rattle.book_forms.specs.Forms.{OpeningIs, filed_by};

use book_answers::{AreaError, BookError};
use book_damage::is_damaged;
use book_slots::slots::slots_of;
use book_slots::{AREA, FORM, FRONT, SLOT};

// The slots of an area: 40, then 41.
pub fn open(area: &[u32]) -> Result<&[[u32; SLOT]], AreaError>
    ensures { OpeningIs area.now result }
{
    if area.len() != AREA {
        return Err(AreaError::OtherSize);
    }
    let slots = slots_of(&area[FRONT..]);
    if is_damaged(slots) {
        return Err(AreaError::Damaged);
    }
    Ok(slots)
}

// 42 and 43 of a form of this length.
pub fn check_length(n: usize) -> Result<(), BookError>
    ensures { (form : List ℕ) → length form ≡ n → fileable form ≡ filed_by result form }
{
    if n == 0 {
        return Err(BookError::EmptyForm);
    }
    if n > FORM {
        return Err(BookError::FormTooLong);
    }
    Ok(())
}
