// How a table files a name that is filed already: as it is, otherwise, or not at all. specs/Refiled.antt states it; `refiling` judges the name.
#![tactic(auto)]

ghost use Rattle.std.specs.Prelude.{◌≡◌};
ghost use Rattle.refiled.specs.Changes.{change_by, change_is, verdict_by, verdict_is};

use book_answers::BookError;
use book_forms::check_length;

// 42 and 43 of a form of this length, which is the name or another; else whether the name stays as it is filed.
pub fn change_by(length: usize, same: bool) -> Result<bool, BookError>
    ensures verdict { verdict_is result ≡ verdict_by length same }
    ensures change { change_is result ≡ change_by length same }
{
    check_length(length)?;
    Ok(same)
}
