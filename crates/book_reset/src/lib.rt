// The reset of a payee book, the call that takes no name.
#![tactic(auto)]

ghost use Rattle.book_answers.specs.Promise.{ResetCalls};

use book_answers::{AreaError, BookError};
use book_slots::{AREA, FRONT};

// Clears every slot, of a damaged book too. The front words stay.
pub fn reset(area: &mut [u32], answer: &mut [u32], work: &mut [u32]) -> Result<(), BookError>
    ensures { ResetCalls area.old area.new answer.old answer.new work.old work.new result }
{
    buffers::clear(answer);
    buffers::clear(work);
    if area.len() != AREA {
        return Err(BookError::Area(AreaError::OtherSize));
    }
    buffers::clear(&mut area[FRONT..]);
    Ok(())
}
