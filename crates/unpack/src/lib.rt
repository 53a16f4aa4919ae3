// Unpacking a table file to words. specs/Unpack.antt states what it answers.
#![tactic(auto)]

ghost use Rattle.unpack.specs.Promise.{Unpacks};

use answers::UnpackError;
use file_words::{copy_words, inspect};

// Unpacks a table file into `answer`, and answers the number of words. The words that are added are zeros, as those behind the table. A
// refusal clears `answer`.
pub fn unpack(file: &[u8], answer: &mut [u32]) -> Result<usize, UnpackError>
    ensures { Unpacks file.now answer.old answer.new result }
{
    let count = match inspect(file) {
        Ok(count) => count,
        Err(error) => {
            buffers::clear(answer);
            return Err(error);
        }
    };
    let held = (file.len() - 5) / 4;
    if count > answer.len() {
        buffers::clear(answer);
        return Err(UnpackError::TooLittleRoom);
    }
    copy_words(&file[5..], answer);
    buffers::clear(&mut answer[held..]);
    Ok(count)
}
