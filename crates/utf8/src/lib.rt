// UTF-8 (RFC 3629): a reader from bytes to codepoints and a writer back. The crate utf8_scheme states the scheme, specs/Calls.antt what the
// calls answer. Neither has a limit on its input.
#![tactic(auto)]

mod reading;
mod writing;

ghost use Rattle.std.specs.Prelude.{◌≡◌};
ghost use Rattle.utf8.specs.Promise.{ReadCalls, WriteCalls, Finishes};

use crate::reading::read_front;
use crate::writing::write_front;

// Why the reader or the writer refuses. The reader: a sequence that is ill-formed, the first of which starts at this byte. The writer: a number
// that is no scalar value, the first of which has this index. Either: no room.
#[derive(Clone, Copy)]
pub enum Utf8Error {
    IllFormed(usize),
    NotScalar(usize),
    TooLittleRoom,
}

// Ends a call on what stands at the front: so many elements, or why there are none. What stands behind them is cleared; a refusal clears all. No
// room is judged last.
fn finish<T: Copy>(
    front: Result<usize, Utf8Error>,
    answer: &mut [T],
    zero: T,
) -> Result<usize, Utf8Error>
    requires clones { T.is_infallible zero }
    requires copies { (y : T) → T.is_clone zero y → y ≡ zero }
    ensures { Finishes front answer.old answer.new zero result }
{
    match front {
        Ok(count) => {
            if count > answer.len() {
                answer.fill(zero);
                return Err(Utf8Error::TooLittleRoom);
            }
            answer[count..].fill(zero);
            Ok(count)
        }
        Err(error) => {
            answer.fill(zero);
            Err(error)
        }
    }
}

// Reads bytes into codepoints, and answers how many. The words behind them are cleared; a refusal clears all. No room is judged last.
pub fn read(bytes: &[u8], answer: &mut [u32]) -> Result<usize, Utf8Error>
    ensures { ReadCalls bytes.now answer.old answer.new result }
{
    let front = read_front(bytes, answer);
    finish(front, answer, 0)
}

// Writes codepoints as bytes, and answers how many. The bytes behind them are cleared; a refusal clears all. No room is judged last.
pub fn write(codepoints: &[u32], answer: &mut [u8]) -> Result<usize, Utf8Error>
    ensures { WriteCalls codepoints.now answer.old answer.new result }
{
    let front = write_front(codepoints, answer);
    finish(front, answer, 0)
}
