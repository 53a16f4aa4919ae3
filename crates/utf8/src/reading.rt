// The loop of the reader.
ghost use Rattle.utf8.specs.Promise.{ReadStands};

use crate::Utf8Error;
use utf8_decode::decode;
use utf8_encode::put;

// Reads the bytes sequence by sequence, and answers the number of codepoints, or where a sequence is ill-formed. All of them are read, as far
// as 30, whether there is room or not.
pub fn read_front(bytes: &[u8], answer: &mut [u32]) -> Result<usize, Utf8Error>
    ensures { ReadStands bytes.now answer.old answer.new result }
{
    let mut at = 0;
    let mut n = 0;
    // by hand: the step is the sequence's own length
    while at < bytes.len() {
        match decode(&bytes[at..]) {
            Some(found) => {
                n = put(answer, n, found.value);
                at += found.length;
            }
            None => return Err(Utf8Error::IllFormed(at)),
        }
    }
    Ok(n)
}
