// The loop of the writer.
ghost use Rattle.utf8.specs.Promise.{WriteStands};

use crate::Utf8Error;
use scalar::is_scalar;
use utf8_encode::append;

// Writes the codepoints one by one, and answers the number of bytes, or which is no scalar value. All of them are looked at, as far as 4,
// whether there is room or not.
pub fn write_front(codepoints: &[u32], answer: &mut [u8]) -> Result<usize, Utf8Error>
    ensures { WriteStands codepoints.now answer.old answer.new result }
{
    let mut n = 0;
    for (i, &c) in codepoints.iter().enumerate() {
        if !is_scalar(c) {
            return Err(Utf8Error::NotScalar(i));
        }
        n = append(answer, n, c);
    }
    Ok(n)
}
