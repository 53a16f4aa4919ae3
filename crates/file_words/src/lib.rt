// The words of a table file, by its version and its length. specs/FileWords.antt states what they are.
#![tactic(auto)]

ghost use Rattle.std.specs.Prelude.{◌≡◌, ◌++◌, ◌≤◌, ◌/◌, ◌%◌, length, drop};
ghost use Rattle.file_words.specs.FileWords.{word, words_of};
ghost use Rattle.file_words.specs.Promise.{Inspected};

use answers::UnpackError;
use file_versions::lack_of;

// Four bytes, big-endian.
fn be32(a: u8, b: u8, c: u8, d: u8) -> u32
    ensures { result ≡ word a b c d }
{
    ((u32::from(a) * 256 + u32::from(b)) * 256 + u32::from(c)) * 256 + u32::from(d)
}

// What is wrong with the file, or the count of its words and of those that are added. The length is worked out in 64 bits.
pub fn inspect(file: &[u8]) -> Result<usize, UnpackError>
    ensures { Inspected file.now result }
{
    if file.len() == 0 {
        return Err(UnpackError::WrongLength);
    }
    let Some(lack) = lack_of(file[0]) else {
        return Err(UnpackError::WrongVersion);
    };
    if file.len() < 5 {
        return Err(UnpackError::WrongLength);
    }
    let count = be32(file[1], file[2], file[3], file[4]);
    if file.len() as u64 != 5 + 4 * u64::from(count) {
        return Err(UnpackError::WrongLength);
    }
    Ok(count as usize + lack)
}

// The words that `bytes` hold go to the front of `answer`; the words behind them stay.
pub fn copy_words(bytes: &[u8], answer: &mut [u32])
    requires whole { length bytes.now % 4 ≡ 0 }
    requires room { length bytes.now / 4 ≤ length answer.old }
    ensures { answer.new ≡ words_of bytes.now ++ drop (length bytes.now / 4) answer.old }
{
    for i in 0..bytes.len() / 4 {
        let at = 4 * i;
        answer[i] = be32(bytes[at], bytes[at + 1], bytes[at + 2], bytes[at + 3]);
    }
}
