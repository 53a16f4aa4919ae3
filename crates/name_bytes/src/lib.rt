// The byte form of the name call. specs/NameBytes.antt states what it answers.
#![tactic(auto)]

ghost use Rattle.std.specs.Prelude.{◌≡◌, ◌+◌, ◌<◌, length};
ghost use Rattle.limits.specs.Limits.{most_input};
ghost use Rattle.name_bytes.specs.NameBytes.{NameBytesCalls};
ghost use Rattle.name_bytes.specs.Wiping.{Wiped};

use answers::{AcceptedName, Refusal};
use limits::MOST_INPUT;
use utf8::Utf8Error;

// Why the byte form refuses: the first sequence that is ill-formed starts at this byte, or the name call refuses what was read.
#[derive(Clone, Copy)]
pub enum NameBytesError {
    IllFormed(usize),
    Refused(Refusal),
}

// Clears the words, and answers the one at place i.
fn wipe(s: &mut [u32], i: usize) -> u32
    requires { i < length s.old }
    ensures { Wiped s.old s.new result }
{
    buffers::clear(s);
    s[i]
}

// The name call on what is read into `codepoints`, which has room for one more than an input may have: a text that has no room there is
// refused by the name call before any codepoint is looked at, so as many zeros stand for it. 30 clears both buffers.
fn judge_read(
    bytes: &[u8],
    words: &[u32],
    setting: u32,
    codepoints: &mut [u32],
    answer: &mut [u32],
    work: &mut [u32],
) -> Result<AcceptedName, NameBytesError>
    requires { length codepoints.old ≡ most_input + 1 }
    ensures { NameBytesCalls setting words.now bytes.now answer.old answer.new work.old work.new result }
{
    match utf8::read(bytes, codepoints) {
        Ok(n) => {
            let named = name_call::name(&codepoints[..n], words, setting, answer, work);
            named.map_err(NameBytesError::Refused)
        }
        Err(Utf8Error::TooLittleRoom) => {
            let named = name_call::name(codepoints, words, setting, answer, work);
            named.map_err(NameBytesError::Refused)
        }
        Err(Utf8Error::IllFormed(at)) => {
            buffers::clear(answer);
            buffers::clear(work);
            Err(NameBytesError::IllFormed(at))
        }
        // the reader never says so
        Err(Utf8Error::NotScalar(at)) => Err(NameBytesError::IllFormed(at)),
    }
}

// Normalises a name that is given as bytes: 30 over all bytes first, else the name call on what was read. The codepoints in between stand in a
// local array, which is cleared on every way out. A store to a local that dies is left out by the compiler, unless what is stored is read:
// so a word is read back, at a place that the compiler cannot know.
pub fn name_bytes(
    bytes: &[u8],
    words: &[u32],
    setting: u32,
    answer: &mut [u32],
    work: &mut [u32],
) -> Result<AcceptedName, NameBytesError>
    ensures { NameBytesCalls setting words.now bytes.now answer.old answer.new work.old work.new result }
{
    let mut codepoints = [0u32; MOST_INPUT + 1];
    let found = judge_read(bytes, words, setting, &mut codepoints, answer, work);
    let left = wipe(&mut codepoints, bytes.len() % (MOST_INPUT + 1));
    if left != 0 {
        return Err(NameBytesError::IllFormed(0));
    }
    found
}
