// The table's words from the bytes of its file. specs/File.antt states what they are.
#![tactic(auto)]

ghost use Rattle.std.specs.Prelude.{◌≤◌, length};
ghost use Rattle.table_file.specs.File.{most_table};
ghost use Rattle.table_file.specs.Promise.{ReadsTable};

use answers::UnpackError;

// The most bytes of the table file, and room for its words.
pub const MOST_FILE: usize = 32768;

pub const MOST_TABLE: usize = MOST_FILE / 4;

// Unpacks a file that is not too long; one that is has a wrong length.
pub fn read_table(file: &[u8], words: &mut [u32]) -> Result<usize, UnpackError>
    requires { most_table ≤ length words.old }
    ensures { ReadsTable file.now words.old words.new result }
{
    if file.len() > MOST_FILE {
        buffers::clear(words);
        return Err(UnpackError::WrongLength);
    }
    unpack::unpack(file, words)
}
