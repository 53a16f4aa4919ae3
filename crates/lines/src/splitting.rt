// Splitting input into lines, piece by piece. specs/Splitting.antt states what the lines are.
ghost use Rattle.std.specs.Prelude.{take};
ghost use Rattle.lines.specs.Promise.{Holding, Takes};

use line_reading::{MOST_LINE, find};
use line_writing::write_word;

// What a piece of input gives: a line that ended in it, with the number of the piece's bytes that are used up; or the length of the
// line so far, where none ended.
#[derive(Clone, Copy)]
pub enum Taken {
    Line { length: usize, used: usize },
    Part(usize),
    TooLong,
}

// Takes bytes of the piece into `line`, behind the `held` bytes that stand there, up to the end of a line.
pub fn take_line(piece: &[u8], line: &mut [u8], held: usize) -> Taken
    requires { Holding line.old held }
    ensures { Takes (take held line.old) piece.now line.new result }
{
    let k = find(piece, b'\n');
    if k > MOST_LINE - held {
        return Taken::TooLong;
    }
    write_word(&piece[..k], &mut line[held..]);
    if k < piece.len() {
        Taken::Line {
            length: held + k,
            used: k + 1,
        }
    } else {
        Taken::Part(held + k)
    }
}
