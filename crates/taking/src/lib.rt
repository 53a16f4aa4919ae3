// The counter program's work on a piece of input: each line that ends in it is answered, and what stands behind the last is held. 01,
// "Names at the counter".
#![tactic(auto)]

ghost use Rattle.std.specs.Prelude.{◌^◌, ◌≤◌, length};
ghost use Rattle.taking.specs.Promise.{most_piece, Ready, Serves, Takes};

use lines::Taken;
use replying::{REPLY_ROOM, write_reply};
use std::io::Write;

// Between two pieces of input: so many bytes of a line are held, and so many names are done.
#[derive(Clone, Copy)]
pub struct State {
    pub held: usize,
    pub names: u64,
}

// Where a line is too long or there is no table, `bad` is the last that is written.
pub fn bad<W: Write>(out: &mut W) {
    let mut text = [0u8; 4];
    let n = line_writing::write_bad(&mut text);
    let _ = out.write_all(&text[..n]);
}

// Writes the line for a line of input, and answers whether to go on: it was readable, and its line is written.
fn serve<W: Write>(out: &mut W, table: &[u32], line: &[u8]) -> bool
    ensures { Serves line.now result }
{
    let mut text = [0u8; REPLY_ROOM];
    let reply = write_reply(table, line, &mut text);
    let n = reply.length;
    if out.write_all(&text[..n]).is_err() {
        return false;
    }
    reply.readable
}

// Serves the lines that end in a piece of input, and holds what stands behind the last of them. `None` where no more is to be read.
pub fn take_piece<W: Write>(
    out: &mut W,
    table: &[u32],
    piece: &[u8],
    line: &mut [u8],
    state: State,
) -> Option<State>
    requires ready { Ready line.old state (2 ^ 63) }
    requires piece_len_bound { length piece.now ≤ most_piece }
    ensures { Takes piece.now line.old line.new state result }
{
    let mut held = state.held;
    let mut names = state.names;
    let mut at = 0;
    // by hand: the step is the line's own length
    while at < piece.len() {
        let taken = lines::take_line(&piece[at..], line, held);
        match taken {
            Taken::Line { length, used } => {
                if !serve(out, table, &line[..length]) {
                    return None;
                }
                names += 1;
                held = 0;
                at += used;
            }
            Taken::Part(length) => {
                held = length;
                at = piece.len();
            }
            Taken::TooLong => {
                bad(out);
                return None;
            }
        }
    }
    Some(State { held, names })
}
