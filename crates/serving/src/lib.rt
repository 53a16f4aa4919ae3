// What the counter program writes once the input has ended, by the lines that are left. 01, "Names at the counter".
#![tactic(auto)]

ghost use Rattle.buffers.specs.Writes.{Writes};
ghost use Rattle.lines.specs.Splitting.{lines_of, output};
ghost use Rattle.replying.specs.Lines.{reply_line};
ghost use Rattle.serving.specs.Serving.{LastLine};

use replying::{REPLY_ROOM, write_reply};

// Room for all that is written once the input has ended.
pub const ENDING_ROOM: usize = REPLY_ROOM + line_writing::MOST_END_LINE;

// The line for what is held of a last one, where something is, and the count of names.
pub fn write_ending(table: &[u32], line: &[u8], names: u64, text: &mut [u8]) -> usize
    requires { LastLine line.now text.old names }
    ensures { Writes (output (reply_line table.now) names (lines_of line.now))
        text.old text.new result }
{
    if line.len() == 0 {
        return line_writing::write_end(names, text);
    }
    let reply = write_reply(table, line, &mut text[..REPLY_ROOM]);
    let n = reply.length;
    if !reply.readable {
        return n;
    }
    let k = line_writing::write_end(names + 1, &mut text[n..]);
    n + k
}
