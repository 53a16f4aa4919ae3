// The line for one line of input. specs/Lines.antt states what it is. 01, "Names at the counter".
#![tactic(auto)]

ghost use Rattle.std.specs.Prelude.{◌≤◌, length};
ghost use Rattle.replying.specs.Lines.{reply_room};
ghost use Rattle.replying.specs.Promise.{Replies};

use name_call::name;

// Room for the line for a name.
pub const REPLY_ROOM: usize = 9 * limits::MOST_WORKED + line_writing::MOST_NO_LINE;

// What is written for a line of input: so many bytes of text; and whether the line was readable. Both are told in either case, so no Option.
#[derive(Clone, Copy)]
pub struct Reply {
    pub length: usize,
    pub readable: bool,
}

// Reads a line, normalises the name and writes its line into `text`; `bad` where the line is unreadable.
pub fn write_reply(table: &[u32], line: &[u8], text: &mut [u8]) -> Reply
    requires { reply_room ≤ length text.old }
    ensures { Replies table.now line.now text.old text.new result }
{
    let mut numbers = [0u32; line_reading::MOST_NUMBERS];
    let Some(n) = line_reading::read_line(line, &mut numbers) else {
        let k = line_writing::write_bad(text);
        return Reply {
            length: k,
            readable: false,
        };
    };
    let mut answer = [0u32; limits::MOST_WORKED];
    let mut work = [0u32; limits::LEAST_WORK];
    let given = name(&numbers[..n], table, 0, &mut answer, &mut work);
    let k = line_writing::write_answer(given, &answer, text);
    Reply {
        length: k,
        readable: true,
    }
}
