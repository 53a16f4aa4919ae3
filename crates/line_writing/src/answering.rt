// Writing the line for what the name call answered. answers/specs/Values.antt has the number and the place of each refusal.
ghost use Rattle.answers.specs.Values.{name_values};
ghost use Rattle.line_writing.specs.Writing.{answer_line};
ghost use Rattle.buffers.specs.Writes.{Writes};
ghost use Rattle.line_writing.specs.Promise.{AnswerRoom};

use crate::writing::{write_no, write_ok};
use answers::{AcceptedName, Refusal};

// The line for an answer of the name call, whose answer buffer is `buffer`.
pub fn write_answer(answer: Result<AcceptedName, Refusal>, buffer: &[u32], out: &mut [u8]) -> usize
    requires { AnswerRoom (name_values answer) buffer.now out.old }
    ensures { Writes (answer_line (name_values answer) buffer.now) out.old out.new result }
{
    match answer {
        Ok(accepted) => write_ok(&buffer[..accepted.length], out),
        Err(refusal) => write_no(u64::from(refusal.number()), refusal.place() as u64, out),
    }
}
