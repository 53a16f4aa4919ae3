// The report of what was typed (02, Item 9). `report_text` states its bytes, specs/Calls.antt what the call answers.
#![tactic(auto)]

ghost use Rattle.report.specs.Promise.{ReportCalls};

use answers::Refusal;
use name_call::judge_name;
use report_walk::write_report;

// Why there is no report: a refusal of the name call, or too little room.
#[derive(Clone, Copy)]
pub enum ReportError {
    Refused(Refusal),
    TooLittleRoom,
}

// Writes the report of a name into `out`, a line for each token, and answers its length. The bytes behind it and the work area are cleared; a
// refusal clears both. The whole name is judged first, as the name call judges it, and then walked again: too little room is judged last.
pub fn report(
    input: &[u32],
    words: &[u32],
    setting: u32,
    out: &mut [u8],
    work: &mut [u32],
) -> Result<usize, ReportError>
    ensures { ReportCalls setting words.now input.now out.old out.new work.old work.new result }
{
    let mut none = [0u32; 0];
    let judged = judge_name(setting, words, input, &mut none, work);
    match judged {
        Ok(accepted) => {
            if accepted.labels == 0 {
                out.fill(0);
                buffers::clear(work);
                return Ok(0);
            }
            let sink = write_report(words, input, out, work);
            buffers::clear(work);
            match sink.at {
                Some(n) => {
                    out[n..].fill(0);
                    Ok(n)
                }
                None => {
                    out.fill(0);
                    Err(ReportError::TooLittleRoom)
                }
            }
        }
        Err(refusal) => {
            out.fill(0);
            buffers::clear(work);
            Err(ReportError::Refused(refusal))
        }
    }
}
