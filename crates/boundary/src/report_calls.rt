// The report of what was typed (02, Item 9) for C and Rust.
ghost use Rattle.report_crossing.specs.ReportCrossing.{ReportCrosses};

use report_crossing::{WanlophengReport, cross_report};

// Writes the report of a name, a line for each token.
#[unsafe(no_mangle)]
pub extern "C" fn wanlopheng_report(
    input: &[u32],
    words: &[u32],
    setting: u32,
    out: &mut [u8],
    work: &mut [u32],
) -> WanlophengReport
    ensures { ReportCrosses setting words.now input.now out.old out.new work.old work.new result }
{
    cross_report(input, words, setting, out, work)
}
