// The report for C and Rust, with the promise of the call that it hands on and its answer as a struct of plain numbers. The crate `boundary` gives it
// its name outside.
#![tactic(auto)]

ghost use Rattle.std.specs.Prelude.{◌≡◌};
ghost use Rattle.report.specs.Promise.{report_values};
ghost use Rattle.report_crossing.specs.ReportCrossing.{report_fields, ReportCrosses};

use report::ReportError;

// The refusal number, 0 where there is none, its place, and the length of the report.
#[repr(C)]
#[derive(Clone, Copy)]
pub struct WanlophengReport {
    pub number: u32,
    pub place: usize,
    pub length: usize,
}

impl From<Result<usize, ReportError>> for WanlophengReport {
    ghost from_gives = { λ answer r. report_fields r ≡ report_values answer };

    fn from(answer: Result<usize, ReportError>) -> WanlophengReport {
        match answer {
            Ok(length) => WanlophengReport {
                number: 0,
                place: 0,
                length,
            },
            Err(ReportError::Refused(f)) => WanlophengReport {
                number: f.number(),
                place: f.place(),
                length: 0,
            },
            Err(ReportError::TooLittleRoom) => WanlophengReport {
                number: 32,
                place: 0,
                length: 0,
            },
        }
    }
}

// Writes the report of a name, a line for each token.
pub fn cross_report(
    input: &[u32],
    words: &[u32],
    setting: u32,
    out: &mut [u8],
    work: &mut [u32],
) -> WanlophengReport
    ensures { ReportCrosses setting words.now input.now out.old out.new work.old work.new result }
{
    let told = report::report(input, words, setting, out, work);
    WanlophengReport::from(told)
}
