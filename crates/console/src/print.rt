ghost use Rattle.std.specs.Prelude.{Some, codes};
ghost use Rattle.console.specs.Reports.{report_text, notice_text};
ghost use Rattle.console.specs.Outputs.{Printed};

use crate::failure::Failure;
use crate::output::put;
use crate::page::put_report;
use crate::printed::line_of_notice;
use crate::report::Report;
use std::fmt;
use std::io::Write;

/// What is said of a file that reaches the limit of what is read: what may lie behind it is not
/// known. Of a shorter one, nothing.
#[derive(Clone, Copy)]
pub struct Notice {
    pub limit: usize,
    pub length: usize,
}

impl fmt::Display for Notice {
    ghost output = { λ n. Some (notice_text n.limit n.length) };

    fn fmt<W: fmt::Write>(&self, f: &mut fmt::Formatter<W>) -> fmt::Result {
        // a shorter file has no notice: the formatter is asked nothing, so that this can't fail
        if self.length < self.limit {
            return Ok(());
        }
        writeln!(
            f,
            "the limit of {} bytes is reached; what may lie behind them was not looked at",
            self.limit,
        )
    }
}

/// Writes a report to the output, and then what there is to notice to `notices`. Where that fails,
/// the error says so, and the report is written whole. Neither needs the heap.
pub fn print<W: Write, N: Write>(
    report: Report,
    notice: Notice,
    output: &mut W,
    notices: &mut N,
) -> Result<(), Failure>
    ensures { Printed
        (report_text report.entry.replies.now report.entry.tally)
        (notice_text notice.limit notice.length)
        (W.contents output.old) (W.contents output.new)
        (N.contents notices.old) (N.contents notices.new) result }
{
    put_report(output, report)?;
    let said = line_of_notice(notice.limit, notice.length);
    if let Err(error) = put(notices, said.as_str().as_bytes()) {
        return Err(Failure::Notices(error));
    }
    Ok(())
}
