ghost use Rattle.std.specs.Prelude.{◌++◌, OnOk, OnErr};
ghost use Rattle.std.specs.Io.KnownBytes.{Appends};
ghost use Rattle.console.specs.Outputs.{AppendsFront, AppendsAllBut};
ghost use Rattle.console.specs.Reports.{report_text};

use crate::output::put;
use crate::printed::{PrintedLine, line_of_reply, line_of_tally};
use crate::report::Report;
use arrayvec::ArrayString;
use std::io;
use std::io::Write;

// Lines that are written together.
type Page = ArrayString<8192>;

/// Writes a report, page by page. Where that fails, a beginning of it is written.
pub fn put_report<W: Write>(output: &mut W, report: Report) -> io::Result<()>
    ensures whole { OnOk result
        (Appends (W.contents output.old) (W.contents output.new)
        (report_text report.entry.replies.now report.entry.tally)) }
    ensures front { OnErr result
        (AppendsFront (W.contents output.old) (W.contents output.new)
        (report_text report.entry.replies.now report.entry.tally)) }
{
    // By pages that lie here, since a report may have to be printed where no memory is to be had; and
    // not by a formatter over the output, since after an error that does not say what it has written.
    let mut page = Page::new();
    for (i, reply) in report.replies.iter().enumerate() {
        let line = line_of_reply(i + 1, reply);
        put_line(output, &mut page, &line)?;
    }
    let last = line_of_tally(report.tally);
    put_line(output, &mut page, &last)?;
    put(output, page.as_str().as_bytes())
}

// Puts a line on the page. A page that has no room for it is written first, and begun anew.
fn put_line<W: Write>(output: &mut W, page: &mut Page, line: &PrintedLine) -> io::Result<()>
    ensures whole { OnOk result
        (AppendsAllBut (W.contents output.old) (W.contents output.new)
        (page.old.bytes ++ line.now.bytes) page.new.bytes) }
    ensures front { OnErr result
        (AppendsFront (W.contents output.old) (W.contents output.new) page.old.bytes) }
{
    if page.try_push_str(line.as_str()).is_ok() {
        return Ok(());
    }
    put(output, page.as_str().as_bytes())?;
    page.clear();
    page.push_str(line.as_str());
    Ok(())
}
