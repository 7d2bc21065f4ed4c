ghost use Rattle.std.specs.Prelude.{Some};
ghost use Rattle.console.specs.Reports.{report_text};

use intake::Reply;
use std::fmt;

/// What is printed of a dossier: a line for each reply, with the index of its record from 1, and
/// the tally of the claims.
#[derive(Clone, Copy)]
pub struct Report<'r> {
    pub replies: &'r [Reply],
    pub tally: (usize, usize, usize),
}

impl fmt::Display for Report<'_> {
    ghost output = { λ r. Some (report_text r.replies.now r.tally) };

    fn fmt<W: fmt::Write>(&self, f: &mut fmt::Formatter<W>) -> fmt::Result {
        // in pieces, and not by the lines of `printed`: a writer may take short pieces alone
        for (i, reply) in self.replies.iter().enumerate() {
            writeln!(f, "{} {reply}", i + 1)?;
        }
        let (open, empty, inhabited) = self.tally;
        writeln!(f, "end {open} {empty} {inhabited}")
    }
}
