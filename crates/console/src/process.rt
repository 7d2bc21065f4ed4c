ghost use Rattle.std.specs.Prelude.{◌≢◌, length, Err};
ghost use Rattle.console.specs.declared.failure.Failure.TheVariants.{Memory as NoMemory};
ghost use Rattle.console.specs.Processing.{Processed};

use crate::answer::answer;
use crate::failure::Failure;
use crate::print::{Notice, print};
use crate::report::Report;
use book::line::Line;
use intake::Reply;
use logic::concept::Concept;
use std::io::Write;

/// The memory that a dossier is answered in. There can be as many concepts, lines and records as
/// there are places for them; the rows need four words for each concept.
#[derive(Drop)]
pub struct Memory<'m> {
    pub concepts: &'m mut [Concept],
    pub lines: &'m mut [Line],
    pub rows: &'m mut [u64],
    pub replies: &'m mut [Reply],
}

/// Answers a dossier and prints the report; and says on `notices`, if the file is as long as the
/// limit of what is read, that it is. It asks nothing of the heap.
pub fn process<W: Write, N: Write>(
    file: &[u8],
    limit: usize,
    memory: Memory,
    output: &mut W,
    notices: &mut N,
) -> Result<(), Failure>
    ensures processed { Processed limit file.now
        (length memory.entry.concepts.now) (length memory.entry.lines.now)
        (length memory.entry.rows.now) (length memory.entry.replies.now)
        (W.contents output.old) (W.contents output.new)
        (N.contents notices.old) (N.contents notices.new) result }
    ensures heapless { result ≢ Err NoMemory }
{
    let Memory {
        concepts,
        lines,
        rows,
        replies,
    } = memory;
    let outcome = answer(file, concepts, lines, rows, replies)?;
    let report = Report {
        replies: &replies[..outcome.count],
        tally: outcome.tally,
    };
    let notice = Notice {
        limit,
        length: file.len(),
    };
    print(report, notice, output, notices)
}
