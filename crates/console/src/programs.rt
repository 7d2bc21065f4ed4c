ghost use Rattle.std.specs.Prelude.{◌≡◌, ◌≢◌, length, vec_len, IfOk, Err};
ghost use Rattle.console.specs.declared.failure.Failure.TheVariants.{Memory as NoMemory};
ghost use Rattle.console.specs.Processing.{Processed};
ghost use Rattle.console.specs.Programs.{Ended, status_of, streams};

use crate::failure::Failure;
use crate::input::fill;
use crate::process::{Memory, process};
use book::line::Line;
use docket::MOST_LINES;
use intake::Reply;
use logic::concept::Concept;
use records::reader::count;
use std::alloc::{AllocError, Global};
use std::io::{Read, Write};
use vocabulary::MOST_CONCEPTS;

// The most bytes that `dossier` reads. What lies behind them is not looked at.
const LIMIT: usize = 16_384;

// The most records that so many bytes can hold: each but the last has a head of four bytes.
const RECORDS: usize = 4096;

const CONCEPTS: usize = 256;

const LINES: usize = 256;

// Four words for each concept.
const ROWS: usize = 4 * CONCEPTS;

// The most bytes that `wide` reads.
const WIDE_LIMIT: usize = 4_194_304;

const WIDE_ROWS: usize = 4 * MOST_CONCEPTS;

const NO_REPLY: Reply = Reply {
    kind: 0,
    answer: Ok(0),
};

/// What a program tells of its end. A notice that was not written does not make it fail, since its
/// report is whole.
pub fn ending(ended: Result<(), Failure>) -> Result<(), Failure>
    ensures { result ≡ status_of ended }
{
    match ended {
        Err(Failure::Notices(_)) => Ok(()),
        other => other,
    }
}

/// The program `dossier`: reads up to 16,384 bytes, hands them to a new docket with room for 256
/// concepts and 256 lines, and prints what it said. Where the limit is reached, `notices` is told.
/// It asks nothing of the heap, so it is never stopped by want of memory.
pub fn run_dossier<R: Read, W: Write, N: Write>(
    input: &mut R,
    output: &mut W,
    notices: &mut N,
) -> Result<(), Failure>
    ensures ended { Ended 16384 256 256
        (streams (R.remaining input.old) (W.contents output.old) (N.contents notices.old))
        (streams (R.remaining input.new) (W.contents output.new) (N.contents notices.new)) result }
    ensures heapless { result ≢ Err NoMemory }
{
    let mut buffer = [0; LIMIT];
    let length = fill(input, &mut buffer)?;
    let file = &buffer[..length];
    let mut concepts = [Concept::Top; CONCEPTS];
    let mut lines = [Line::default(); LINES];
    let mut rows = [0; ROWS];
    let mut replies = [NO_REPLY; RECORDS];
    let memory = Memory {
        concepts: &mut concepts,
        lines: &mut lines,
        rows: &mut rows,
        replies: &mut replies,
    };
    process(file, LIMIT, memory, output, notices)
}

/// The program `wide`: the same with 4,194,304 bytes and the largest docket, all in memory of the
/// heap.
pub fn run_wide<R: Read, W: Write, N: Write>(
    alloc: Global,
    input: &mut R,
    output: &mut W,
    notices: &mut N,
) -> Result<(), Failure>
    ensures { Ended 4194304 1024 4096
        (streams (R.remaining input.old) (W.contents output.old) (N.contents notices.old))
        (streams (R.remaining input.new) (W.contents output.new) (N.contents notices.new)) result }
{
    let mut buffer = zeros(alloc, WIDE_LIMIT)?;
    read_wide(alloc, input, buffer.as_mut_slice(), output, notices)
}

// So many bytes.
fn zeros(alloc: Global, count: usize) -> Result<Vec<u8>, AllocError>
    ensures { IfOk result (λ v. vec_len v ≡ count) }
{
    vec![in alloc; 0; count]
}

// Reads a dossier of at most as many bytes as the buffer holds, and answers it with the largest
// docket.
fn read_wide<R: Read, W: Write, N: Write>(
    alloc: Global,
    input: &mut R,
    buffer: &mut [u8],
    output: &mut W,
    notices: &mut N,
) -> Result<(), Failure>
    ensures { Ended (length buffer.old) 1024 4096
        (streams (R.remaining input.old) (W.contents output.old) (N.contents notices.old))
        (streams (R.remaining input.new) (W.contents output.new) (N.contents notices.new)) result }
{
    let limit = buffer.len();
    let filled = fill(input, buffer)?;
    let file = &buffer[..filled];
    process_wide(alloc, file, limit, count(file), output, notices)
}

// Answers a dossier with the largest docket, and prints the report.
fn process_wide<W: Write, N: Write>(
    alloc: Global,
    file: &[u8],
    limit: usize,
    places: usize,
    output: &mut W,
    notices: &mut N,
) -> Result<(), Failure>
    ensures { Processed limit file.now 1024 4096 4096 places
        (W.contents output.old) (W.contents output.new)
        (N.contents notices.old) (N.contents notices.new) result }
{
    let mut concepts = vec![in alloc; Concept::Top; MOST_CONCEPTS]?;
    let mut lines = vec![in alloc; Line::default(); MOST_LINES]?;
    let mut rows = vec![in alloc; 0; WIDE_ROWS]?;
    let mut replies = vec![in alloc; NO_REPLY; places]?;
    let memory = Memory {
        concepts: &mut concepts,
        lines: &mut lines,
        rows: &mut rows,
        replies: &mut replies,
    };
    process(file, limit, memory, output, notices)
}
