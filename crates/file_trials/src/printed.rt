use book::line::Line;
use console::print::Notice;
use console::report::Report;
use desk::notation::put_record;
use desk::step::{UNTOUCHED, hand_over};
use desk::{Room, expect, opened, told};
use intake::Reply;
use logic::concept::Concept;
use std::alloc::Global;
use std::fmt;
use std::fmt::Write;
use std::test::Fail;

// The dossier that README makes: a name and its negation as mates, the seal, a line by which they
// clash, and an axiom too late.
static EXAMPLE: [&[u16]; 6] = [
    &[3, 2, 0, 0],
    &[3, 3, 0, 0],
    &[4, 0, 1],
    &[6],
    &[7, 2, 0, 1, 0, 0, 0, 0, 1],
    &[5, 0],
];

// What is printed for each of its records, after the index.
static PRINTED: [&str; 6] = [
    "3 ok 0",
    "3 ok 1",
    "4 ok 0",
    "6 ok 0",
    "7 ok 0",
    "5 refused 2 0",
];

// The report on them.
const REPORT: &str =
    "1 3 ok 0\n2 3 ok 1\n3 4 ok 0\n4 6 ok 0\n5 7 ok 0\n6 5 refused 2 0\nend 0 0 0\n";

const NOTICE: &str =
    "the limit of 16384 bytes is reached; what may lie behind them was not looked at\n";

// Takes pieces of a text of at most so many bytes, and refuses longer ones. With no such number it
// refuses each, an empty one too.
#[derive(Drop)]
struct Pieces {
    text: String,
    longest: Option<usize>,
}

impl Write for Pieces {
    fn write_str(&mut self, piece: &str) -> fmt::Result {
        if self.longest.is_none_or(|longest| piece.len() > longest) {
            return Err(fmt::Error);
        }
        self.text.push_str(piece).map_err(|_| fmt::Error)
    }
}

// What a writer that takes pieces of so many bytes is shown is this text; or the writer refuses it.
fn shows<D: fmt::Display>(
    alloc: Global,
    shown: &D,
    longest: Option<usize>,
    text: Option<&str>,
) -> Result<(), Fail> {
    let mut pieces = Pieces {
        text: String::new(alloc),
        longest,
    };
    let taken = write!(pieces, "{shown}").is_ok();
    let as_wanted = match text {
        Some(text) => taken && pieces.text.as_str() == text,
        None => !taken,
    };
    if as_wanted {
        Ok(())
    } else {
        Err(Fail::new(format_args!("{} in pieces", pieces.text)))
    }
}

fn compare(alloc: Global, replies: &[Reply], printed: &[&'static str]) -> Result<(), Fail> {
    expect("replies", replies.len(), printed.len())?;
    for (reply, line) in replies.iter().zip(printed) {
        let said = format!(in alloc; "{reply}")?;
        if said.as_str() != *line {
            return Err(Fail::new(format_args!("{said}, not {line}")));
        }
    }
    Ok(())
}

fn print(alloc: Global, records: &[&[u16]], printed: &[&'static str]) -> Result<(), Fail> {
    let mut file = Vec::new(alloc);
    for record in records {
        put_record(&mut file, record)?;
    }
    let room = Room {
        concepts: 2,
        lines: 1,
    };
    let mut concepts = [Concept::Top; 2];
    let mut lines = [Line::default(); 1];
    let mut docket = opened(room, &mut concepts, &mut lines)?;
    let mut replies = [UNTOUCHED; 6];
    expect(
        "records",
        told(hand_over(&mut docket, file.as_slice(), &mut replies)),
        Ok(6),
    )?;
    compare(alloc, &replies, printed)?;
    expect("tally", docket.tally(), (0, 0, 0))?;
    let report = Report {
        replies: &replies,
        tally: docket.tally(),
    };
    shows(alloc, &report, Some(12), Some(REPORT))
}

#[test]
fn example(rt: HostRuntime) -> Result<(), Fail> {
    print(rt.alloc(), &EXAMPLE, &PRINTED)
}

// Of a file that is shorter than the limit there is nothing to notice, and nothing is asked of the
// writer.
#[test]
fn notices(rt: HostRuntime) -> Result<(), Fail> {
    let limit = 16_384;
    let short = Notice {
        limit,
        length: 16_383,
    };
    let long = Notice {
        limit,
        length: 16_384,
    };
    shows(rt.alloc(), &short, None, Some(""))?;
    shows(rt.alloc(), &long, Some(64), Some(NOTICE))?;
    shows(rt.alloc(), &long, None, None)
}
