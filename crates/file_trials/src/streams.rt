use console::failure::Failure;
use console::programs::{ending, run_dossier};
use std::alloc::Global;
use std::io;
use std::io::{ErrorKind, Read, Write};
use std::test::Fail;

// The most bytes that are read.
const LIMIT: usize = 16384;

const NEVER: usize = 1_000_000;

// Gives a few bytes at a time, and fails once so many are given.
#[derive(Drop)]
struct Source<'s> {
    rest: &'s [u8],
    step: usize,
    left: usize,
}

impl Read for Source<'_> {
    fn read(&mut self, buf: &mut [u8]) -> io::Result<usize> {
        if self.left == 0 {
            return Err(io::Error::from(ErrorKind::BrokenPipe));
        }
        let given = self.step.min(self.left).min(buf.len()).min(self.rest.len());
        let (now, later) = self.rest.split_at(given);
        buf[..given].copy_from_slice(now);
        self.rest = later;
        self.left -= given;
        Ok(given)
    }
}

// Gives a message, of which it throws away what one read leaves.
#[derive(Drop)]
struct Message<'m> {
    bytes: &'m [u8],
}

impl Read for Message<'_> {
    fn read(&mut self, buf: &mut [u8]) -> io::Result<usize> {
        let given = buf.len().min(self.bytes.len());
        buf[..given].copy_from_slice(&self.bytes[..given]);
        self.bytes = &[];
        Ok(given)
    }
}

// Takes a few bytes at a time, and fails once so many are taken.
#[derive(Drop)]
struct Sink {
    bytes: Vec<u8>,
    step: usize,
    left: usize,
}

impl Write for Sink {
    fn write(&mut self, buf: &[u8]) -> io::Result<usize> {
        if self.left == 0 {
            return Err(io::Error::from(ErrorKind::BrokenPipe));
        }
        let taken = self.step.min(self.left).min(buf.len());
        self.bytes.extend_from_slice(&buf[..taken])?;
        self.left -= taken;
        Ok(taken)
    }

    fn flush(&mut self) -> io::Result<()> {
        Ok(())
    }
}

fn source_of(file: &[u8], step: usize, left: usize) -> Source<'_> {
    Source {
        rest: file,
        step,
        left,
    }
}

fn sink_of(alloc: Global, step: usize, left: usize) -> Sink {
    Sink {
        bytes: Vec::new(alloc),
        step,
        left,
    }
}

// The bytes are those of the text.
fn same(what: &str, bytes: &[u8], text: &[u8]) -> Result<(), Fail> {
    if bytes == text {
        Ok(())
    } else {
        Err(Fail::new(format_args!("{what}: {} bytes, not {}", bytes.len(), text.len())))
    }
}

// A run of the program has ended as it should: well, or by an error of reading or writing.
fn ends(what: &str, end: &Result<(), Failure>, well: bool) -> Result<(), Fail> {
    let as_wanted = match end {
        Ok(()) => well,
        Err(Failure::Io(_)) => !well,
        Err(_) => false,
    };
    if as_wanted {
        Ok(())
    } else {
        Err(Fail::new(format_args!("{what}: another end")))
    }
}

// A run of the program has written its report, and its notice whole or not. Either way it has not failed.
fn ends_reported(end: Result<(), Failure>, noticed: bool) -> Result<(), Fail> {
    let as_wanted = match &end {
        Ok(()) => noticed,
        Err(Failure::Notices(_)) => !noticed,
        Err(_) => false,
    };
    if !as_wanted {
        return Err(Fail::new("noticing fails: another end"));
    }
    ends("noticing fails, told", &ending(end), true)
}

// A name and its negation as mates, the seal, a line by which they clash, and an axiom too late.
static FILE: &[u8] = b"\
        \x06\0\x03\0\x02\0\0\0\0\0\
        \x06\0\x03\0\x03\0\0\0\0\0\
        \x04\0\x04\0\0\0\x01\0\
        \0\0\x06\0\
        \x10\0\x07\0\x02\0\0\0\x01\0\0\0\0\0\0\0\0\0\x01\0\
        \x02\0\x05\0\0\0";

static TEXT: &[u8] =
    b"1 3 ok 0\n2 3 ok 1\n3 4 ok 0\n4 6 ok 0\n5 7 ok 0\n6 5 refused 2 0\nend 0 0 0\n";

static NOTICE: &[u8] =
    b"the limit of 16384 bytes is reached; what may lie behind them was not looked at\n";

// Both give and take a few bytes at a time.
#[test]
fn a_few_bytes_at_a_time(rt: HostRuntime) -> Result<(), Fail> {
    for step in 1..4 {
        let mut output = sink_of(rt.alloc(), step, NEVER);
        let mut notices = sink_of(rt.alloc(), step, NEVER);
        let result = run_dossier(&mut source_of(FILE, step, NEVER), &mut output, &mut notices);
        ends("in pieces", &result, true)?;
        same("output", output.bytes.as_slice(), TEXT)?;
        same("notices", notices.bytes.as_slice(), b"")?;
    }
    Ok(())
}

// The input fails after each count of bytes, the last time where it would have ended: then nothing is written.
#[test]
fn reading_fails(rt: HostRuntime) -> Result<(), Fail> {
    for n in 0..=FILE.len() {
        let mut output = sink_of(rt.alloc(), 7, NEVER);
        let mut notices = sink_of(rt.alloc(), 7, NEVER);
        let result = run_dossier(&mut source_of(FILE, 5, n), &mut output, &mut notices);
        ends("reading fails", &result, false)?;
        ends("reading fails, told", &ending(result), false)?;
        same("output", output.bytes.as_slice(), b"")?;
        same("notices", notices.bytes.as_slice(), b"")?;
    }
    Ok(())
}

// The output fails after each count of bytes: then so many of the text are written. With room for all it does not fail.
#[test]
fn writing_fails(rt: HostRuntime) -> Result<(), Fail> {
    for n in 0..=TEXT.len() {
        let mut output = sink_of(rt.alloc(), 5, n);
        let mut notices = sink_of(rt.alloc(), 5, NEVER);
        let result = run_dossier(&mut source_of(FILE, 7, NEVER), &mut output, &mut notices);
        ends("writing fails", &result, n == TEXT.len())?;
        ends("writing fails, told", &ending(result), n == TEXT.len())?;
        same(
            "output",
            output.bytes.as_slice(),
            &TEXT[..n.min(TEXT.len())],
        )?;
        same("notices", notices.bytes.as_slice(), b"")?;
    }
    Ok(())
}

// A file of parts, each so many times.
fn file_of(alloc: Global, parts: &[(&[u8], usize)]) -> Result<Vec<u8>, Fail> {
    let mut file = Vec::new(alloc);
    for (part, times) in parts {
        for _ in 0..*times {
            file.extend_from_slice(part)?;
        }
    }
    Ok(file)
}

// What a file of about as many bytes as the limit must do: how many of its bytes are left, how its report begins and ends, and whether
// the limit is noticed.
struct Case {
    parts: &'static [(&'static [u8], usize)],
    length: usize,
    left: usize,
    begins: &'static [u8],
    ends: &'static [u8],
    noticed: bool,
}

const SEAL: &[u8] = b"\0\0\x06\0";

const TRANSITIVE: &[u8] = b"\x02\0\x02\0\x02\0";

const TOP: &[u8] = b"\x06\0\x03\0\0\0\0\0\0\0";

// Kind 11 does not exist. One byte of a body.
const ODD: &[u8] = b"\x01\0\x0b\0\0";

static CASES: [Case; 5] = [
    // a byte less than the limit: the last head is cut off
    Case {
        parts: &[(SEAL, 4095), (b"\0\0\x06", 1)],
        length: 16383,
        left: 0,
        begins: b"1 6 ok 0\n2 6 refused 2 0\n",
        ends: b"4095 6 refused 2 0\n4096 0 refused 1 16380\nend 0 0 0\n",
        noticed: false,
    },
    // as many bytes as the limit, and more: what lies behind it is not answered
    Case {
        parts: &[(SEAL, 4096)],
        length: 16384,
        left: 0,
        begins: b"1 6 ok 0\n2 6 refused 2 0\n",
        ends: b"4095 6 refused 2 0\n4096 6 refused 2 0\nend 0 0 0\n",
        noticed: true,
    },
    Case {
        parts: &[(SEAL, 5000)],
        length: 20000,
        left: 3616,
        begins: b"1 6 ok 0\n2 6 refused 2 0\n",
        ends: b"4095 6 refused 2 0\n4096 6 refused 2 0\nend 0 0 0\n",
        noticed: true,
    },
    // a record ends with the last byte that is read, one byte before another
    Case {
        parts: &[(SEAL, 4092), (TRANSITIVE, 1), (TOP, 1), (b"\0", 1)],
        length: 16385,
        left: 1,
        begins: b"1 6 ok 0\n2 6 refused 2 0\n",
        ends: b"4092 6 refused 2 0\n4093 2 refused 2 0\n4094 3 ok 0\nend 0 0 0\n",
        noticed: true,
    },
    // it would end one byte later, and is cut off
    Case {
        parts: &[(ODD, 1), (SEAL, 4091), (TRANSITIVE, 1), (TOP, 1)],
        length: 16385,
        left: 1,
        begins: b"1 11 refused 1 0\n2 6 ok 0\n3 6 refused 2 0\n",
        ends: b"4092 6 refused 2 0\n4093 2 refused 2 0\n4094 3 refused 1 16375\nend 0 0 0\n",
        noticed: true,
    },
];

fn at_the_limit(alloc: Global, case: &Case, step: usize) -> Result<(), Fail> {
    let file = file_of(alloc, case.parts)?;
    if file.len() != case.length {
        return Err(Fail::new(format_args!("{} bytes, not {}", file.len(), case.length)));
    }
    let mut input = source_of(file.as_slice(), step, NEVER);
    let mut output = sink_of(alloc, NEVER, NEVER);
    let mut notices = sink_of(alloc, NEVER, NEVER);
    let result = run_dossier(&mut input, &mut output, &mut notices);
    ends("at the limit", &result, true)?;
    let text = output.bytes.as_slice();
    if !text.starts_with(case.begins) || !text.ends_with(case.ends) {
        return Err(Fail::new(format_args!("another report of {} bytes", case.length)));
    }
    if input.rest.len() != case.left {
        return Err(Fail::new(format_args!(
            "{} bytes are left, not {}",
            input.rest.len(),
            case.left
        )));
    }
    let notice = if case.noticed { NOTICE } else { b"" };
    same("notices", notices.bytes.as_slice(), notice)
}

#[test]
fn limits(rt: HostRuntime) -> Result<(), Fail> {
    for case in &CASES {
        at_the_limit(rt.alloc(), case, LIMIT)?;
        at_the_limit(rt.alloc(), case, 1000)?;
    }
    Ok(())
}

// What is printed for so many seals, of which the first is taken.
fn text_of_seals(alloc: Global, records: usize) -> Result<Vec<u8>, Fail> {
    let mut text = Vec::new(alloc);
    text.extend_from_slice(b"1 6 ok 0\n")?;
    for index in 2..=records {
        let line = format!(in alloc; "{index} 6 refused 2 0\n")?;
        text.extend_from_slice(line.as_bytes())?;
    }
    text.extend_from_slice(b"end 0 0 0\n")?;
    Ok(text)
}

// A report of some pages. Its output fails between them and within one: then so many bytes are written. With room for all it does not fail.
#[test]
fn pages(rt: HostRuntime) -> Result<(), Fail> {
    let file = file_of(rt.alloc(), &[(SEAL, 3000)])?;
    let text = text_of_seals(rt.alloc(), 3000)?;
    let all = text.len();
    for n in [
        0,
        1,
        8170,
        8180,
        8190,
        8191,
        8192,
        8193,
        16_384,
        20_000,
        all.saturating_sub(1),
        all,
        NEVER,
    ] {
        let mut output = sink_of(rt.alloc(), 1000, n);
        let mut notices = sink_of(rt.alloc(), 5, NEVER);
        let result = run_dossier(
            &mut source_of(file.as_slice(), 999, NEVER),
            &mut output,
            &mut notices,
        );
        ends("pages", &result, n >= all)?;
        let written = n.min(all);
        same(
            "output",
            output.bytes.as_slice(),
            &text.as_slice()[..written],
        )?;
        same("notices", notices.bytes.as_slice(), b"")?;
    }
    Ok(())
}

// All that one read can give of a message is read: up to as many bytes as the limit.
#[test]
fn messages(rt: HostRuntime) -> Result<(), Fail> {
    for records in [1024, 1025, 3000, 4096, 5000] {
        let file = file_of(rt.alloc(), &[(SEAL, records)])?;
        let mut output = sink_of(rt.alloc(), NEVER, NEVER);
        let mut notices = sink_of(rt.alloc(), NEVER, NEVER);
        let result = run_dossier(
            &mut Message {
                bytes: file.as_slice(),
            },
            &mut output,
            &mut notices,
        );
        ends("a message", &result, true)?;
        let last = records.min(4096);
        let end = format!(in rt.alloc(); "\n{last} 6 refused 2 0\nend 0 0 0\n")?;
        if !output.bytes.as_slice().ends_with(end.as_bytes()) {
            return Err(Fail::new(format_args!("another report of {records} records")));
        }
    }
    Ok(())
}

// Where no notice can be written, the report is written all the same, and the error says that it was the notice.
#[test]
fn noticing_fails(rt: HostRuntime) -> Result<(), Fail> {
    for n in 0..=NOTICE.len() {
        let file = file_of(rt.alloc(), &[(SEAL, 4096)])?;
        let mut output = sink_of(rt.alloc(), NEVER, NEVER);
        let mut notices = sink_of(rt.alloc(), 11, n);
        let result = run_dossier(
            &mut source_of(file.as_slice(), LIMIT, NEVER),
            &mut output,
            &mut notices,
        );
        ends_reported(result, n == NOTICE.len())?;
        if !output
            .bytes
            .as_slice()
            .ends_with(b"\n4096 6 refused 2 0\nend 0 0 0\n")
        {
            return Err(Fail::new("another report"));
        }
        same(
            "notices",
            notices.bytes.as_slice(),
            &NOTICE[..n.min(NOTICE.len())],
        )?;
    }
    Ok(())
}
