ghost use Rattle.std.specs.Prelude.{◌≡◌, ◌+◌, ◌≤◌, ◌++◌, length};
ghost use Rattle.std.specs.Fmt.{decimal};
ghost use Rattle.arrayvec.specs.ArrayString.{array_string_len};
ghost use Rattle.intake.specs.Printing.{answer_text};
ghost use Rattle.console.specs.Reports.{reply_line, last_line, notice_text};

use arrayvec::ArrayString;
use docket::Answer;
use intake::Reply;
use itoa::Buffer;

/// A line that a program prints, in a place of its own, which has room for each.
pub type PrintedLine = ArrayString<128>;

/// The line for a reply, with the index of its record.
pub fn line_of_reply(index: usize, reply: &Reply) -> PrintedLine
    ensures { result.bytes ≡ reply_line index reply.now }
{
    let mut line = PrintedLine::new();
    push_number(&mut line, index);
    line.push_str(" ");
    push_number(&mut line, reply.kind as usize);
    push_answer(&mut line, reply.answer);
    line.push_str("\n");
    line
}

/// The last line: how many claims are open, empty and inhabited.
pub fn line_of_tally(tally: (usize, usize, usize)) -> PrintedLine
    ensures { result.bytes ≡ last_line tally }
{
    let (open, empty, inhabited) = tally;
    let mut line = PrintedLine::new();
    line.push_str("end ");
    push_number(&mut line, open);
    line.push_str(" ");
    push_number(&mut line, empty);
    line.push_str(" ");
    push_number(&mut line, inhabited);
    line.push_str("\n");
    line
}

/// What is said of a file of so many bytes that reaches the limit of what is read: what may lie
/// behind it is not known. Of a shorter one, nothing.
pub fn line_of_notice(limit: usize, length: usize) -> PrintedLine
    ensures { result.bytes ≡ notice_text limit length }
{
    let mut line = PrintedLine::new();
    if length < limit {
        return line;
    }
    line.push_str("the limit of ");
    push_number(&mut line, limit);
    line.push_str(" bytes is reached; what may lie behind them was not looked at\n");
    line
}

fn push_answer(line: &mut PrintedLine, answer: Answer)
    requires { array_string_len line.old + 50 ≤ 128 }
    ensures bytes { line.new.bytes ≡ line.old.bytes ++ answer_text answer }
    ensures few { length (answer_text answer) ≤ 50 }
{
    match answer {
        Ok(number) => {
            line.push_str(" ok ");
            push_number(line, number);
        }
        Err(refusal) => {
            let (number, place) = refusal.returned();
            line.push_str(" refused ");
            push_number(line, number as usize);
            line.push_str(" ");
            push_number(line, place);
        }
    }
}

fn push_number(line: &mut PrintedLine, number: usize)
    requires { array_string_len line.old + 20 ≤ 128 }
    ensures bytes { line.new.bytes ≡ line.old.bytes ++ decimal number }
    ensures few { length (decimal number) ≤ 20 }
{
    let mut digits = Buffer::new();
    line.push_str(digits.format(number));
}
