use crate::banks::{Lent, beside, forgetting, guested, opened, prepared};
use book::filing::Draft;
use book::line::Line;
use calculus::rule::Principals;
use desk::notation::bytes_of;
use desk::{Said, told};
use docket::Docket;
use intake::{Reply, take_file};
use logic::concept::Concept;
use rules::table::house;
use std::alloc::Global;
use std::process::Abort;
use std::test::Fail;

// A line that is handed over, and the answer: the bank, the rule and the concepts that it names, the cited lines, and the label.
type Filing = (Lent, u16, [u16; 3], [u16; 2], &'static [u16], Said<usize>);

// One after the other, by one docket.
const FILINGS: [Filing; 24] = [
    // the house hasn't rule 11, nor 12; beside the house there is no rule 13
    (Lent::House, 11, [5, 0, 0], [0, 0], &[5], Err((3, 0))),
    (Lent::House, 12, [0, 0, 0], [0, 0], &[0, 5], Err((3, 0))),
    (Lent::Guested, 13, [0, 0, 0], [0, 0], &[0, 5], Err((3, 0))),
    // the lines of a step by rule 11 stand first: {0} and {3}
    (Lent::Guested, 11, [5, 0, 0], [0, 0], &[5], Err((4, 4))),
    (Lent::House, 1, [0, 0, 0], [0, 0], &[0], Ok(0)),
    (Lent::Guested, 2, [1, 2, 0], [0, 0], &[1, 2], Ok(1)),
    (Lent::House, 3, [3, 0, 0], [1, 0], &[3], Ok(2)),
    (Lent::Guested, 11, [5, 0, 0], [0, 3], &[5], Err((4, 5))),
    // each after the conclusion of its place
    (Lent::Guested, 11, [5, 0, 0], [2, 0], &[5], Err((9, 3))),
    (Lent::Guested, 11, [5, 0, 0], [0, 1], &[5], Err((9, 1))),
    // "some R C", where C is "D and E"; "D or E" itself; p outside the label; concepts that the rule doesn't use
    (Lent::Guested, 11, [6, 0, 0], [0, 2], &[6], Err((8, 11))),
    (Lent::Guested, 11, [4, 0, 0], [0, 2], &[4], Err((8, 11))),
    (Lent::Guested, 11, [5, 0, 0], [0, 2], &[4, 6], Err((8, 11))),
    (Lent::Guested, 11, [5, 1, 0], [0, 2], &[5], Err((8, 11))),
    (Lent::Guested, 11, [5, 0, 1], [0, 2], &[5], Err((8, 11))),
    // and the step itself, which the house goes on to refuse
    (Lent::House, 11, [5, 0, 0], [0, 2], &[5], Err((3, 0))),
    (Lent::Guested, 11, [5, 0, 0], [0, 2], &[5], Ok(3)),
    (Lent::House, 11, [5, 0, 0], [0, 2], &[5], Err((3, 0))),
    // the house cites the line of a guest
    (Lent::House, 3, [7, 0, 0], [3, 0], &[7], Ok(4)),
    // rule 12 cites one line and names no concept; of the label it keeps 0 alone
    (Lent::Guested, 12, [0, 0, 0], [0, 2], &[0, 5], Err((3, 5))),
    (Lent::Guested, 12, [1, 0, 0], [0, 0], &[0, 5], Err((8, 12))),
    (Lent::Guested, 12, [0, 0, 0], [3, 0], &[0, 5], Err((9, 5))),
    (Lent::Guested, 12, [0, 0, 0], [0, 0], &[0, 5], Ok(5)),
    (Lent::House, 12, [0, 0, 0], [0, 0], &[0, 5], Err((3, 0))),
];

fn as_said(
    rt: &impl Abort,
    heap: Global,
    docket: &mut Docket,
    filing: &Filing,
) -> Result<(), Fail> {
    let (lent, rule, [p, q, s], [m, n], label, said) = *filing;
    let members = bytes_of(heap, label)?;
    let draft = Draft {
        rule,
        on: Principals { p, q, s },
        m,
        n,
        members: &members,
    };
    let answer = match lent {
        Lent::House => docket.file_line(&house(), &draft),
        Lent::Guested => docket.file_line(&guested(), &draft),
    };
    assert_eq!(rt;
        told(answer),
        said,
        "rule {rule} of {lent:?} at {label:?}, citing {m} and {n}"
    );
    Ok(())
}

// One docket is lent both banks in turn. It takes a line by rule 11 only with the bank that has the rule.
#[test]
fn lines(rt: HostRuntime) -> Result<(), Fail> {
    let mut memory = [Concept::Top; 8];
    let mut slots = [Line::default(); 16];
    let mut docket = prepared(&rt, &mut memory, &mut slots)?;
    for filing in &FILINGS {
        as_said(&rt, rt.alloc(), &mut docket, filing)?;
    }
    Ok(())
}

// How many lines a step cites is the leftmost rule's too: none by the house's rule 1, one by the guest's.
#[test]
fn leftmost_cites(rt: HostRuntime) -> Result<(), Fail> {
    let mut memory = [Concept::Top; 8];
    let mut slots = [Line::default(); 16];
    let mut docket = prepared(&rt, &mut memory, &mut slots)?;
    let guest_first = beside(forgetting::<1>(1), house());
    let house_first = beside(house(), forgetting::<1>(1));
    let draft = Draft {
        rule: 1,
        on: Principals::default(),
        m: 0,
        n: 0,
        members: b"\0\0",
    };
    assert_eq!(rt; told(docket.file_line(&guest_first, &draft)), Err((4, 4)));
    assert_eq!(rt; told(docket.file_line(&house_first, &draft)), Ok(0));
    assert_eq!(rt; told(docket.file_line(&guest_first, &draft)), Ok(1));
    let draft = Draft { m: 2, ..draft };
    assert_eq!(rt; told(docket.file_line(&guest_first, &draft)), Err((4, 4)));
    assert_eq!(rt; told(docket.file_line(&house_first, &draft)), Err((3, 4)));
    Ok(())
}

// The first six of the concepts, the mates, the seal, and then lines by the rules 1, 2, 3 and 11.
fn file() -> [u8; 146] {
    *b"\
        \x06\0\x03\0\x01\0\0\0\0\0\
        \x06\0\x03\0\x02\0\0\0\0\0\
        \x06\0\x03\0\x03\0\0\0\0\0\
        \x06\0\x03\0\x04\0\x01\0\x02\0\
        \x06\0\x03\0\x05\0\0\0\x03\0\
        \x06\0\x03\0\x07\0\x7f\0\x04\0\
        \x04\0\x04\0\x01\0\x02\0\
        \0\0\x06\0\
        \x0e\0\x07\0\x01\0\0\0\0\0\0\0\0\0\0\0\0\0\
        \x10\0\x07\0\x02\0\x01\0\x02\0\0\0\0\0\0\0\x01\0\x02\0\
        \x0e\0\x07\0\x03\0\x03\0\0\0\0\0\x01\0\0\0\x03\0\
        \x0e\0\x07\0\x0b\0\x05\0\0\0\0\0\0\0\x02\0\x05\0"
}

// A whole file, handed over with one bank or the other: the last line is taken or refused.
fn handed_over(rt: &impl Abort, lent: Lent, last: Said<usize>) -> Result<(), Fail> {
    let mut memory = [Concept::Top; 8];
    let mut slots = [Line::default(); 16];
    let mut docket = opened(&mut memory, &mut slots)?;
    let mut replies = [Reply {
        kind: 0,
        answer: Ok(0),
    }; 12];
    let taken = match lent {
        Lent::House => take_file(&mut docket, &house(), &file(), &mut [], &mut replies),
        Lent::Guested => take_file(&mut docket, &guested(), &file(), &mut [], &mut replies),
    };
    assert_eq!(rt; told(taken), Ok(12));
    for (number, reply) in replies[8..11].iter().enumerate() {
        assert_eq!(rt; told(reply.answer), Ok(number));
    }
    assert_eq!(rt; told(replies[11].answer), last, "{lent:?}");
    Ok(())
}

#[test]
fn files(rt: HostRuntime) -> Result<(), Fail> {
    handed_over(&rt, Lent::House, Err((3, 0)))?;
    handed_over(&rt, Lent::Guested, Ok(3))
}
