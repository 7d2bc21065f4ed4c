use crate::notation::{bytes_of, put_record, row_of};
use crate::{Said, expect, told};
use calculus::rule::Principals;
use docket::conclusion::Inquiry;
use docket::{Answer, Docket};
use intake::{Reply, take_file};
use rules::table::house;
use std::alloc::{AllocError, Global};
use std::test::Fail;

/// A call or a question, and the answer that is expected. Labels are written as lists of their members.
#[derive(Clone, Copy, Debug)]
pub enum Step<'t> {
    // a record as on the pages, its kind first and then its fields, as a file of its own
    Record(&'t [u16], Said<usize>),
    Below(u16, u16, Said<bool>),
    Transitive(u16, Said<bool>),
    Mate(u16, Said<Option<u16>>),
    FirstLine(&'t [u16], Said<Option<usize>>),
    // the rule, p, q, s and the index of the conclusion; the label; and the conclusion's members
    Concludes([u16; 5], &'t [u16], Said<&'t [u16]>),
    Tally(usize, usize, usize),
}

/// Marks the places for replies that nothing was written to.
pub const UNTOUCHED: Reply = Reply {
    kind: 999,
    answer: Ok(999),
};

/// A file, with the ten rules and rows for some concepts.
pub fn hand_over(docket: &mut Docket, file: &[u8], replies: &mut [Reply]) -> Answer {
    let mut rows = [0; 256];
    take_file(docket, &house(), file, &mut rows, replies)
}

// What is said to one record.
fn say(alloc: Global, docket: &mut Docket, record: &[u16]) -> Result<Said<usize>, AllocError> {
    let mut file = Vec::new(alloc);
    put_record(&mut file, record)?;
    let mut replies = [UNTOUCHED];
    let counted = hand_over(docket, file.as_slice(), &mut replies);
    Ok(told(counted.and(replies[0].answer)))
}

// The row of a conclusion.
fn conclusion(
    alloc: Global,
    docket: &Docket,
    asked: &[u16; 5],
    label: &[u16],
) -> Result<Said<[u64; 16]>, AllocError> {
    let [rule, p, q, s, index] = *asked;
    let members = bytes_of(alloc, label)?;
    let inquiry = Inquiry {
        rule,
        on: Principals { p, q, s },
        index,
        members: members.as_slice(),
    };
    // what is not written over is seen
    let mut memory = [u64::MAX; 16];
    let answer = told(docket.conclusion(&house(), &inquiry, &mut memory));
    Ok(answer.map(|()| memory))
}

impl Step<'_> {
    // Makes the call, or asks the question.
    pub(crate) fn take(&self, alloc: Global, docket: &mut Docket) -> Result<(), Fail> {
        match *self {
            Step::Record(record, expected) => expect(
                format_args!("{self:?}"),
                say(alloc, docket, record)?,
                expected,
            ),
            Step::Below(r, s, expected) => expect(
                format_args!("{self:?}"),
                told(docket.is_below(r, s)),
                expected,
            ),
            Step::Transitive(r, expected) => expect(
                format_args!("{self:?}"),
                told(docket.is_transitive(r)),
                expected,
            ),
            Step::Mate(c, expected) => expect(
                format_args!("{self:?}"),
                told(docket.mate(c)),
                expected,
            ),
            Step::FirstLine(label, expected) => {
                let members = bytes_of(alloc, label)?;
                expect(
                    format_args!("{self:?}"),
                    told(docket.first_line(members.as_slice())),
                    expected,
                )
            }
            Step::Concludes(asked, label, expected) => {
                let row = conclusion(alloc, docket, &asked, label)?;
                expect(format_args!("{self:?}"), row, expected.map(row_of))
            }
            Step::Tally(open, empty, inhabited) => {
                expect(
                    format_args!("{self:?}"),
                    docket.tally(),
                    (open, empty, inhabited),
                )
            }
        }
    }
}
