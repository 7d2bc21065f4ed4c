use crate::banks::{beside, forgetting, guested, prepared};
use crate::forgetting::ForgettingRule;
use book::line::Line;
use calculus::bank::{Bank, Single};
use calculus::rule::Principals;
use desk::notation::bytes_of;
use desk::{Said, told};
use docket::Docket;
use docket::conclusion::Inquiry;
use logic::concept::Concept;
use rules::table::house;
use std::alloc::Global;
use std::process::Abort;
use std::test::Fail;

// A question for a conclusion, and the answer: the rule and the concept p, the index, the label, and the concepts of the conclusion.
type Question = (
    u16,
    u16,
    u16,
    &'static [u16],
    Result<&'static [u16], (u16, usize)>,
);

// The first word of the row that the docket writes; concepts are few here.
fn concluded<B: Bank>(docket: &Docket, bank: &B, asked: &Inquiry) -> Said<u64> {
    let mut row = [0; 16];
    let answer = docket.conclusion(bank, asked, &mut row);
    told(answer.map(|()| row[0]))
}

fn answers<B: Bank>(
    rt: &impl Abort,
    heap: Global,
    docket: &Docket,
    bank: &B,
    questions: &[Question],
) -> Result<(), Fail> {
    for (rule, p, index, label, said) in questions {
        let members = bytes_of(heap, label)?;
        let asked = Inquiry {
            rule: *rule,
            on: Principals { p: *p, q: 0, s: 0 },
            index: *index,
            members: &members,
        };
        let mut word = 0;
        if let Ok(listed) = said {
            for c in *listed {
                assert!(rt; *c < 64);
                word |= 1 << *c;
            }
        }
        assert_eq!(rt;
            concluded(docket, bank, &asked),
            said.map(|_| word),
            "rule {rule} of {p} at {label:?}"
        );
    }
    Ok(())
}

#[test]
fn conclusions(rt: HostRuntime) -> Result<(), Fail> {
    let mut memory = [Concept::Top; 8];
    let mut slots = [Line::default(); 16];
    let docket = prepared(&rt, &mut memory, &mut slots)?;
    answers(
        &rt,
        rt.alloc(),
        &docket,
        &guested(),
        &[
            (11, 5, 0, &[5], Ok(&[0])),
            (11, 5, 1, &[5], Ok(&[3])),
            (11, 5, 2, &[5], Err((3, 4))),
            (11, 6, 0, &[6], Err((8, 11))),
            (11, 5, 0, &[4, 6], Err((8, 11))),
            (12, 0, 0, &[0, 3, 5], Ok(&[0])),
            (12, 0, 0, &[3, 5], Ok(&[])),
            (12, 0, 1, &[0, 3, 5], Err((3, 4))),
            (12, 3, 0, &[0, 3, 5], Err((8, 12))),
            (13, 0, 0, &[0, 3, 5], Err((3, 0))),
            // the house's rules answer as ever
            (3, 3, 0, &[3], Ok(&[1, 2, 3])),
            (4, 4, 1, &[4], Ok(&[3, 4])),
            (10, 5, 0, &[5], Ok(&[4])),
        ],
    )?;
    answers(
        &rt,
        rt.alloc(),
        &docket,
        &house(),
        &[
            (11, 5, 0, &[5], Err((3, 0))),
            (12, 0, 0, &[0, 3, 5], Err((3, 0))),
            (3, 3, 0, &[3], Ok(&[1, 2, 3])),
        ],
    )
}

// Two rules with the number 3, which have one conclusion each.
fn number_3(rt: &impl Abort, heap: Global, docket: &Docket) -> Result<(), Fail> {
    answers(
        rt,
        heap,
        docket,
        &beside(forgetting::<3>(1), house()),
        &[
            (3, 0, 0, &[0, 3], Ok(&[0])),
            (3, 3, 0, &[3], Err((8, 3))),
            (4, 4, 1, &[4], Ok(&[3, 4])),
        ],
    )?;
    answers(
        rt,
        heap,
        docket,
        &beside(house(), forgetting::<3>(1)),
        &[
            (3, 0, 0, &[0, 3], Err((8, 3))),
            (3, 3, 0, &[3], Ok(&[1, 2, 3])),
        ],
    )
}

// How many conclusions there are is the leftmost rule's too: the house's rule 1 has none, and its rule 4 has two.
fn numbers_1_and_4(rt: &impl Abort, heap: Global, docket: &Docket) -> Result<(), Fail> {
    answers(
        rt,
        heap,
        docket,
        &beside(beside(forgetting::<1>(1), forgetting::<4>(1)), house()),
        &[
            (1, 0, 0, &[0, 3], Ok(&[0])),
            (4, 0, 0, &[0, 4], Ok(&[0])),
            (4, 4, 1, &[4], Err((3, 4))),
        ],
    )?;
    answers(
        rt,
        heap,
        docket,
        &beside(house(), beside(forgetting::<1>(1), forgetting::<4>(1))),
        &[
            (1, 0, 0, &[0, 3], Err((3, 4))),
            (4, 0, 0, &[0, 4], Err((8, 4))),
            (4, 4, 1, &[4], Ok(&[3, 4])),
        ],
    )
}

// Two guests of number 12: of 0, 3 and 5 one keeps 0 alone, the other 0 and 3.
fn few() -> Single<ForgettingRule<12>> {
    forgetting(1)
}

fn many() -> Single<ForgettingRule<12>> {
    forgetting(4)
}

fn number_12(rt: &impl Abort, heap: Global, docket: &Docket) -> Result<(), Fail> {
    const FEW: [Question; 1] = [(12, 0, 0, &[0, 3, 5], Ok(&[0]))];
    const MANY: [Question; 1] = [(12, 0, 0, &[0, 3, 5], Ok(&[0, 3]))];
    answers(rt, heap, docket, &beside(few(), many()), &FEW)?;
    answers(rt, heap, docket, &beside(many(), few()), &MANY)?;
    // banks within banks
    answers(
        rt,
        heap,
        docket,
        &beside(few(), beside(many(), house())),
        &FEW,
    )?;
    answers(
        rt,
        heap,
        docket,
        &beside(beside(house(), many()), few()),
        &MANY,
    )
}

// Where a number is in a bank twice, the leftmost rule has it.
#[test]
fn leftmost(rt: HostRuntime) -> Result<(), Fail> {
    let mut memory = [Concept::Top; 8];
    let mut slots = [Line::default(); 16];
    let docket = prepared(&rt, &mut memory, &mut slots)?;
    number_3(&rt, rt.alloc(), &docket)?;
    numbers_1_and_4(&rt, rt.alloc(), &docket)?;
    number_12(&rt, rt.alloc(), &docket)
}
