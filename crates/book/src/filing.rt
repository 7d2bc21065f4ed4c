ghost use Rattle.std.specs.Prelude.{◌≡◌};
ghost use Rattle.book.specs.Lines.{label_of};
ghost use Rattle.book.specs.Drafts.{Checked, ChecksAreRight, range_checks, absent_checks, label, unfit, least_outside, concluded, members};
ghost use Rattle.labels.specs.Labels.{falling_at};
ghost use Rattle.refusals.specs.Checks.{Passed, Answered};
ghost use Rattle.vocabulary.specs.Vocabularies.{theory};

use crate::line::{Cited, Line, Step};
use crate::members::{check_principals, check_rising, check_standing, check_whole};
use calculus::bank::Bank;
use calculus::premise::Premise;
use calculus::rule::Principals;
use labels::members::{Reading, read};
use labels::rows::first_outside;
use refusals::Refusal;
use refusals::checks::check_stands;
use vocabulary::Vocabulary;

/// A line as it is handed over: a step, the lines that it cites (0 where its rule cites none), and
/// the members of its label, two bytes for each.
#[derive(Clone, Copy)]
pub struct Draft<'m> {
    pub rule: u16,
    pub on: Principals,
    pub m: u16,
    pub n: u16,
    pub members: &'m [u8],
}

// The rule number, the cited lines that it doesn't use, and the bytes of the members.
fn check_range<B: Bank>(bank: &B, f: &Draft) -> Result<(), Refusal>
    ensures { Passed (range_checks (B.Bank.calculus bank.now) f.now) result }
{
    if !bank.has(f.rule) {
        return Err(Refusal::Range(0));
    }
    let cites = bank.cites(f.rule);
    if cites < 1 && f.m != 0 {
        return Err(Refusal::Range(4));
    }
    if cites < 2 && f.n != 0 {
        return Err(Refusal::Range(5));
    }
    check_whole(f.members, 6)
}

// What the draft names has to stand. Its label is read when the rest of it was asked.
fn read_named<B: Bank>(
    bank: &B,
    v: &Vocabulary,
    lines: &[Line],
    f: &Draft,
) -> Result<Reading, Refusal>
    ensures { Answered (absent_checks (B.Bank.calculus bank.now) (theory v.now) lines.now f.now)
        (λ reading. (reading.falling ≡ falling_at (members f.now)) × (reading.row ≡ label f.now)) result }
{
    check_principals(f.on, v.len())?;
    let cites = bank.cites(f.rule);
    if cites > 0 {
        check_stands(f.m, lines.len(), 4)?;
    }
    if cites > 1 {
        check_stands(f.n, lines.len(), 5)?;
    }
    let reading = read(f.members, v.len());
    check_standing(&reading, 6)?;
    Ok(reading)
}

// The least concept of the row `y` that is outside conclusion `i`; `x` is the draft's label.
fn outside_conclusion<B: Bank>(
    bank: &B,
    v: &Vocabulary,
    f: &Draft,
    x: &[u64; 16],
    i: u8,
    y: &[u64; 16],
) -> Option<u16>
    requires { x.now ≡ label f.now }
    ensures { result ≡ least_outside y.now (concluded (B.Bank.calculus bank.now) (theory v.now) f.now i) }
{
    let at = Premise {
        vocabulary: v,
        on: f.on,
        label: x,
    };
    let row = bank.conclusion(f.rule, &at, i);
    first_outside(y, &row)
}

/// The label of a line; the empty one if there is no such line.
pub fn label_of(lines: &[Line], k: u16) -> [u64; 16]
    ensures { result ≡ label_of lines.now k }
{
    match lines.get(k as usize) {
        Some(line) => line.label,
        None => [0; 16],
    }
}

// The least concept of the first cited line that lies outside its conclusion; `x` is the draft's
// label.
fn first_unfit<B: Bank>(
    bank: &B,
    v: &Vocabulary,
    lines: &[Line],
    f: &Draft,
    x: &[u64; 16],
) -> Option<u16>
    requires { x.now ≡ label f.now }
    ensures { result ≡ unfit (B.Bank.calculus bank.now) (theory v.now) lines.now f.now }
{
    let cites = bank.cites(f.rule);
    if cites > 0 {
        let y = label_of(lines, f.m);
        if let Some(c) = outside_conclusion(bank, v, f, x, 0, &y) {
            return Some(c);
        }
    }
    if cites > 1 {
        let y = label_of(lines, f.n);
        return outside_conclusion(bank, v, f, x, 1, &y);
    }
    None
}

/// The line that a draft becomes, where `room` lines can stand; or why it is refused.
pub fn check<B: Bank>(
    bank: &B,
    v: &Vocabulary,
    lines: &[Line],
    room: usize,
    f: &Draft,
) -> Result<Line, Refusal>
    ensures { Checked (B.Bank.calculus bank.now) (theory v.now) lines.now room f.now result }
{
    check_range(bank, f)?;
    let reading = read_named(bank, v, lines, f)?;
    if lines.len() >= room {
        return Err(Refusal::Full(room));
    }
    check_rising(&reading, 6)?;
    let label = reading.row;
    let at = Premise {
        vocabulary: v,
        on: f.on,
        label: &label,
    };
    if !bank.applies(f.rule, &at) {
        return Err(Refusal::Inapplicable(f.rule));
    }
    // what is found is the refusal
    if let Some(c) = first_unfit(bank, v, lines, f, &label) {
        return Err(Refusal::Unlicensed(c));
    }
    let cited = Cited::first(bank.cites(f.rule), f.m, f.n);
    Ok(Line {
        step: Step {
            rule: f.rule,
            on: f.on,
            cited,
        },
        label,
    })
}

/// That no check of the table refuses a draft says exactly that it is admitted, licence and all. A
/// call of it does nothing; that it is proved says that it holds.
pub fn checks_are_right()
    ensures { ChecksAreRight }
{}
