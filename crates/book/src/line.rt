ghost use Rattle.std.specs.Prelude.{◌≡◌};
ghost use Rattle.book.specs.Lines.{cited_lines, citing};

use calculus::rule::Principals;
use register::entry::Entry;

/// The lines that a step cites, in the order of its rule's conclusions.
#[derive(Clone, Copy, Default)]
pub enum Cited {
    #[default]
    Nothing,
    One(u16),
    Two(u16, u16),
}

impl Cited {
    /// The first `count` of the two lines.
    pub fn first(count: u8, m: u16, n: u16) -> Cited
        ensures { result ≡ citing count m n }
    {
        match count {
            0 => Cited::Nothing,
            1 => Cited::One(m),
            _ => Cited::Two(m, n),
        }
    }
}

/// One step of a tableau: a rule, the concepts that it names, and the lines that it cites.
#[derive(Clone, Copy, Default)]
pub struct Step {
    pub rule: u16,
    pub on: Principals,
    pub cited: Cited,
}

/// A line of the book: a label, as a row with a bit for each concept, and the step by which no
/// element has all of it.
#[derive(Clone, Copy, Default)]
pub struct Line {
    pub step: Step,
    pub label: [u64; 16],
}

impl Entry for Line {
    ghost references = { cited_lines };

    fn refers_below(&self, n: usize) -> bool {
        match self.step.cited {
            Cited::Nothing => true,
            Cited::One(m) => (m as usize) < n,
            Cited::Two(m, k) => (m as usize) < n && (k as usize) < n,
        }
    }
}
