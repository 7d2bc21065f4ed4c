ghost use Rattle.std.specs.Prelude.{◌≡◌, ℕ, ◌<◌, T, ◌↔◌, length};
ghost use Rattle.bits.specs.Bits.{has};
ghost use Rattle.logic.specs.Interpretations.{leads};
ghost use Rattle.models.specs.Models.{described};
ghost use Rattle.models.specs.Pairs.{WordWithin, Within, Tabled, Tabled-prop, LeadsOn};

use crate::form::{Formed, MOST_ELEMENTS};
use crate::items::Edge;
use rows::{insert, row};

// The pairs of a role in a model, as a table of rows: row x has the elements that the role leads to
// from x. So each pair is a look, and to set what one element is led to beside what another is
// costs four words.
#[derive(Clone, Copy)]
pub(crate) struct Pairs<'m> {
    formed: Formed<'m>,
    role: u16,
    table: [u64; 1024],
    ghost tabled: { Tabled formed.model.now role table } by { Tabled-prop formed.model.now role table },
}

// Whether every bit of the word `y` is one of `x`.
pub(crate) fn is_word_within(y: u64, x: u64) -> bool
    ensures { T result ↔ WordWithin y x }
{
    y ^ (y & x) == 0
}

// Whether every element of the row `y` is in the row `x`.
pub(crate) fn is_within(y: [u64; 4], x: [u64; 4]) -> bool
    ensures { T result ↔ Within y x }
{
    (0..4).all(|w| is_word_within(y[w], x[w]))
}

impl<'m> Pairs<'m> {
    // The pairs of a role, the edges of its name walked once.
    pub(crate) fn of(formed: Formed<'m>, role: u16) -> Pairs<'m>
        ensures model { result.formed ≡ formed.entry }
        ensures role { result.role ≡ role }
    {
        let mut table = [0; 1024];
        let edges = formed.edges_of(role / 2);
        for bytes in edges {
            let edge = Edge::from(*bytes);
            insert(
                &mut table,
                edge.source(role) as usize,
                edge.target(role) as usize,
            );
        }
        Pairs {
            formed,
            role,
            table,
        }
    }

    // The elements that the role leads to from `x`.
    fn row(&self, x: u16) -> [u64; 4]
        ensures four { length result ≡ 4 }
        ensures leads_to { (z : ℕ) → z < 256
            → has result z ≡ leads (described self.now.formed.model.now) self.now.role x z }
    {
        if x < MOST_ELEMENTS {
            row(&self.table, x as usize)
        } else {
            [0; 4]
        }
    }

    // Whether the role leads from an element to another.
    pub(crate) fn has(&self, from: u16, to: u16) -> bool
        ensures { result ≡ leads (described self.now.formed.model.now) self.now.role from to }
    {
        bits::has(&self.row(from), to as usize)
    }

    // Whether the role leads from `x` to all that it leads to from `y`.
    pub(crate) fn leads_on(&self, x: u16, y: u16) -> bool
        ensures { T result ↔ LeadsOn (described self.now.formed.model.now) self.now.role x y }
    {
        is_within(self.row(y), self.row(x))
    }
}
