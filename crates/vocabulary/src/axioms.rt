ghost use Rattle.std.specs.Prelude.{◌≡◌, ℕ, ◌<◌, [], length};
ghost use Rattle.bits.specs.Among.{among};
ghost use Rattle.bits.specs.Bits.{has};
ghost use Rattle.register.specs.Lists.{Added};

use crate::{MOST_AXIOMS, MOST_CONCEPTS};
use bits;
use register::bounded::Bounded;
use std::marker::Model;

/// The concepts that were filed as holding of every element. Contracts see the list of them, in
/// filing order.
#[derive(Drop)]
pub struct Axioms {
    list: Bounded<u16, MOST_AXIOMS>,
    // a bit for each concept of the list, so that asking for one is a look and no search
    row: [u64; 16],
}

impl Model for Axioms {
    ghost use Rattle.std.specs.Prelude.{ℕ, List};
    ghost use Rattle.vocabulary.specs.Tables.{RowAgrees};

    ghost Value = { List ℕ };

    ghost view = { λ a. a.list };

    ghost invariant = { λ a. RowAgrees a.list a.row };
}

impl Axioms {
    /// No axiom.
    pub fn new() -> Axioms
        ensures { result ≡ [] }
    {
        Axioms {
            list: Bounded::new(0),
            row: [0; 16],
        }
    }

    /// The axioms, in filing order.
    pub fn list(&self) -> &[u16]
        ensures { result.now ≡ self.now }
    {
        self.list.list()
    }

    /// The axioms as a row of bits.
    pub fn row(&self) -> [u64; 16]
        ensures sixteen { length result ≡ 16 }
        ensures exact { (c : ℕ) → c < 1024 → has result c ≡ among self.now c }
    {
        self.row
    }

    /// Whether the concept is an axiom.
    pub fn has(&self, c: u16) -> bool
        ensures { result ≡ among self.now c }
    {
        if (c as usize) < MOST_CONCEPTS {
            bits::has(&self.row, c as usize)
        } else {
            let list = &self.list;
            list.list().contains(&c)
        }
    }

    /// Adds an axiom; None if the list is full.
    pub fn add(&mut self, c: u16) -> Option<usize>
        ensures { Added 256 self.old self.new c result }
    {
        let number = self.list.add(c)?;
        bits::insert(&mut self.row, c as usize);
        Some(number)
    }
}
