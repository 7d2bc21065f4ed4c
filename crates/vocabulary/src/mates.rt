ghost use Rattle.std.specs.Prelude.{◌≡◌, ℕ, None};
ghost use Rattle.logic.specs.Theories.{are_mates};
ghost use Rattle.vocabulary.specs.Mates.{mate, Joined};

use crate::MOST_CONCEPTS;

/// Which concepts are mates: paired concepts, each the complement of the other.
#[derive(Drop)]
pub struct Mates {
    of: [Option<u16>; MOST_CONCEPTS],
}

impl Mates {
    /// No concept has a mate.
    pub fn new() -> Mates
        ensures { (c : ℕ) → mate result c ≡ None }
    {
        Mates {
            of: [None; MOST_CONCEPTS],
        }
    }

    /// The mate of a concept, if it has one.
    pub fn mate(&self, c: u16) -> Option<u16>
        ensures { result ≡ mate self.now c }
    {
        *self.of.get(c as usize)?
    }

    /// Whether the two are mates.
    pub fn are_mates(&self, c: u16, d: u16) -> bool
        ensures { result ≡ are_mates (mate self.now) c d }
    {
        self.mate(c) == Some(d)
    }

    /// Makes the two mates of each other.
    pub fn join(&mut self, c: u16, d: u16)
        ensures { Joined self.old self.new c d }
    {
        if (c as usize) < MOST_CONCEPTS && (d as usize) < MOST_CONCEPTS {
            self.of[c as usize] = Some(d);
            self.of[d as usize] = Some(c);
        }
    }
}
