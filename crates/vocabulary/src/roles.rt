ghost use Rattle.std.specs.Prelude.{◌≡◌, []};
ghost use Rattle.logic.specs.Roles.{NamesBelow};
ghost use Rattle.register.specs.Lists.{Added};
ghost use Rattle.closure.specs.Decide.{is_below, is_transitive};

use crate::MOST_AXIOMS;
use bits::bit;
use closure;
use logic::role::{ROLES, RoleAxiom};
use register::bounded::Bounded;
use std::marker::Model;

/// The role axioms, with what they say of every two roles kept at hand. Contracts see the list of
/// them, in filing order; that the tables answer what the list says belongs to the type.
#[derive(Drop)]
pub struct Roles {
    axioms: Bounded<RoleAxiom, MOST_AXIOMS>,
    // the closure of the inclusions: row r has a bit for each role that r is below
    below: [u64; 256],
    // a bit for each role name that is transitive; a role and its inverse are transitive together
    transitive: u64,
}

impl Model for Roles {
    ghost use Rattle.std.specs.Prelude.{List};
    ghost use Rattle.logic.specs.declared.role.RoleAxiom.{RoleAxiom};
    ghost use Rattle.vocabulary.specs.Tables.{RolesAgree};

    ghost Value = { List RoleAxiom };

    ghost view = { λ r. r.axioms };

    ghost invariant = { λ r. RolesAgree r.axioms r.below r.transitive };
}

impl Roles {
    /// No axiom: each role is below itself alone, and none is transitive.
    pub fn new() -> Roles
        ensures { result ≡ [] }
    {
        let mut below = [0; 256];
        closure::start(&mut below, ROLES);
        Roles {
            axioms: Bounded::new(RoleAxiom::Inclusion(0, 0)),
            below,
            transitive: 0,
        }
    }

    /// The role axioms, in filing order.
    pub fn axioms(&self) -> &[RoleAxiom]
        ensures { result.now ≡ self.now }
    {
        self.axioms.list()
    }

    /// Whether role `r` is below role `s`. A number that is no role is below itself alone.
    pub fn is_below(&self, r: u16, s: u16) -> bool
        ensures { result ≡ is_below self.now r s }
    {
        let (r, s) = (r as usize, s as usize);
        if r < ROLES && s < ROLES {
            closure::below(&self.below, ROLES, r, s)
        } else {
            r == s
        }
    }

    /// Whether role `r` is transitive.
    pub fn is_transitive(&self, r: u16) -> bool
        ensures { result ≡ is_transitive self.now r }
    {
        (r as usize) < ROLES && bit(self.transitive, r as usize / 2)
    }

    /// Files a role axiom; None if the list is full.
    pub fn file(&mut self, new: RoleAxiom) -> Option<usize>
        requires { NamesBelow 128 new }
        ensures { Added 256 self.old self.new new result }
    {
        let number = self.axioms.add(new)?;
        match new {
            RoleAxiom::Inclusion(r, s) => closure::include(
                &mut self.below,
                ROLES,
                r as usize,
                s as usize,
            ),
            RoleAxiom::Transitivity(r) => self.transitive |= 1 << (r / 2),
        }
        Some(number)
    }
}
