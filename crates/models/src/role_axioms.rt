ghost use Rattle.std.specs.Prelude.{◌≡◌, T, ◌↔◌, length, slice_index_or};
ghost use Rattle.logic.specs.declared.role.RoleAxiom.TheVariants.{Inclusion};
ghost use Rattle.logic.specs.Interpretations.{leads, Includes, IsTransitive, MeetsRoleAxiom};
ghost use Rattle.models.specs.Firsts.{First};
ghost use Rattle.models.specs.Models.{described};
ghost use Rattle.models.specs.Pairs.{PairIncluded, PairContinued, Shortcut};

use crate::form::Formed;
use crate::items::Edge;
use crate::pairs::Pairs;
use logic::role::RoleAxiom;

// A role axiom asks something of each edge of a role's name. The pairs that it asks for are looked
// up: each by a search among the edges, or where so many are asked for that this is dearer, in a
// table of the role's pairs.

// The most edges whose inclusion is tried by searches, whatever the number of the other edges.
const FEW_INCLUDED: usize = 32;

// The most edges of a role name whose transitivity is tried by searches.
const FEW_CONTINUED: usize = 8;

// Whether an edge, as a pair of role `r`, is one of these pairs.
fn is_pair_included(pairs: &Pairs, r: u16, edge: Edge) -> bool
    ensures { T result ↔ PairIncluded pairs.now.formed.model.now r pairs.now.role edge }
{
    pairs.has(edge.source(r), edge.target(r))
}

// Whether an edge, as a pair of role `r`, goes on by these pairs in one step.
fn is_pair_continued(pairs: &Pairs, r: u16, edge: Edge) -> bool
    ensures { T result ↔ PairContinued pairs.now.formed.model.now r pairs.now.role edge }
{
    pairs.leads_on(edge.source(r), edge.target(r))
}

impl Formed<'_> {
    // Whether a role leads from an element to another.
    fn leads(&self, role: u16, from: u16, to: u16) -> bool
        ensures { result ≡ leads (described self.now.model.now) role from to }
    {
        let (from, to) = if role % 2 == 0 {
            (from, to)
        } else {
            (to, from)
        };
        self.has_edge(Edge {
            role_name: role / 2,
            from,
            to,
        })
    }

    // Whether an edge, as a pair of role `r`, is a pair of role `s`.
    fn is_pair_of(&self, r: u16, s: u16, edge: Edge) -> bool
        ensures { T result ↔ PairIncluded self.now.model.now r s edge }
    {
        self.leads(s, edge.source(r), edge.target(r))
    }

    // Whether one edge makes the steps of two, if the second goes on from the first.
    fn has_shortcut(&self, role: u16, first: Edge, second: Edge) -> bool
        ensures { T result ↔ Shortcut self.now.model.now role first second }
    {
        second.source(role) != first.target(role)
            || self.leads(role, first.source(role), second.target(role))
    }

    // Whether an edge, as a pair of a role, goes on by that role in one step.
    fn has_shortcuts(&self, role: u16, edge: Edge) -> bool
        ensures { T result ↔ PairContinued self.now.model.now role role edge }
    {
        self.edges_of(role / 2)
            .iter()
            .all(|bytes| self.has_shortcut(role, edge, Edge::from(*bytes)))
    }

    // Whether every pair of role `r` is a pair of role `s`, by a table.
    fn is_included_by_table(&self, r: u16, s: u16) -> bool
        ensures { T result ↔ Includes (described self.now.model.now) r s }
    {
        let pairs = Pairs::of(*self, s);
        self.edges_of(r / 2)
            .iter()
            .all(|bytes| is_pair_included(&pairs, r, Edge::from(*bytes)))
    }

    // Whether every pair of role `r` is a pair of role `s`. A table costs a walk over the edges of
    // the second.
    fn is_included(&self, r: u16, s: u16) -> bool
        ensures { T result ↔ Includes (described self.now.model.now) r s }
    {
        let edges = self.edges_of(r / 2);
        if edges.len() > FEW_INCLUDED && 12 * edges.len() >= self.edges_of(s / 2).len() {
            return self.is_included_by_table(r, s);
        }
        edges
            .iter()
            .all(|bytes| self.is_pair_of(r, s, Edge::from(*bytes)))
    }

    // Whether a role is transitive, by a table.
    fn is_transitive_by_table(&self, role: u16) -> bool
        ensures { T result ↔ IsTransitive (described self.now.model.now) role }
    {
        let pairs = Pairs::of(*self, role);
        self.edges_of(role / 2).iter().all(|bytes| is_pair_continued(
            &pairs,
            role,
            Edge::from(*bytes),
        ))
    }

    // Whether a role is transitive.
    fn is_transitive(&self, role: u16) -> bool
        ensures { T result ↔ IsTransitive (described self.now.model.now) role }
    {
        let edges = self.edges_of(role / 2);
        if edges.len() > FEW_CONTINUED {
            return self.is_transitive_by_table(role);
        }
        edges
            .iter()
            .all(|bytes| self.has_shortcuts(role, Edge::from(*bytes)))
    }

    // Whether the model meets a role axiom.
    fn meets(&self, role_axiom: RoleAxiom) -> bool
        ensures { T result ↔ MeetsRoleAxiom (described self.now.model.now) role_axiom }
    {
        match role_axiom {
            RoleAxiom::Inclusion(r, s) => self.is_included(r, s),
            RoleAxiom::Transitivity(role) => self.is_transitive(role),
        }
    }

    // The first role axiom that the model breaks.
    pub(crate) fn first_broken(&self, role_axioms: &[RoleAxiom]) -> Option<usize>
        ensures { First (λ i. MeetsRoleAxiom (described self.now.model.now) (slice_index_or role_axioms.now i (Inclusion 0 0))) (length role_axioms.now) result }
    {
        // without edges none is broken, and none has to be looked at
        if self.model.edge_chunks().is_empty() {
            return None;
        }
        role_axioms
            .iter()
            .position(|role_axiom| !self.meets(*role_axiom))
    }
}
