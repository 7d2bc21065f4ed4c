ghost use Rattle.std.specs.Prelude.{◌≡◌, ◌*◌, ◌/◌, ◌<◌, ◌≤◌, true, ◌&&◌, length, ◌==◌};
ghost use Rattle.std.specs.Option.{ForSome};
ghost use Rattle.register.specs.References.{all_below, Ordered};
ghost use Rattle.rows.specs.Rows.{HasRow, contains, turned, RowBecomes};
ghost use Rattle.logic.specs.Concepts.{parts};
ghost use Rattle.models.specs.Items.{target};
ghost use Rattle.models.specs.Models.{described};
ghost use Rattle.models.specs.Evaluation.{Named, reaches, computed, Evaluated};

use crate::form::Formed;
use crate::items::Edge;
use logic::concept::Concept;
use register::entry::Entry;
use rows::{clear, complement, contains, insert, intersect, unite};

// Whether an edge, as a pair of the role, leads into row `b`, or out of it. `outside` is a value
// that is compared, and chooses no step.
fn is_hit(rows: &[u64], edge: Edge, role: u16, b: usize, outside: bool) -> bool
    requires room { HasRow rows.now b }
    requires few { target role edge < 256 }
    ensures { result ≡ turned outside (contains rows.now b (target role edge)) }
{
    contains(rows, b, edge.target(role) as usize) != outside
}

impl Formed<'_> {
    // Row `c` becomes the elements that the role leads from into row `b`, or out of it.
    fn fill_reaching(&self, rows: &mut [u64], c: usize, role: u16, b: usize, outside: bool)
        requires room { HasRow rows.old c }
        requires below { b < c }
        ensures { RowBecomes rows.old rows.new c (λ e. reaches self.now.model.now.edges.now role (λ y. turned outside (contains rows.old b y)) e) }
    {
        clear(rows, c);
        let edges = self.edges_of(role / 2);
        for bytes in edges {
            let edge = Edge::from(*bytes);
            if is_hit(rows, edge, role, b, outside) {
                insert(rows, c, edge.source(role) as usize);
            }
        }
    }

    // Row `c` becomes the elements in a concept, from the rows of its parts. The model's size is
    // handed over, so that no concept has to read it again.
    fn fill(
        &self,
        size: usize,
        names: Option<&[u64; 4096]>,
        rows: &mut [u64],
        c: usize,
        concept: Concept,
    )
        requires size { size ≡ self.now.model.now.size }
        requires named { ForSome names (λ table. Named self.now.model.now.marks.now table.now) }
        requires room { HasRow rows.old c }
        requires parts { all_below (parts concept) c ≡ true }
        ensures { RowBecomes rows.old rows.new c (λ e. computed self.now.model.now rows.old concept e) }
    {
        match concept {
            Concept::Top => {
                clear(rows, c);
                complement(rows, c, size);
            }
            Concept::Bottom => clear(rows, c),
            Concept::Name(name) => self.fill_named(names, rows, c, name),
            Concept::NotName(name) => {
                self.fill_named(names, rows, c, name);
                complement(rows, c, size);
            }
            Concept::And(a, b) => intersect(rows, c, a as usize, b as usize),
            Concept::Or(a, b) => unite(rows, c, a as usize, b as usize),
            Concept::Only(role, b) => {
                self.fill_reaching(rows, c, role, b as usize, true);
                complement(rows, c, size);
            }
            Concept::Exists(role, b) => self.fill_reaching(rows, c, role, b as usize, false),
        }
    }

    // Fills the row of every concept, those of names by the table if there is one. One that has a
    // part at or above its own number gets none.
    fn fill_all(&self, names: Option<&[u64; 4096]>, rows: &mut [u64], concepts: &[Concept])
        requires named { ForSome names (λ table. Named self.now.model.now.marks.now table.now) }
        requires room { 4 * length concepts.now ≤ length rows.old }
        ensures { Ordered parts concepts.now
            → Evaluated (described self.now.model.now) concepts.now rows.old rows.new }
    {
        let size = self.model.size as usize;
        for (c, concept) in concepts.iter().enumerate() {
            if concept.refers_below(c) {
                self.fill(size, names, rows, c, *concept);
            }
        }
    }

    // The same by a table.
    fn fill_by_table(&self, rows: &mut [u64], concepts: &[Concept])
        requires { 4 * length concepts.now ≤ length rows.old }
        ensures { Ordered parts concepts.now
            → Evaluated (described self.now.model.now) concepts.now rows.old rows.new }
    {
        let mut names = [0; 4096];
        self.fill_names(&mut names);
        self.fill_all(Some(&names), rows, concepts)
    }

    // Fills the row of every concept that refers to earlier ones alone.
    pub(crate) fn evaluate(&self, rows: &mut [u64], concepts: &[Concept])
        requires { 4 * length concepts.now ≤ length rows.old }
        ensures { Ordered parts concepts.now
            → Evaluated (described self.now.model.now) concepts.now rows.old rows.new }
    {
        if self.is_table_cheaper(concepts) {
            self.fill_by_table(rows, concepts)
        } else {
            self.fill_all(None, rows, concepts)
        }
    }
}
