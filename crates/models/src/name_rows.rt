ghost use Rattle.std.specs.Prelude.{◌≡◌, replicate};
ghost use Rattle.std.specs.Option.{ForSome};
ghost use Rattle.rows.specs.Rows.{HasRow, RowWritten, RowBecomes};
ghost use Rattle.models.specs.Items.{marked};
ghost use Rattle.models.specs.Evaluation.{Named};

use crate::form::Formed;
use crate::items::Mark;
use logic::concept::{Concept, NAMES};
use rows::{clear, insert, row};

// The elements of each name in a model. They are found by a walk over the marks for each concept
// that is a name or not in one; or where that is dearer, copied from a table of rows that one walk
// makes: row a has the elements in name a.

// The most marks that are walked, over all concepts, before a table is cheaper.
const WALKED: usize = 1024;

// Row `c` becomes these words.
fn write(rows: &mut [u64], c: usize, row: [u64; 4])
    requires { HasRow rows.old c }
    ensures { RowWritten rows.old rows.new c row }
{
    rows[4 * c..4 * c + 4].copy_from_slice(&row);
}

// Whether the elements of a concept are those in a name, or those not in one.
fn is_of_a_name(concept: &Concept) -> bool {
    matches!(concept, Concept::Name(_) | Concept::NotName(_))
}

impl Formed<'_> {
    // Whether a table is cheaper. Either way the rows are the same.
    pub(crate) fn is_table_cheaper(&self, concepts: &[Concept]) -> bool {
        let marks = self.model.mark_chunks().len();
        marks.saturating_mul(concepts.len()) > WALKED
            && marks.saturating_mul(
                concepts
                    .iter()
                    .filter(|concept| is_of_a_name(concept))
                    .count(),
            ) > WALKED
    }

    // Makes the table, in memory that is all zeros.
    pub(crate) fn fill_names(&self, table: &mut [u64; 4096])
        requires { table.old ≡ replicate 4096 0 }
        ensures { Named self.now.model.now.marks.now table.new }
    {
        for bytes in self.model.mark_chunks() {
            let mark = Mark::from(*bytes);
            insert(table, mark.name as usize, mark.element as usize);
        }
    }

    // Row `c` becomes the elements in a name, by the table.
    fn copy_named(&self, table: &[u64; 4096], rows: &mut [u64], c: usize, name: u16)
        requires named { Named self.now.model.now.marks.now table.now }
        requires room { HasRow rows.old c }
        ensures { RowBecomes rows.old rows.new c (λ e. marked self.now.model.now.marks.now name e) }
    {
        if name < NAMES {
            write(rows, c, row(table, name as usize));
        } else {
            clear(rows, c);
        }
    }

    // Row `c` becomes the elements in a name, by a walk.
    fn walk_named(&self, rows: &mut [u64], c: usize, name: u16)
        requires { HasRow rows.old c }
        ensures { RowBecomes rows.old rows.new c (λ e. marked self.now.model.now.marks.now name e) }
    {
        clear(rows, c);
        for bytes in self.model.mark_chunks() {
            let mark = Mark::from(*bytes);
            if mark.name == name {
                insert(rows, c, mark.element as usize);
            }
        }
    }

    // Row `c` becomes the elements in a name, by the table if there is one.
    pub(crate) fn fill_named(
        &self,
        names: Option<&[u64; 4096]>,
        rows: &mut [u64],
        c: usize,
        name: u16,
    )
        requires named { ForSome names (λ table. Named self.now.model.now.marks.now table.now) }
        requires room { HasRow rows.old c }
        ensures { RowBecomes rows.old rows.new c (λ e. marked self.now.model.now.marks.now name e) }
    {
        match names {
            Some(table) => self.copy_named(table, rows, c, name),
            None => self.walk_named(rows, c, name),
        }
    }
}
