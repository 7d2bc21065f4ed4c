ghost use Rattle.std.specs.Prelude.{◌≡◌};
ghost use Rattle.models.specs.Models.{WellFormed};
ghost use Rattle.models.specs.Items.{joined};
ghost use Rattle.models.specs.EdgeParts.{with_part, AllParts, AreEdgesOf};

use crate::Model;
use crate::form::Formed;
use crate::items::Edge;
use logic::role::ROLE_NAMES;

// Edges rise by the role name first. So the edges of one role name are one part of the list, and
// what asks for these reads that part alone. The parts are found by one walk for a model.

// The edges at the places from `start` up to `end`, which is not one of them.
#[derive(Clone, Copy)]
pub(crate) struct Part {
    pub(crate) start: u16,
    pub(crate) end: u16,
}

// The part of a role name becomes this one. There is no part of a name past the last.
fn set_part(parts: &mut [Part; 64], name: u16, part: Part)
    ensures { parts.new ≡ with_part parts.old name part }
{
    if name < ROLE_NAMES {
        parts[name as usize] = part;
    }
}

// The part of each role name; it is empty where no edge has the name.
pub(crate) fn edge_parts(model: &Model) -> [Part; 64]
    requires { WellFormed model.now }
    ensures { AllParts model.now.edges.now result }
{
    let mut parts = [Part { start: 0, end: 0 }; ROLE_NAMES as usize];
    // the name whose part is walked, none at first, and where that part begins
    let mut name = ROLE_NAMES;
    let mut start = 0;
    let edges = model.edge_chunks();
    for (i, bytes) in edges.iter().enumerate() {
        let next = Edge::from(*bytes).role_name;
        if next != name {
            set_part(
                &mut parts,
                name,
                Part {
                    start,
                    end: i as u16,
                },
            );
            name = next;
            start = i as u16;
        }
    }
    set_part(
        &mut parts,
        name,
        Part {
            start,
            end: edges.len() as u16,
        },
    );
    parts
}

impl<'m> Formed<'m> {
    // The edges of a role name, each as its bytes.
    pub(crate) fn edges_of(&self, name: u16) -> &'m [[u8; 6]]
        ensures { AreEdgesOf self.now.model.now.edges.now name result.now }
    {
        if name < ROLE_NAMES {
            let part = self.parts[name as usize];
            &self.model.edge_chunks()[part.start as usize..part.end as usize]
        } else {
            &[]
        }
    }

    // Whether an edge is listed.
    pub(crate) fn has_edge(&self, edge: Edge) -> bool
        ensures { result ≡ joined self.now.model.now.edges.now edge.role_name edge.from edge.to }
    {
        let edges = self.model.edge_chunks();
        let found = edges.binary_search_by_key(&edge, |bytes| Edge::from(*bytes));
        found.is_ok()
    }
}
