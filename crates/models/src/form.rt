ghost use Rattle.std.specs.Prelude.{◌≡◌, ◌<◌, T, ◌↔◌, MatchResult};
ghost use Rattle.models.specs.Items.{marks_in, edges_in, GoodMark, GoodEdge};
ghost use Rattle.models.specs.Models.{Sized, FirstBadMark, FirstBadEdge, WellFormed, FirstFlaw};
ghost use Rattle.models.specs.FormProps.{WellFormed-prop};
ghost use Rattle.models.specs.EdgeParts.{AllParts, AllParts-prop};

use crate::Model;
use crate::edge_parts::{Part, edge_parts};
use logic::concept::NAMES;
use logic::role::ROLE_NAMES;

// The most elements of a model.
pub(crate) const MOST_ELEMENTS: u16 = 256;

// The most marks and the most edges.
const MOST_MARKS: u16 = 4096;

const MOST_EDGES: usize = 4096;

// A model that is well formed, with the part of its edges that each role name has.
#[derive(Clone, Copy)]
pub(crate) struct Formed<'m> {
    pub(crate) model: &'m Model<'m>,
    pub(crate) parts: [Part; 64],
    ghost formed: { WellFormed model.now } by { WellFormed-prop model.now },
    ghost parted: { AllParts model.now.edges.now parts } by { AllParts-prop model.now.edges.now parts },
}

impl<'m> Formed<'m> {
    // The model, or the place where it is wrong first, which is the place of the refusal. What is
    // found is the error, and `map_or(Ok(()), ..)?` is no plainer than an `if let`.
    pub(crate) fn new(model: &'m Model<'m>) -> Result<Formed<'m>, usize>
        ensures { MatchResult result
            (λ formed. formed.model.now ≡ model.now) (λ place. FirstFlaw model.now place) }
    {
        if !is_sized(model) {
            return Err(0);
        }
        if let Some(i) = first_bad_mark(model) {
            return Err(1 + i);
        }
        if let Some(i) = first_bad_edge(model) {
            return Err(1 + model.mark_count as usize + i);
        }
        let parts = edge_parts(model);
        Ok(Formed { model, parts })
    }
}

// Whether the numbers, the counts and the lengths are right.
fn is_sized(model: &Model) -> bool
    ensures { T result ↔ Sized model.now }
{
    let marks = model.marks;
    let edges = model.edges;
    model.size > 0
        && model.size <= MOST_ELEMENTS
        && model.point < model.size
        && model.mark_count <= MOST_MARKS
        && marks.len() == 4 * model.mark_count as usize
        && edges.len() % 6 == 0
        && edges.len() / 6 <= MOST_EDGES
}

// Marks and edges are tested by functions of their own, as they are read. They go by number, since
// each is set beside the one before.

// Whether mark `i` is in range, and above the one before.
fn is_good_mark(model: &Model, i: usize) -> bool
    requires { i < marks_in model.now.marks.now }
    ensures { T result ↔ GoodMark model.now.marks.now model.now.size i }
{
    let mark = model.mark(i);
    mark.element < model.size && mark.name < NAMES && (i == 0 || model.mark(i - 1) < mark)
}

// The first bad mark.
fn first_bad_mark(model: &Model) -> Option<usize>
    ensures { FirstBadMark model.now result }
{
    (0..model.mark_chunks().len()).find(|i| !is_good_mark(model, *i))
}

// Whether edge `i` is in range, and above the one before.
fn is_good_edge(model: &Model, i: usize) -> bool
    requires { i < edges_in model.now.edges.now }
    ensures { T result ↔ GoodEdge model.now.edges.now model.now.size i }
{
    let edge = model.edge(i);
    edge.role_name < ROLE_NAMES
        && edge.from < model.size
        && edge.to < model.size
        && (i == 0 || model.edge(i - 1) < edge)
}

// The first bad edge.
fn first_bad_edge(model: &Model) -> Option<usize>
    ensures { FirstBadEdge model.now result }
{
    (0..model.edge_chunks().len()).find(|i| !is_good_edge(model, *i))
}
