#![tactic(auto)]

mod edge_parts;
mod evaluation;
mod form;
mod items;
mod name_rows;
mod pairs;
mod role_axioms;
mod verdict;

ghost use Rattle.std.specs.Prelude.{◌≡◌, ◌*◌, ◌<◌, ◌≤◌, length, IsErrAnd};
ghost use Rattle.refusals.specs.Table.{returned};
ghost use Rattle.vocabulary.specs.Vocabularies.{concepts, theory};
ghost use Rattle.models.specs.Judging.{Judged};

use crate::form::Formed;
use crate::verdict::Extensions;
use refusals::Refusal;
use vocabulary::Vocabulary;

/// A finite model as it is handed over: how many elements there are, which of them is the point,
/// and its marks and edges. A mark says that an element is in a name: (element, name). An edge says
/// that a role name leads from an element to another: (role name, from, to). Both lists rise in the
/// lexicographic order; every field has two bytes, the low one first. The count of marks is the one
/// that the record states, and need not be that of its bytes.
#[derive(Drop)]
pub struct Model<'f> {
    pub size: u16,
    pub point: u16,
    pub mark_count: u16,
    pub marks: &'f [u8],
    pub edges: &'f [u8],
}

/// Whether a model is well formed, meets the vocabulary's role axioms and its axioms, and has its
/// point in every concept of a label, which is a row of bits. The first of these that fails is the
/// answer. Any vocabulary and any label are judged: no element is in a concept that does not stand.
/// The rows are working memory: four words for each concept, in which the elements of the concept
/// are left; memory that is too short for them is refused first.
pub fn judge(
    vocabulary: &Vocabulary,
    label: &[u64; 16],
    model: &Model,
    rows: &mut [u64],
) -> Result<(), Refusal>
    ensures too_short { length rows.old < 4 * length (concepts vocabulary.now)
        → IsErrAnd result (λ f. returned f ≡ (3, 0)) × (rows.new ≡ rows.old) }
    ensures judged { 4 * length (concepts vocabulary.now) ≤ length rows.old
        → Judged (theory vocabulary.now) label.now model.now rows.old result rows.new }
{
    let concepts = vocabulary.concepts();
    let count = concepts.len();
    // so that a call is safe whatever it is given
    if rows.len() / 4 < count {
        return Err(Refusal::Range(0));
    }
    let formed = Formed::new(model).map_err(Refusal::Model)?;
    // Each search finds what is refused: its `Some` is the error, and `map_or(Ok(()), ..)?` is no
    // plainer.
    if let Some(i) = formed.first_broken(vocabulary.role_axioms()) {
        return Err(Refusal::RoleAxiom(i));
    }
    formed.evaluate(rows, concepts);
    let Model { size, point, .. } = *formed.model;
    let extensions = Extensions { rows, count, size };
    if let Some(i) = extensions.first_missed(vocabulary.axioms()) {
        return Err(Refusal::Axiom(i));
    }
    if let Some(c) = extensions.least_missed(label, point) {
        return Err(Refusal::Point(c));
    }
    Ok(())
}
