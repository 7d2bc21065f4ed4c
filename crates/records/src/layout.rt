ghost use Rattle.std.specs.Prelude.{◌≡◌, MatchOption};
ghost use Rattle.records.specs.declared.record.Record.{Record};
ghost use Rattle.records.specs.Records.{kind_at, end_of, LiesAt};

use crate::kind::Kind;
use crate::record::Record;
use file_bytes::{field, word};

// In this file `rest` is what is left of a file from the first byte of a record on.

// The number of the record's kind; 0 if its head is cut off.
pub(crate) fn kind_number(rest: &[u8]) -> u16
    ensures { result ≡ kind_at rest.now 0 }
{
    if rest.len() < 4 { 0 } else { word(rest, 2) }
}

// How many bytes the record has, or how many are left if it is cut off.
pub(crate) fn extent(rest: &[u8]) -> usize
    ensures { result ≡ end_of rest.now 0 }
{
    (4 + word(rest, 0) as usize).min(rest.len())
}

// The record, unless it is malformed: cut off, of an unknown kind, or of a length that its kind
// can't have.
pub(crate) fn content(rest: &[u8]) -> Option<Record<'_>>
    ensures { MatchOption result ((x : Record) → LiesAt rest.now 0 x → ⊥) (LiesAt rest.now 0) }
{
    let kind = Kind::try_from(kind_number(rest)).ok()?;
    let size = word(rest, 0) as usize;
    if !kind.can_have(size) {
        return None;
    }
    let body = rest.get(4..4 + size)?;
    match kind {
        Kind::Inclusion => Some(Record::Inclusion { body }),
        Kind::Transitivity => Some(Record::Transitivity { body }),
        Kind::Concept => Some(Record::Concept { body }),
        Kind::Pair => Some(Record::Pair { body }),
        Kind::Axiom => Some(Record::Axiom { body }),
        Kind::Seal => Some(Record::Seal),
        Kind::Line => {
            let (body, members) = body.split_at(12);
            Some(Record::Line { body, members })
        }
        Kind::Claim => Some(Record::Claim { members: body }),
        Kind::CloseEmpty => Some(Record::CloseEmpty { body }),
        Kind::CloseInhabited => {
            let (body, lists) = body.split_at(8);
            let marks = 4 * field(body, 3) as usize;
            let (marks, edges) = lists.split_at(marks.min(lists.len()));
            Some(Record::CloseInhabited { body, marks, edges })
        }
    }
}
