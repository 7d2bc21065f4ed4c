ghost use Rattle.std.specs.Prelude.{◌≡◌, ◌-◌, length};
ghost use Rattle.std.specs.Iterator.{at_most};
ghost use Rattle.records.specs.Records.{Next};
ghost use Rattle.records.specs.Files.{HasRecords, FilesAreTheirRecords};

use crate::layout::{content, extent, kind_number};
use crate::record::Frame;
use refusals::Refusal;

/// Reads a dossier file record by record.
#[derive(Drop)]
pub struct Reader<'f> {
    file: &'f [u8],
    at: usize,
}

impl<'f> Reader<'f> {
    /// A reader at the beginning of the file.
    pub fn new(file: &'f [u8]) -> Reader<'f>
        ensures { (result.file ≡ file.entry) × (result.at ≡ 0) }
    {
        Reader { file, at: 0 }
    }
}

// The records from here on, malformed ones with them.
impl<'f> Iterator for Reader<'f> {
    type Item = Frame<'f>;

    ghost next_gives = { λ r frame s. Next r s frame };

    ghost remaining = { λ r. at_most (length r.file.now - r.at) };

    fn next(&mut self) -> Option<Frame<'f>> {
        let at = self.at;
        if at >= self.file.len() {
            return None;
        }
        let rest = &self.file[at..];
        self.at = at + extent(rest);
        Some(Frame {
            offset: at,
            kind: kind_number(rest),
            content: content(rest).ok_or(Refusal::Malformed(at)),
        })
    }
}

/// How many records the file has, malformed ones with them.
pub fn count(file: &[u8]) -> usize
    ensures counted { HasRecords file.now result }
    ensures law { FilesAreTheirRecords }
{
    Reader::new(file).count()
}
