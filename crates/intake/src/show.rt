ghost use Rattle.std.specs.Prelude.{Some};
ghost use Rattle.intake.specs.Printing.{reply_text};

use crate::Reply;
use std::fmt;

// A reply as the program prints it: the kind, and then `ok` with the entry's number or `refused`
// with number and place.
impl fmt::Display for Reply {
    ghost output = { λ r. Some (reply_text r) };

    fn fmt<W: fmt::Write>(&self, f: &mut fmt::Formatter<W>) -> fmt::Result {
        let kind = self.kind;
        match self.answer {
            Ok(number) => write!(f, "{kind} ok {number}"),
            Err(refusal) => {
                let (number, place) = refusal.returned();
                write!(f, "{kind} refused {number} {place}")
            }
        }
    }
}
