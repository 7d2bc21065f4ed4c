ghost use Rattle.std.specs.Prelude.{◌≤◌, length, take, OnOk, OnErr};
ghost use Rattle.std.specs.Io.KnownBytes.{Appends};
ghost use Rattle.console.specs.Outputs.{AppendsFront};

use std::io;
use std::io::{ErrorKind, Write};

/// Writes a text and hands it on. Where that fails, a beginning of it is written. Of an empty text
/// nothing is asked.
pub fn put<W: Write>(output: &mut W, text: &[u8]) -> io::Result<()>
    ensures whole { OnOk result
        (Appends (W.contents output.old) (W.contents output.new) text.now) }
    ensures front { OnErr result
        (AppendsFront (W.contents output.old) (W.contents output.new) text.now) }
{
    if text.is_empty() {
        return Ok(());
    }
    // by a loop over `write`: after an error, std's `write_all` does not say what is written
    let mut written = 0;
    while written < text.len() {
        let more = output.write(&text[written..])?;
        if more == 0 {
            return Err(io::Error::from(ErrorKind::WriteZero));
        }
        written += more;
    }
    output.flush()
}
