ghost use Rattle.std.specs.Prelude.{◌≡◌, ◌<◌, length, drop, IfOk, OnErr};
ghost use Rattle.console.specs.Inputs.{IsRead, BreaksOff};

use std::io;
use std::io::Read;

// How many bytes are asked for at a time: all that `dossier` reads, since of a message on a message
// socket what one read leaves is lost.
const CHUNK: usize = 16_384;

/// Reads until the buffer is full or the input ends, and answers how many bytes came. Those that
/// came before a failure are in the buffer too.
pub fn fill<R: Read>(input: &mut R, buffer: &mut [u8]) -> io::Result<usize>
    ensures read { IfOk result (λ n.
        IsRead (R.remaining input.old) (R.remaining input.new) buffer.old buffer.new n) }
    ensures failed { OnErr result
        (BreaksOff (R.remaining input.old) (R.remaining input.new) buffer.old buffer.new) }
{
    // By way of a chunk: a reader may write to all of what it is lent, and the places behind what
    // came are to stay. By a count: std's calls that read on end in an error at the input's end, or
    // allocate.
    let mut chunk = [0; CHUNK];
    let mut filled = 0;
    while filled < buffer.len() {
        let most = CHUNK.min(buffer.len() - filled);
        let more = input.read(&mut chunk[..most])?;
        if more == 0 {
            break;
        }
        buffer[filled..filled + more].copy_from_slice(&chunk[..more]);
        filled += more;
    }
    Ok(filled)
}
