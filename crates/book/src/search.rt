ghost use Rattle.std.specs.Prelude.{◌≡◌};
ghost use Rattle.book.specs.Lines.{lies_within, first_line_within};

use crate::line::Line;
use labels::rows::first_outside;

// Whether the row `y` lies within the row `x`.
fn is_within(y: &[u64; 16], x: &[u64; 16]) -> bool
    ensures { result ≡ lies_within y.now x.now }
{
    first_outside(y, x).is_none()
}

/// The first line whose label lies within the row `x`.
pub fn find_within(lines: &[Line], x: &[u64; 16]) -> Option<usize>
    ensures { result ≡ first_line_within lines.now x.now }
{
    lines.iter().position(|line| is_within(&line.label, x))
}
