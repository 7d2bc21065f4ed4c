ghost use Rattle.std.specs.Prelude.{length};
ghost use Rattle.console.specs.Answers.{Answers};

use crate::failure::Failure;
use book::line::Line;
use docket::Docket;
use intake::{Reply, take_file};
use logic::concept::Concept;
use rules::table::house;

/// What a docket made of a dossier: how many replies there are, and the open, the empty and the
/// inhabited claims.
#[derive(Clone, Copy)]
pub struct Outcome {
    pub count: usize,
    pub tally: (usize, usize, usize),
}

/// Hands a dossier to a new docket with the ten rules, which has room for as many concepts and
/// lines as there are places. Its replies go to the first places for them; or an error says why no
/// docket was asked.
pub fn answer(
    file: &[u8],
    concepts: &mut [Concept],
    lines: &mut [Line],
    rows: &mut [u64],
    replies: &mut [Reply],
) -> Result<Outcome, Failure>
    ensures { Answers file.now (length concepts.old) (length lines.old)
        rows.old rows.new replies.old replies.new result }
{
    // no `.map_err(..)?`: the borrow checker does not cover a method that takes an error with
    // several `&mut`
    let Ok(mut docket) = Docket::open(concepts.len(), lines.len(), concepts, lines) else {
        return Err(Failure::Capacities);
    };
    let count = take_file(&mut docket, &house(), file, rows, replies).map_err(
        |_| Failure::Replies,
    )?;
    Ok(Outcome {
        count,
        tally: docket.tally(),
    })
}
