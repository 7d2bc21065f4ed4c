ghost use Rattle.std.specs.Prelude.{◌≡◌, ◌+◌, ◌-◌, IfSome};
ghost use Rattle.std.specs.Iterator.{at_most};
ghost use Rattle.labels.specs.Labels.{next_from};

use labels::rows::next_from;

// The members of a row from `from` upward, the least first.
#[derive(Drop)]
pub(crate) struct Members {
    pub(crate) row: [u64; 16],
    pub(crate) from: u16,
}

impl Iterator for Members {
    type Item = u16;

    ghost next_gives = { λ s r t. (r ≡ next_from s.row s.from) × (t ≡ record s { from = t.from })
        × IfSome r (λ d. t.from ≡ d + 1) };

    ghost remaining = { λ s. at_most (1024 - s.from) };

    fn next(&mut self) -> Option<u16> {
        let d = next_from(&self.row, self.from)?;
        self.from = d + 1;
        Some(d)
    }
}
