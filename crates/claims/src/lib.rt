#![tactic(auto)]

ghost use Rattle.std.specs.Prelude.{◌≡◌, ◌<◌, ◌≤◌, [], length, MatchOption, nat_le};
ghost use Rattle.std.specs.Option.{is_some};
ghost use Rattle.claims.specs.declared.Status.TheVariants.{Open, Empty, Inhabited};
ghost use Rattle.claims.specs.Claiming.{filed, claim_at, is_open, tallied, ClaimFiled, Settled};

use register::bounded::Bounded;

/// The most claims.
pub const MOST_CLAIMS: usize = 256;

/// What has become of a claim.
#[derive(Clone, Copy, Debug, PartialEq, Eq)]
pub enum Status {
    Open,
    // no finite interpretation that meets the axioms has an element in all of its label
    Empty,
    // some finite interpretation that meets the axioms has one
    Inhabited,
}

/// A claim: a label, as a row, and what has become of it.
#[derive(Clone, Copy)]
pub struct Claim {
    pub label: [u64; 16],
    pub status: Status,
}

impl Claim {
    /// Whether it is neither empty nor inhabited yet.
    pub fn is_open(&self) -> bool
        ensures { result ≡ is_open self.now.status }
    {
        self.status == Status::Open
    }
}

/// The claims, in filing order.
#[derive(Drop)]
pub struct Claims {
    list: Bounded<Claim, MOST_CLAIMS>,
}

impl Claims {
    /// No claim.
    pub fn new() -> Claims
        ensures { filed result ≡ [] }
    {
        Claims {
            list: Bounded::new(Claim {
                label: [0; 16],
                status: Status::Open,
            }),
        }
    }

    /// The claims, by number.
    pub fn list(&self) -> &[Claim]
        ensures is { result.now ≡ filed self.now }
        ensures few { length result.now ≤ 256 }
    {
        self.list.list()
    }

    /// The claim with this number, if there is one.
    pub fn get(&self, number: u16) -> Option<Claim>
        ensures { MatchOption result (length (filed self.now) ≤ number) (λ c. (number < length (filed self.now)) × (c ≡ claim_at self.now number)) }
    {
        self.list().get(number as usize).copied()
    }

    /// Whether no claim more can be filed.
    pub fn is_full(&self) -> bool
        ensures { result ≡ nat_le 256 (length (filed self.now)) }
    {
        self.list.is_full()
    }

    /// Files an open claim with this label; None if the list is full.
    pub fn add(&mut self, label: [u64; 16]) -> Option<usize>
        ensures { ClaimFiled self.old self.new label result }
    {
        self.list.add(Claim {
            label,
            status: Status::Open,
        })
    }

    /// Settles a claim, which keeps its label; None if there is none with this number.
    pub fn settle(&mut self, number: u16, status: Status) -> Option<()>
        ensures { Settled self.old self.new number status (is_some result) }
    {
        let claim = self.get(number)?;
        self.list.set(number as usize, Claim { status, ..claim });
        Some(())
    }

    // How many claims have this status.
    fn count(&self, status: Status) -> usize
        ensures { result ≡ tallied status (filed self.now) }
    {
        self.list()
            .iter()
            .filter(|claim| claim.status == status)
            .count()
    }

    /// The open, the empty and the inhabited claims.
    pub fn tally(&self) -> (usize, usize, usize)
        ensures { result ≡ (tallied Open (filed self.now), tallied Empty (filed self.now), tallied Inhabited (filed self.now)) }
    {
        (
            self.count(Status::Open),
            self.count(Status::Empty),
            self.count(Status::Inhabited),
        )
    }
}
