use book::line::Line;
use desk::step::Step::{self, Below, Record, Transitive};
use desk::{Room, opened, play, play_all};
use docket::Docket;
use logic::concept::Concept;
use std::alloc::{AllocError, Global};
use std::test::Fail;

// No concept and no line is filed here; a docket has room for one of each at least.
const ROOM: Room = Room {
    concepts: 1,
    lines: 1,
};

// Role names at both ends, and their inverses.
static ENDS: [Step; 10] = [
    Record(&[1, 126, 0], Ok(0)),
    Record(&[6], Ok(0)),
    Below(126, 0, Ok(true)),
    Below(127, 1, Ok(true)),
    Below(127, 0, Ok(false)),
    Below(126, 1, Ok(false)),
    Below(0, 126, Ok(false)),
    Below(1, 127, Ok(false)),
    Below(126, 126, Ok(true)),
    Below(126, 127, Ok(false)),
];

// A chain of two.
static CHAIN: [Step; 10] = [
    Record(&[1, 124, 126], Ok(0)),
    Record(&[1, 126, 2], Ok(1)),
    Record(&[6], Ok(0)),
    Below(124, 2, Ok(true)),
    Below(125, 3, Ok(true)),
    Below(125, 2, Ok(false)),
    Below(124, 3, Ok(false)),
    Below(2, 124, Ok(false)),
    Below(124, 126, Ok(true)),
    Below(127, 3, Ok(true)),
];

// The same, the later half first and by the inverses.
static CHAIN_BY_INVERSES: [Step; 7] = [
    Record(&[1, 127, 3], Ok(0)),
    Record(&[1, 125, 127], Ok(1)),
    Record(&[6], Ok(0)),
    Below(124, 2, Ok(true)),
    Below(125, 3, Ok(true)),
    Below(125, 2, Ok(false)),
    Below(2, 124, Ok(false)),
];

// A role below its own inverse, and so the inverse below the role.
static OWN_INVERSE: [Step; 6] = [
    Record(&[1, 126, 127], Ok(0)),
    Record(&[6], Ok(0)),
    Below(126, 127, Ok(true)),
    Below(127, 126, Ok(true)),
    Below(124, 125, Ok(false)),
    Below(125, 124, Ok(false)),
];

// Two roles below each other, one as an inverse.
static BOTH_WAYS: [Step; 10] = [
    Record(&[1, 124, 127], Ok(0)),
    Record(&[1, 127, 124], Ok(1)),
    Record(&[6], Ok(0)),
    Below(124, 127, Ok(true)),
    Below(127, 124, Ok(true)),
    Below(125, 126, Ok(true)),
    Below(126, 125, Ok(true)),
    Below(124, 125, Ok(false)),
    Below(124, 126, Ok(false)),
    Below(126, 127, Ok(false)),
];

// A ring of three.
static RING: [Step; 12] = [
    Record(&[1, 125, 127], Ok(0)),
    Record(&[1, 127, 1], Ok(1)),
    Record(&[1, 0, 124], Ok(2)),
    Record(&[6], Ok(0)),
    Below(124, 0, Ok(true)),
    Below(0, 126, Ok(true)),
    Below(126, 124, Ok(true)),
    Below(1, 127, Ok(true)),
    Below(127, 125, Ok(true)),
    Below(0, 1, Ok(false)),
    Below(124, 125, Ok(false)),
    Below(126, 1, Ok(false)),
];

#[test]
fn few_inclusions(rt: HostRuntime) -> Result<(), Fail> {
    for steps in [
        &ENDS[..],
        &CHAIN,
        &CHAIN_BY_INVERSES,
        &OWN_INVERSE,
        &BOTH_WAYS,
        &RING,
    ] {
        play_all(rt.alloc(), ROOM, &[steps])?;
    }
    Ok(())
}

// The order in which the links of a chain are filed: from the first on, from the last on, or every other one first.
#[derive(Clone, Copy)]
enum Order {
    Forward,
    Backward,
    EveryOther,
}

// The first names of so many links, in this order.
fn links(alloc: Global, order: Order, count: u8) -> Result<Vec<u8>, AllocError> {
    match order {
        Order::Forward => (0..count).collect(alloc),
        Order::Backward => (0..count).rev().collect(alloc),
        Order::EveryOther => (0..count)
            .step_by(2)
            .chain((1..count).step_by(2))
            .collect(alloc),
    }
}

// Files that each name of a link is below the next one, or below its inverse with `twist`; and the seal.
fn chain(alloc: Global, docket: &mut Docket, links: &[u8], twist: bool) -> Result<(), Fail> {
    for (i, name) in links.iter().enumerate() {
        let role = 2 * u16::from(*name);
        let next = if twist { role + 3 } else { role + 2 };
        play(alloc, docket, &[Record(&[1, role, next], Ok(i))])?;
    }
    play(alloc, docket, &[Record(&[6], Ok(0))])
}

// Every pair of roles, where such a chain leads from the first to the last of so many names.
fn chained(alloc: Global, docket: &mut Docket, names: u16, twist: bool) -> Result<(), Fail> {
    for r in 0..128u16 {
        for s in 0..128u16 {
            let (i, j) = (r / 2, s / 2);
            // a twisted link leads from a role to an inverse, so that an even number of them leads back
            let turns = if twist && i < j { j - i } else { 0 };
            let leads = i == j || (i < j && j < names);
            play(
                alloc,
                docket,
                &[Below(r, s, Ok(leads && (r + s + turns) % 2 == 0))],
            )?;
        }
    }
    Ok(())
}

// Chains of 63 and of 64 role names.
fn long_chains(alloc: Global, order: Order) -> Result<(), Fail> {
    for names in [63, 64u8] {
        for twist in [false, true] {
            let mut concepts = [Concept::Top; 1];
            let mut lines = [Line::default(); 1];
            let mut docket = opened(ROOM, &mut concepts, &mut lines)?;
            let links = links(alloc, order, names - 1)?;
            chain(alloc, &mut docket, links.as_slice(), twist)?;
            chained(alloc, &mut docket, u16::from(names), twist)?;
        }
    }
    Ok(())
}

#[test]
fn chains_forward(rt: HostRuntime) -> Result<(), Fail> {
    long_chains(rt.alloc(), Order::Forward)
}

#[test]
fn chains_backward(rt: HostRuntime) -> Result<(), Fail> {
    long_chains(rt.alloc(), Order::Backward)
}

#[test]
fn chains_of_every_other_link(rt: HostRuntime) -> Result<(), Fail> {
    long_chains(rt.alloc(), Order::EveryOther)
}

// Every third name is transitive, by the role or by its inverse; an inclusion below a transitive role, and one above.
fn every_third(alloc: Global, docket: &mut Docket) -> Result<(), Fail> {
    for i in 0..22u16 {
        let name = 3 * i;
        play(
            alloc,
            docket,
            &[Record(&[2, 2 * name + name % 2], Ok(i as usize))],
        )?;
    }
    play(
        alloc,
        docket,
        &[
            Record(&[1, 2, 126], Ok(22)),
            Record(&[1, 0, 4], Ok(23)),
            Record(&[6], Ok(0)),
        ],
    )
}

// A role and its inverse are transitive together, and a role below a transitive one is not for that.
#[test]
fn transitivities(rt: HostRuntime) -> Result<(), Fail> {
    let mut concepts = [Concept::Top; 1];
    let mut lines = [Line::default(); 1];
    let mut docket = opened(ROOM, &mut concepts, &mut lines)?;
    every_third(rt.alloc(), &mut docket)?;
    for r in 0..128u16 {
        play(
            rt.alloc(),
            &mut docket,
            &[Transitive(r, Ok(r / 2 % 3 == 0))],
        )?;
    }
    Ok(())
}

// Where nothing is filed, each role is below itself alone, and none is transitive.
#[test]
fn no_role_axiom(rt: HostRuntime) -> Result<(), Fail> {
    let mut concepts = [Concept::Top; 1];
    let mut lines = [Line::default(); 1];
    let mut docket = opened(ROOM, &mut concepts, &mut lines)?;
    chain(rt.alloc(), &mut docket, &[], false)?;
    chained(rt.alloc(), &mut docket, 0, false)?;
    for r in 0..128 {
        play(rt.alloc(), &mut docket, &[Transitive(r, Ok(false))])?;
    }
    Ok(())
}
