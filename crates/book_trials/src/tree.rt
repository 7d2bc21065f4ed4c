use book::line::Line;
use desk::step::Step::{self, Below, Concludes, FirstLine, Mate, Record, Tally, Transitive};
use desk::{Room, opened, play};
use docket::Docket;
use logic::concept::Concept;
use std::alloc::{AllocError, Global};
use std::test::Fail;

// Role 0 below role 2, role 3 transitive and so role 2, and role 5 below role 1, so that role 4 is below role 0.
static VOCABULARY: [Step; 44] = [
    Record(&[1, 0, 2], Ok(0)),
    Record(&[2, 3], Ok(1)),
    Record(&[1, 5, 1], Ok(2)),
    // 0: the names 0, 1 and 2, and not, each with its mate
    Record(&[3, 2, 0, 0], Ok(0)),
    Record(&[3, 3, 0, 0], Ok(1)),
    Record(&[4, 0, 1], Ok(0)),
    Record(&[3, 2, 1, 0], Ok(2)),
    Record(&[3, 3, 1, 0], Ok(3)),
    Record(&[4, 2, 3], Ok(0)),
    Record(&[3, 2, 2, 0], Ok(4)),
    Record(&[3, 3, 2, 0], Ok(5)),
    Record(&[4, 4, 5], Ok(0)),
    // 6: Bottom
    Record(&[3, 1, 0, 0], Ok(6)),
    // 7: name 0, and some 0 has only 1 of not name 0: rule 8 sends "some 1 of name 0" there
    Record(&[3, 6, 1, 1], Ok(7)),
    Record(&[3, 7, 0, 7], Ok(8)),
    Record(&[3, 7, 1, 0], Ok(9)),
    Record(&[3, 6, 0, 9], Ok(10)),
    Record(&[3, 4, 0, 8], Ok(11)),
    // 12: some 2 of not name 1, and some 3 of "only 2 of name 1": rule 9 sends the first there
    Record(&[3, 6, 2, 2], Ok(12)),
    Record(&[3, 7, 2, 3], Ok(13)),
    Record(&[4, 13, 12], Ok(0)),
    Record(&[3, 6, 3, 13], Ok(14)),
    Record(&[3, 7, 3, 12], Ok(15)),
    Record(&[3, 4, 13, 15], Ok(16)),
    // 17: only 2 of name 1, and some 4 has some 0 of not name 1: rule 10 carries the first, and rule 5 narrows it
    Record(&[3, 6, 0, 2], Ok(17)),
    Record(&[3, 7, 0, 3], Ok(18)),
    Record(&[3, 7, 4, 18], Ok(19)),
    Record(&[3, 4, 12, 19], Ok(20)),
    // 21: the axioms: what is in name 2 is in name 0, and what is not has no neighbour by 0
    Record(&[3, 5, 5, 0], Ok(21)),
    Record(&[3, 6, 0, 6], Ok(22)),
    Record(&[3, 5, 4, 22], Ok(23)),
    // 24: not name 0, and some 0 of not name 1: rule 7 cuts, and rule 6 takes an axiom for either side
    Record(&[3, 4, 1, 18], Ok(24)),
    // 25: one of the four
    Record(&[3, 5, 11, 16], Ok(25)),
    Record(&[3, 5, 20, 24], Ok(26)),
    Record(&[3, 5, 25, 26], Ok(27)),
    Record(&[5, 21], Ok(0)),
    Record(&[5, 23], Ok(1)),
    // 28: two that can be paired
    Record(&[3, 2, 9, 0], Ok(28)),
    Record(&[3, 3, 9, 0], Ok(29)),
    Record(&[6], Ok(0)),
    // claims of name 0; of name 0 and not name 0; of what is in one of the four; of not name 0
    Record(&[8, 0], Ok(0)),
    Record(&[8, 0, 1], Ok(1)),
    Record(&[8, 27], Ok(2)),
    Record(&[8, 1], Ok(3)),
];

// A node of a closed tree: its rule with p, q and s; its children, by their places in the table; and its label.
type Node = ([u16; 4], &'static [usize], &'static [u16]);

// A closed tree for the label {27}, with each of the ten rules: a node, and after it what hangs from it.
static TREE: [Node; 46] = [
    ([4, 27, 0, 0], &[1, 21], &[27]),
    ([4, 25, 0, 0], &[2, 16], &[25, 27]),
    ([3, 11, 0, 0], &[3], &[11, 25, 27]),
    ([8, 1, 0, 10], &[4, 5], &[0, 8, 11, 25, 27]),
    ([2, 0, 1, 0], &[], &[0, 1, 8, 11, 25, 27]),
    ([10, 8, 0, 0], &[6], &[0, 8, 10, 11, 25, 27]),
    ([4, 21, 0, 0], &[7, 11], &[7, 9, 21, 23]),
    ([4, 23, 0, 0], &[8, 9], &[5, 7, 9, 21, 23]),
    ([2, 4, 5, 0], &[], &[4, 5, 7, 9, 21, 23]),
    ([10, 9, 0, 0], &[10], &[5, 7, 9, 21, 22, 23]),
    ([2, 0, 1, 0], &[], &[0, 1, 21, 23]),
    ([4, 23, 0, 0], &[12, 14], &[0, 7, 9, 21, 23]),
    ([10, 9, 0, 0], &[13], &[0, 4, 7, 9, 21, 23]),
    ([2, 0, 1, 0], &[], &[0, 1, 21, 23]),
    ([10, 9, 0, 0], &[15], &[0, 7, 9, 21, 22, 23]),
    ([2, 0, 1, 0], &[], &[0, 1, 21, 23]),
    ([3, 16, 0, 0], &[17], &[16, 25, 27]),
    ([9, 12, 13, 14], &[18, 19], &[13, 15, 16, 25, 27]),
    ([2, 12, 13, 0], &[], &[12, 13, 15, 16, 25, 27]),
    ([10, 15, 0, 0], &[20], &[13, 14, 15, 16, 25, 27]),
    ([2, 12, 13, 0], &[], &[12, 13, 14, 21, 23]),
    ([4, 26, 0, 0], &[22, 35], &[26, 27]),
    ([3, 20, 0, 0], &[23], &[20, 26, 27]),
    ([10, 19, 0, 0], &[24], &[12, 19, 20, 26, 27]),
    ([4, 21, 0, 0], &[25, 29], &[12, 18, 21, 23]),
    ([4, 23, 0, 0], &[26, 27], &[5, 12, 18, 21, 23]),
    ([2, 4, 5, 0], &[], &[4, 5, 12, 18, 21, 23]),
    ([10, 18, 0, 0], &[28], &[5, 12, 18, 21, 22, 23]),
    ([1, 6, 0, 0], &[], &[3, 6, 12, 21, 23]),
    ([4, 23, 0, 0], &[30, 33], &[0, 12, 18, 21, 23]),
    ([5, 12, 17, 0], &[31], &[0, 4, 12, 18, 21, 23]),
    ([10, 18, 0, 0], &[32], &[0, 4, 12, 17, 18, 21, 23]),
    ([2, 2, 3, 0], &[], &[2, 3, 12, 21, 23]),
    ([10, 18, 0, 0], &[34], &[0, 12, 18, 21, 22, 23]),
    ([1, 6, 0, 0], &[], &[3, 6, 12, 21, 23]),
    ([3, 24, 0, 0], &[36], &[24, 26, 27]),
    ([7, 4, 5, 0], &[37, 41], &[1, 18, 24, 26, 27]),
    ([6, 21, 0, 0], &[38], &[1, 4, 18, 24, 26, 27]),
    ([4, 21, 0, 0], &[39, 40], &[1, 4, 18, 21, 24, 26, 27]),
    ([2, 4, 5, 0], &[], &[1, 4, 5, 18, 21, 24, 26, 27]),
    ([2, 0, 1, 0], &[], &[0, 1, 4, 18, 21, 24, 26, 27]),
    ([6, 23, 0, 0], &[42], &[1, 5, 18, 24, 26, 27]),
    ([4, 23, 0, 0], &[43, 44], &[1, 5, 18, 23, 24, 26, 27]),
    ([2, 4, 5, 0], &[], &[1, 4, 5, 18, 23, 24, 26, 27]),
    ([10, 18, 0, 0], &[45], &[1, 5, 18, 22, 23, 24, 26, 27]),
    ([1, 6, 0, 0], &[], &[3, 6, 21, 23]),
];

// Children from left to right, and then their parent.
static LEFT_TO_RIGHT: [usize; 46] = [
    4, 8, 10, 9, 7, 13, 12, 15, 14, 11, 6, 5, 3, 2, 18, 20, 19, 17, 16, 1, 26, 28, 27, 25, 32, 31,
    30, 34, 33, 29, 24, 23, 22, 39, 40, 38, 37, 43, 45, 44, 42, 41, 36, 35, 21, 0,
];

// The deepest first, and of one depth from left to right.
static DEEPEST_FIRST: [usize; 46] = [
    10, 13, 15, 32, 8, 9, 12, 14, 28, 31, 34, 45, 7, 11, 26, 27, 30, 33, 39, 40, 43, 44, 6, 20, 25,
    29, 38, 42, 4, 5, 18, 19, 24, 37, 41, 3, 17, 23, 36, 2, 16, 22, 35, 1, 21, 0,
];

// From the end of the table: children from right to left, and then their parent.
static RIGHT_TO_LEFT: [usize; 46] = [
    45, 44, 43, 42, 41, 40, 39, 38, 37, 36, 35, 34, 33, 32, 31, 30, 29, 28, 27, 26, 25, 24, 23, 22,
    21, 20, 19, 18, 17, 16, 15, 14, 13, 12, 11, 10, 9, 8, 7, 6, 5, 4, 3, 2, 1, 0,
];

// The lines that nodes have become so far, by their places in the table.
type Filed = [Option<u16>; 46];

// What a line has for child `k`: its number, or 0 if the node has no such child. None if it isn't filed.
fn cited(filed: &Filed, children: &[usize], k: usize) -> Option<u16> {
    match children.get(k) {
        Some(child) => *filed.get(*child)?,
        None => Some(0),
    }
}

// The record of a node that cites these lines.
fn record(alloc: Global, node: &Node, m: u16, n: u16) -> Result<Vec<u16>, AllocError> {
    let ([rule, p, q, s], _, label) = *node;
    let mut record = [7, rule, p, q, s, m, n].to_vec(alloc)?;
    record.extend_from_slice(label)?;
    Ok(record)
}

// Files a node, which becomes the line with this number.
fn file_node(
    alloc: Global,
    docket: &mut Docket,
    node: &Node,
    filed: &Filed,
    number: usize,
) -> Result<(), Fail> {
    let m = cited(filed, node.1, 0).ok_or("the first child is not filed")?;
    let n = cited(filed, node.1, 1).ok_or("the second child is not filed")?;
    let record = record(alloc, node, m, n)?;
    play(alloc, docket, &[Record(record.as_slice(), Ok(number))])
}

// Files the nodes in this order. After the one that is filed as number n comes step n of `between`, if there is one.
fn file_tree(
    alloc: Global,
    docket: &mut Docket,
    tree: &[Node],
    order: &[usize],
    between: &[Step],
) -> Result<(), Fail> {
    let mut filed = [None; 46];
    for (n, place) in order.iter().enumerate() {
        let node = tree.get(*place).ok_or("no such node")?;
        file_node(alloc, docket, node, &filed, n)?;
        if let Some(number) = filed.get_mut(*place) {
            *number = Some(n.min(45) as u16);
        }
        if let Some(step) = between.get(n) {
            play(alloc, docket, &[*step])?;
        }
    }
    Ok(())
}

// The tree, its nodes filed in this order; then the root stands, and the claim of its label is empty by it.
fn in_order(alloc: Global, order: &[usize], between: &[Step], end: &[Step]) -> Result<(), Fail> {
    let mut concepts = [Concept::Top; 30];
    let mut lines = [Line::default(); 46];
    let room = Room {
        concepts: 30,
        lines: 46,
    };
    let mut docket = opened(room, &mut concepts, &mut lines)?;
    play(alloc, &mut docket, &VOCABULARY)?;
    file_tree(alloc, &mut docket, &TREE, order, between)?;
    play(alloc, &mut docket, end)
}

// The root is the only line that is within its label.
static ROOT: [Step; 4] = [
    FirstLine(&[27], Ok(Some(45))),
    Record(&[9, 1, 45], Err((11, 27))),
    Record(&[9, 2, 45], Ok(0)),
    Tally(3, 1, 0),
];

#[test]
fn left_to_right(rt: HostRuntime) -> Result<(), Fail> {
    in_order(rt.alloc(), &LEFT_TO_RIGHT, &[], &ROOT)
}

#[test]
fn right_to_left(rt: HostRuntime) -> Result<(), Fail> {
    in_order(rt.alloc(), &RIGHT_TO_LEFT, &[], &ROOT)
}

#[test]
fn deepest_first(rt: HostRuntime) -> Result<(), Fail> {
    in_order(rt.alloc(), &DEEPEST_FIRST, &[], &ROOT)
}

// A pair, closings and questions, and calls that are refused.
static BETWEEN: [Step; 33] = [
    Record(&[4, 28, 29], Ok(0)),
    Record(&[4, 28, 29], Err((7, 0))),
    Record(&[6], Err((2, 0))),
    // line 0 is {0, 1, 8, 11, 25, 27}
    Record(&[9, 1, 0], Err((11, 8))),
    Record(&[1, 0, 2], Err((2, 0))),
    Record(&[2, 0], Err((2, 0))),
    Record(&[5, 0], Err((2, 0))),
    Record(&[7, 11, 0, 0, 0, 0, 0], Err((3, 0))),
    Record(&[7, 2, 28, 29, 0, 0, 1, 28, 29], Err((3, 5))),
    Record(&[7, 4, 27, 0, 0, 0, 0, 30], Err((4, 6))),
    Record(&[7, 2, 28, 29, 0, 0, 0, 29, 28], Err((6, 7))),
    Record(&[7, 8, 28, 29, 10, 0, 0, 28], Err((8, 8))),
    Record(&[7, 4, 27, 0, 0, 0, 0, 27], Err((9, 0))),
    Record(&[10, 0, 0, 1, 1, 0, 0], Ok(0)),
    Record(&[10, 0, 0, 1, 1, 0, 0], Err((10, 0))),
    Record(&[9, 0, 0], Err((10, 0))),
    Record(&[10, 3, 0, 1, 1, 0, 0], Err((15, 1))),
    Record(&[10, 3, 0, 2, 0, 0, 0, 1], Err((13, 0))),
    Record(&[10, 3, 0, 1, 1, 0, 2], Err((14, 0))),
    Record(&[10, 3, 0, 1, 0], Ok(0)),
    Record(&[9, 4, 0], Err((4, 0))),
    Record(&[9, 1, 46], Err((4, 1))),
    Record(&[12, 0], Err((1, 0))),
    Record(&[3, 0, 0, 0], Err((5, 30))),
    Below(4, 2, Ok(true)),
    Below(2, 4, Ok(false)),
    Transitive(2, Ok(true)),
    Transitive(0, Ok(false)),
    Mate(29, Ok(Some(28))),
    FirstLine(&[27], Ok(None)),
    // the label of line 0, and a concept besides
    FirstLine(&[0, 1, 8, 11, 13, 25, 27], Ok(Some(0))),
    Concludes([4, 27, 0, 0, 1], &[27], Ok(&[26, 27])),
    Tally(2, 0, 2),
];

static ROOT_LAST: [Step; 3] = [
    FirstLine(&[27], Ok(Some(45))),
    Record(&[9, 2, 45], Ok(0)),
    Tally(1, 1, 2),
];

#[test]
fn with_calls_between(rt: HostRuntime) -> Result<(), Fail> {
    in_order(rt.alloc(), &LEFT_TO_RIGHT, &BETWEEN, &ROOT_LAST)
}

// Conclusion `k` of the node's step is the label of the child.
fn concludes(
    alloc: Global,
    docket: &mut Docket,
    node: &Node,
    k: u16,
    child: &Node,
) -> Result<(), Fail> {
    let ([rule, p, q, s], _, label) = *node;
    play(
        alloc,
        docket,
        &[Concludes([rule, p, q, s, k], label, Ok(child.2))],
    )
}

// Each child of a node has exactly the conclusion of its place, and there is no other conclusion.
fn branches(alloc: Global, docket: &mut Docket, tree: &[Node], node: &Node) -> Result<(), Fail> {
    for (k, place) in node.1.iter().enumerate() {
        let child = tree.get(*place).ok_or("no such node")?;
        concludes(alloc, docket, node, k.min(2) as u16, child)?;
    }
    let ([rule, p, q, s], children, label) = *node;
    let next = children.len().min(2) as u16;
    play(
        alloc,
        docket,
        &[Concludes([rule, p, q, s, next], label, Err((3, 4)))],
    )
}

fn is_closed(alloc: Global, docket: &mut Docket, tree: &[Node]) -> Result<(), Fail> {
    for node in tree {
        branches(alloc, docket, tree, node)?;
    }
    Ok(())
}

#[test]
fn closed(rt: HostRuntime) -> Result<(), Fail> {
    let mut concepts = [Concept::Top; 30];
    let mut lines = [Line::default(); 1];
    let room = Room {
        concepts: 30,
        lines: 1,
    };
    let mut docket = opened(room, &mut concepts, &mut lines)?;
    play(rt.alloc(), &mut docket, &VOCABULARY)?;
    is_closed(rt.alloc(), &mut docket, &TREE)
}
