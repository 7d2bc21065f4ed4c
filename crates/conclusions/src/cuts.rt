use crate::asking::{Conclusions, Step, compared};
use std::test::Fail;

// The rules that split on two mates: 7 to 9.

// Steps that apply, with their conclusions.
const STEPS: [(Step, Conclusions); 14] = [
    // 7: p, and then q, in both orders, from any word; a mate can be concept 0, and can be there already
    ((7, [2, 3, 0], &[]), &[&[2], &[3]]),
    ((7, [3, 2, 0], &[]), &[&[3], &[2]]),
    ((7, [0, 1, 0], &[5]), &[&[0, 5], &[1, 5]]),
    ((7, [1, 0, 0], &[5]), &[&[1, 5], &[0, 5]]),
    (
        (7, [64, 1020, 0], &[63, 65]),
        &[&[63, 64, 65], &[63, 65, 1020]],
    ),
    ((7, [1023, 12, 0], &[960]), &[&[960, 1023], &[12, 960]]),
    ((7, [12, 1023, 0], &[12]), &[&[12], &[12, 1023]]),
    // 8: p, and then q and s; s is "only 126 (some 127 q)", "only 127 (some 126 q)" or "only 125 (some 124 q)"
    ((8, [2, 3, 966], &[1]), &[&[1, 2], &[1, 3, 966]]),
    ((8, [3, 2, 73], &[]), &[&[3], &[2, 73]]),
    (
        (8, [2, 3, 967], &[63, 1023]),
        &[&[2, 63, 1023], &[3, 63, 967, 1023]],
    ),
    ((8, [2, 3, 969], &[3]), &[&[2, 3], &[3, 969]]),
    // 9: p is "only 126 2" and s "only 127 q", or p "only 127 2" and s "only 126 q"
    ((9, [1023, 12, 967], &[0]), &[&[0, 1023], &[0, 12, 967]]),
    ((9, [968, 10, 966], &[64]), &[&[64, 968], &[10, 64, 966]]),
    (
        (9, [968, 10, 966], &[10, 966, 968]),
        &[&[10, 966, 968], &[10, 966, 968]],
    ),
];

// Steps that don't apply.
const IDLE: [Step; 27] = [
    // no mates, or not of each other; a third concept
    (7, [2, 4, 0], &[2, 4]),
    (7, [2, 2, 0], &[2]),
    (7, [2, 1020, 0], &[]),
    (7, [65, 66, 0], &[]),
    (7, [2, 0, 0], &[2]),
    (7, [2, 3, 1], &[2, 3]),
    (7, [2, 3, 3], &[]),
    // no mates; "some R' p" in place of q; R in place of R'; "only R E" where E is a name; s that is no "only", or Top
    (8, [2, 4, 966], &[]),
    (8, [2, 1020, 966], &[]),
    (8, [3, 2, 966], &[]),
    (8, [2, 3, 73], &[]),
    (8, [2, 3, 74], &[]),
    (8, [2, 3, 962], &[]),
    (8, [2, 3, 10], &[10]),
    (8, [2, 3, 4], &[4]),
    (8, [2, 3, 0], &[]),
    // the two mates exchanged; no mates; a role that merely has a transitive one above it
    (9, [12, 1023, 967], &[]),
    (9, [1023, 10, 967], &[]),
    (9, [1023, 968, 967], &[]),
    (9, [76, 13, 969], &[]),
    // s is "only R q", "only R' C" with another C, of another pair, no "only", or Top
    (9, [1023, 12, 74], &[]),
    (9, [1023, 12, 963], &[]),
    (9, [1023, 12, 966], &[]),
    (9, [1023, 12, 10], &[]),
    (9, [1023, 12, 0], &[]),
    // mates of which p is no "only"
    (9, [2, 3, 967], &[]),
    (9, [0, 1, 967], &[]),
];

#[test]
fn steps(rt: HostRuntime) -> Result<(), Fail> {
    compared(&rt, rt.alloc(), &STEPS, &IDLE)
}
