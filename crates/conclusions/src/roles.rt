use crate::asking::{Conclusions, Step, compared};
use std::test::Fail;

// The rules that follow a role: 5 and 10.

// "Only R 6" is concept 8 for the role 124, 72 for 125, 962 for 126, 963 for 127, 79 for 0 and 31 for 2.
const NARROWER: [(Step, Conclusions); 9] = [
    // 124 below 126, and through the inverses 125 below 127
    ((5, [962, 8, 0], &[962]), &[&[8, 962]]),
    ((5, [963, 72, 0], &[963]), &[&[72, 963]]),
    // 0 below 124, and below 126 by the chain; 2 below 127, since 3 is below 126
    ((5, [8, 79, 0], &[0, 8]), &[&[0, 8, 79]]),
    ((5, [962, 79, 0], &[64, 962]), &[&[64, 79, 962]]),
    ((5, [963, 31, 0], &[963, 1023]), &[&[31, 963, 1023]]),
    // each below itself
    ((5, [8, 8, 0], &[8]), &[&[8]]),
    ((5, [72, 72, 0], &[72]), &[&[72]]),
    ((5, [962, 962, 0], &[962]), &[&[962]]),
    ((5, [963, 963, 0], &[963]), &[&[963]]),
];

const NOT_NARROWER: [Step; 24] = [
    // the wider role below the narrower one
    (5, [8, 962, 0], &[8]),
    (5, [72, 963, 0], &[72]),
    (5, [79, 8, 0], &[79]),
    (5, [79, 962, 0], &[79]),
    (5, [31, 963, 0], &[31]),
    // a role and an inverse
    (5, [8, 72, 0], &[8]),
    (5, [72, 8, 0], &[72]),
    (5, [8, 963, 0], &[8]),
    (5, [963, 8, 0], &[963]),
    (5, [72, 962, 0], &[72]),
    (5, [962, 72, 0], &[962]),
    (5, [962, 963, 0], &[962]),
    (5, [963, 962, 0], &[963]),
    (5, [963, 79, 0], &[963]),
    (5, [962, 31, 0], &[962]),
    // of another concept, and of one that means the same
    (5, [962, 964, 0], &[962]),
    (5, [962, 965, 0], &[962]),
    // p outside the label, though q is in it; "some" in place of "only"; a third concept
    (5, [962, 8, 0], &[8]),
    (5, [15, 8, 0], &[15]),
    (5, [962, 15, 0], &[962]),
    (5, [962, 0, 0], &[962]),
    (5, [0, 962, 0], &[0]),
    (5, [962, 8, 1], &[962]),
    (5, [962, 8, 8], &[962]),
];

// The axioms, 63, 66 and 1,022, are in each conclusion. The label has "only 0 21", "only 124 22", "only 125 23", "only 126 24",
// "only 127 25", "only 2 26", "only 1 27", "only 126 28" and "only 126 29", as 970 to 976, 30 and 77.
const NEIGHBOUR: [(Step, Conclusions); 11] = [
    // some 0: 126, a transitive role above it, is carried; 124, which only has a transitive one above it, isn't, nor is 0
    (
        (
            10,
            [14, 0, 0],
            &[14, 30, 77, 970, 971, 972, 973, 974, 975, 976],
        ),
        &[&[6, 21, 30, 63, 66, 77, 973, 1022]],
    ),
    // some 124, and some 125 by the inverses
    (
        (
            10,
            [15, 0, 0],
            &[15, 30, 77, 970, 971, 972, 973, 974, 975, 976],
        ),
        &[&[6, 22, 30, 63, 66, 77, 973, 1022]],
    ),
    (
        (
            10,
            [16, 0, 0],
            &[16, 30, 77, 970, 971, 972, 973, 974, 975, 976],
        ),
        &[&[6, 23, 63, 66, 974, 1022]],
    ),
    // some 126 and some 127, which are transitive and below themselves: what is passed is carried too
    (
        (
            10,
            [17, 0, 0],
            &[17, 30, 77, 970, 971, 972, 973, 974, 975, 976],
        ),
        &[&[6, 24, 28, 29, 30, 63, 66, 77, 973, 1022]],
    ),
    (
        (
            10,
            [18, 0, 0],
            &[18, 30, 77, 970, 971, 972, 973, 974, 975, 976],
        ),
        &[&[6, 25, 63, 66, 974, 1022]],
    ),
    // some 2 and some 1, both below 127
    (
        (
            10,
            [19, 0, 0],
            &[19, 30, 77, 970, 971, 972, 973, 974, 975, 976],
        ),
        &[&[6, 26, 63, 66, 974, 1022]],
    ),
    (
        (
            10,
            [20, 0, 0],
            &[20, 30, 77, 970, 971, 972, 973, 974, 975, 976],
        ),
        &[&[6, 27, 63, 66, 974, 1022]],
    ),
    // the axioms come whatever the label has; nothing else of it does
    ((10, [14, 0, 0], &[14]), &[&[6, 63, 66, 1022]]),
    (
        (10, [18, 0, 0], &[0, 1, 4, 18, 64, 960, 1020, 1021]),
        &[&[6, 63, 66, 1022]],
    ),
    // "some 126 1,000", and "only 126 2", the last concept
    (
        (10, [1021, 0, 0], &[1021, 1023]),
        &[&[2, 63, 66, 1000, 1022, 1023]],
    ),
    ((10, [1021, 0, 0], &[1021, 1022]), &[&[63, 66, 1000, 1022]]),
];

const NO_NEIGHBOUR: [Step; 7] = [
    // p outside the label, of another tag, beside a concept that isn't used
    (10, [14, 0, 0], &[15]),
    (10, [1021, 0, 0], &[]),
    (10, [8, 0, 0], &[8]),
    (10, [4, 0, 0], &[4]),
    (10, [14, 14, 0], &[14]),
    (10, [14, 0, 6], &[14]),
    (10, [14, 8, 8], &[8, 14]),
];

#[test]
fn narrower(rt: HostRuntime) -> Result<(), Fail> {
    compared(&rt, rt.alloc(), &NARROWER, &NOT_NARROWER)
}

#[test]
fn neighbour(rt: HostRuntime) -> Result<(), Fail> {
    compared(&rt, rt.alloc(), &NEIGHBOUR, &NO_NEIGHBOUR)
}
