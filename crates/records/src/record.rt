use refusals::Refusal;

/// A well-formed record. Its parts are bytes of the file itself.
#[derive(Clone, Copy)]
pub enum Record<'f> {
    // R, S
    Inclusion {
        body: &'f [u8],
    },
    // R
    Transitivity {
        body: &'f [u8],
    },
    // tag, a, b
    Concept {
        body: &'f [u8],
    },
    // c, d
    Pair {
        body: &'f [u8],
    },
    // c
    Axiom {
        body: &'f [u8],
    },
    Seal,
    // rule, p, q, s, m, n; then the members
    Line {
        body: &'f [u8],
        members: &'f [u8],
    },
    Claim {
        members: &'f [u8],
    },
    // claim, line
    CloseEmpty {
        body: &'f [u8],
    },
    // claim, point, size, count of marks; then the marks; then the edges
    CloseInhabited {
        body: &'f [u8],
        marks: &'f [u8],
        edges: &'f [u8],
    },
}

/// A record as it lies in the file: where it begins, which kind it has, and what it is, if it is
/// well-formed. The kind is the number that stands there, also one that no kind has; 0 if the head
/// is cut off.
#[derive(Clone, Copy)]
pub struct Frame<'f> {
    pub offset: usize,
    pub kind: u16,
    pub content: Result<Record<'f>, Refusal>,
}
