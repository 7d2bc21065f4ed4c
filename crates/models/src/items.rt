ghost use Rattle.std.specs.Prelude.{◌≡◌, ◌<◌};
ghost use Rattle.models.specs.Items.{marks_in, edges_in, mark_at, edge_at, source, target, AreMarks, AreEdges};

use crate::Model;
use file_bytes::field;

// That an element is in a name. Marks rise in the derived order.
#[derive(Clone, Copy, PartialEq, Eq, PartialOrd, Ord)]
pub(crate) struct Mark {
    pub(crate) element: u16,
    pub(crate) name: u16,
}

impl From<[u8; 4]> for Mark {
    ghost from_gives = { λ bytes mark. mark ≡ mark_at bytes 0 };

    fn from(bytes: [u8; 4]) -> Mark {
        Mark {
            element: field(&bytes, 0),
            name: field(&bytes, 1),
        }
    }
}

// That a role name leads from an element to another. Edges rise in the derived order.
#[derive(Clone, Copy, PartialEq, Eq, PartialOrd, Ord)]
pub(crate) struct Edge {
    pub(crate) role_name: u16,
    pub(crate) from: u16,
    pub(crate) to: u16,
}

impl From<[u8; 6]> for Edge {
    ghost from_gives = { λ bytes edge. edge ≡ edge_at bytes 0 };

    fn from(bytes: [u8; 6]) -> Edge {
        Edge {
            role_name: field(&bytes, 0),
            from: field(&bytes, 1),
            to: field(&bytes, 2),
        }
    }
}

impl Edge {
    // The end that a role of its name leads from. An odd role is the inverse of its name.
    pub(crate) fn source(self, role: u16) -> u16
        ensures { result ≡ source role self }
    {
        if role % 2 == 0 { self.from } else { self.to }
    }

    // The end that a role of its name leads to.
    pub(crate) fn target(self, role: u16) -> u16
        ensures { result ≡ target role self }
    {
        if role % 2 == 0 { self.to } else { self.from }
    }
}

// Marks and edges are read by functions of their own. One over both would be a trait over the
// number of their bytes, with their fields, their order and its laws as ghost members, and longer
// than the two.
impl<'f> Model<'f> {
    // Its marks, each as its bytes.
    pub(crate) fn mark_chunks(&self) -> &'f [[u8; 4]]
        ensures { AreMarks self.now.marks.now result.now }
    {
        self.marks.as_chunks().0
    }

    // Its edges, each as its bytes.
    pub(crate) fn edge_chunks(&self) -> &'f [[u8; 6]]
        ensures { AreEdges self.now.edges.now result.now }
    {
        self.edges.as_chunks().0
    }

    // Mark `i`.
    pub(crate) fn mark(&self, i: usize) -> Mark
        requires { i < marks_in self.now.marks.now }
        ensures { result ≡ mark_at self.now.marks.now i }
    {
        Mark::from(self.mark_chunks()[i])
    }

    // Edge `i`.
    pub(crate) fn edge(&self, i: usize) -> Edge
        requires { i < edges_in self.now.edges.now }
        ensures { result ≡ edge_at self.now.edges.now i }
    {
        Edge::from(self.edge_chunks()[i])
    }
}
