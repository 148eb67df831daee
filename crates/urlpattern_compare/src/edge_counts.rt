//! The number of edges of a tree's automaton.

use urlpattern_expressions::Tree;

/// How many edges the automaton of a tree has, each number at most `usize::MAX`.
#[derive(Clone, Copy, Debug)]
pub(crate) struct EdgeCounts {
    /// The number of states at which texts of the tree begin.
    starts: usize,
    /// The number of edges from one of its states to another.
    within: usize,
    /// The number of edges from its states to each start of what follows.
    out: usize,
    /// Whether the tree has the empty text.
    takes_empty: bool,
}

/// Returns how many edges the automaton of the tree has.
pub(crate) fn edges_of(tree: &Tree) -> EdgeCounts {
    match tree {
        Tree::Nothing => EdgeCounts {
            starts: 0,
            within: 0,
            out: 0,
            takes_empty: true,
        },
        Tree::One(ranges) => EdgeCounts {
            starts: 1,
            within: 0,
            out: ranges.len(),
            takes_empty: false,
        },
        Tree::Then(one, other) => edges_of(one).followed_by(edges_of(other)),
        Tree::Either(one, other) => edges_of(one).or(edges_of(other)),
        Tree::Several(inner) => edges_of(inner).several(),
    }
}

impl EdgeCounts {
    /// Returns the number of edges if what follows the tree has this many starts.
    pub(crate) fn with(self, starts: usize) -> usize {
        self.within.saturating_add(self.out.saturating_mul(starts))
    }

    /// Returns the counts of a text of one tree, and then one of the other.
    fn followed_by(self, other: Self) -> Self {
        let more = if self.takes_empty { other.starts } else { 0 };
        let out = if other.takes_empty { self.out } else { 0 };
        EdgeCounts {
            starts: self.starts.saturating_add(more),
            within: self.with(other.starts).saturating_add(other.within),
            out: out.saturating_add(other.out),
            takes_empty: self.takes_empty && other.takes_empty,
        }
    }

    /// Returns the counts of a text of one tree or of the other.
    fn or(self, other: Self) -> Self {
        EdgeCounts {
            starts: self.starts.saturating_add(other.starts),
            within: self.within.saturating_add(other.within),
            out: self.out.saturating_add(other.out),
            takes_empty: self.takes_empty || other.takes_empty,
        }
    }

    /// Returns the counts of texts of the tree in a row, at least one.
    fn several(self) -> Self {
        EdgeCounts {
            starts: self.starts,
            within: self.with(self.starts),
            out: self.out,
            takes_empty: self.takes_empty,
        }
    }
}
