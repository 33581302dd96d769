//! Size of bytes.

/// Size of bytes, as `measure` computes it. Parentheses inside texts do not count, and a stray `)` closes nothing.
#[derive(Clone, Copy, Debug, PartialEq, Eq)]
pub struct Measure {
    /// Number of bytes.
    pub bytes: usize,
    /// Number of opening parentheses, which is the number of nodes of a tree.
    pub nodes: usize,
    /// Greatest number of parentheses that are open at once.
    pub deepest: usize,
}
