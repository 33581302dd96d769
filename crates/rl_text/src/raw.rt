//! Plain trees of the notation.

use rl_base::list::List;
use rl_base::text::Text;

/// A tree of the notation.
#[derive(Debug, Drop)]
pub enum Raw {
    /// `(WORD PART ..)`: a word of one or more letters a to z, and parts.
    Node(Text, List<Raw>),
    /// `[PART ..]`.
    List(List<Raw>),
    /// `"..."`: the decoded text, without its quotes.
    Text(Text),
    /// A number. The notation has those up to `number::LARGEST`; a tree with a greater one is spelled by no bytes.
    Number(u64),
    /// `y` or `n`.
    Flag(bool),
    /// `-`.
    Absent,
}
