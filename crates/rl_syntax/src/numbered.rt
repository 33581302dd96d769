//! Numbered trees: trees of the notation with known words, and an id and a span for each node.

ghost use Rattle.std.specs.Prelude.{◌≡◌, ◌+◌, ◌^◌, ◌<◌, ◌≤◌, length};
ghost use Rattle.rl_syntax.specs.Reads.{IsLow};
ghost use Rattle.rl_syntax.specs.Syntax.{StandsAt, is_reference, inside};
ghost use Rattle.rl_syntax.specs.Words.{word_text};

use crate::word::Word;
use rl_base::ids::{NodeId, ReferenceId, ScopeId};
use rl_base::list::List;
use rl_base::span::Span;
use rl_base::text::Text;

/// Ids and span of a node: the numbers that it gets by its position in the unit.
#[derive(Clone, Copy, Debug, PartialEq, Eq)]
pub struct At {
    /// Index of the node in the order in which nodes open, from 0.
    pub id: NodeId,
    /// The id behind those of the node's subtree: the node and all nodes inside it have the ids from `id` to before `end`.
    pub end: NodeId,
    /// Id of the scope that the node makes; at a node that makes none, of the next scope to open: the number of nodes that make
    /// a scope and open before the node.
    pub scope: ScopeId,
    /// Id of the reference that the node is, if its word is `id`; at any other node, of the next reference to open: the number
    /// of `id` nodes that open before the node.
    pub reference: ReferenceId,
    /// Half-open byte range in the unit's text, from the node's `(` to behind its `)`.
    pub span: Span,
}

/// A position in a unit's text between trees: the numbers of bytes, nodes, scopes and references before it.
#[derive(Clone, Copy)]
pub struct Position {
    /// Byte offset in the unit's text.
    pub byte: usize,
    /// Id of the next node to open.
    pub node: u32,
    /// Id of the next scope to open.
    pub scope: u32,
    /// Id of the next reference to open.
    pub reference: u32,
}

impl Position {
    /// The ids and the span of the node that opens at `self` and closes before `next`.
    pub(crate) fn up_to(self, next: Position) -> At
        requires start { self.byte < 2 ^ 32 }
        requires end { next.byte < 2 ^ 32 }
        ensures { StandsAt result self next }
    {
        At {
            id: NodeId(self.node),
            end: NodeId(next.node),
            scope: ScopeId(self.scope),
            reference: ReferenceId(self.reference),
            span: Span {
                start: self.byte as u32,
                end: next.byte as u32,
            },
        }
    }

    /// Moves behind the word `word` of a node that opens at `self`, if the word ends before the byte offset `end`.
    pub(crate) fn enter(&mut self, word: Word, end: usize)
        requires word { end ≡ self.old.byte + 1 + length (word_text word) }
        requires short { self.old.byte + 1 < 2 ^ 32 }
        requires low { IsLow self.old }
        ensures { self.new ≡ inside self.old word }
    {
        self.byte = end;
        self.node += 1;
        self.scope += u32::from(word.makes_scope());
        self.reference += u32::from(is_reference(word));
    }
}

/// True of `id`, the word of the nodes that are references.
pub fn is_reference(word: Word) -> bool
    ensures { result ≡ is_reference word }
{
    match word {
        Word::Id => true,
        _ => false,
    }
}

/// A tree of the notation whose nodes have known words, ids and spans. Contracts see its plain tree (`syntax`).
#[derive(Drop)]
pub enum Numbered {
    /// `(WORD PART ..)`.
    Node(At, Word, List<Numbered>),
    /// `[PART ..]`.
    List(List<Numbered>),
    /// `"..."`, by its value.
    Text(Text),
    /// A number, at most 2^53.
    Number(u64),
    /// `y` or `n`.
    Flag(bool),
    /// `-`.
    Absent,
}
