//! Rules B1 and B6 to B9 for a walk that does other work too: it tests each node as it comes to it.

ghost use Rattle.std.specs.Prelude.{◌≡◌, map};
ghost use Rattle.rl_rules.specs.Following as spec;
ghost use Rattle.rl_rules.specs.Marks.{body_of};
ghost use Rattle.rl_syntax.specs.Syntax.{pieces_of, syntax};

use crate::both::Both;
use crate::chains::Chains;
use crate::declarations::{Declarations, Place};
use crate::forms::Forms;
use crate::marks::find_at;
use crate::variables::Variables;
use crate::walk::Rule;
use rl_syntax::numbered::Numbered;
use rl_syntax::word::Word;

/// Rules B6 to B9 together.
type AllForms = Both<Chains, Both<Variables, Both<Declarations, Forms>>>;

/// The context of a node for the rules B6 to B9: what they ask of the nodes above it.
pub type Context = (bool, (bool, (Place, ())));

/// The context of a tree that nothing stands above.
pub fn outermost() -> Context
    ensures { result ≡ spec.outermost }
{
    (false, (false, (Place::Elsewhere, ())))
}

/// The context of the part at the index `index` of a node, by the node's context and its word.
#[inline(always)]
pub fn part_below(above: Context, word: Word, index: usize) -> Context
    ensures { result ≡ spec.part_below above word index }
{
    AllForms::below(above, word, index)
}

/// The state of a walk behind a node, if it is `kept` before the node: `None` if one of the rules is broken by then, else true if
/// the marked function is found by then.
#[inline(always)]
pub fn test_node(kept: Option<bool>, above: Context, word: Word, parts: &[Numbered]) -> Option<bool>
    ensures { result ≡ spec.followed kept (spec.node_passes above word (pieces_of (map syntax parts.now))) (body_of word (pieces_of (map syntax parts.now))) }
{
    match kept {
        Some(found) => {
            if AllForms::test(above, word, parts) {
                find_at(found, word, parts)
            } else {
                None
            }
        }
        None => None,
    }
}

/// True if the rules are kept, by what a walk knows at its end.
pub fn is_kept(kept: Option<bool>) -> bool
    ensures { result ≡ spec.is_kept kept }
{
    match kept {
        Some(found) => found,
        None => false,
    }
}
