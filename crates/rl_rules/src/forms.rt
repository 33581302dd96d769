//! Rule B9: the forms of nodes that the grammar alone does not say.

ghost use Rattle.std.specs.Prelude.{◌≡◌, length, map};
ghost use Rattle.rl_rules.specs.Forms as spec;
ghost use Rattle.rl_syntax.specs.Syntax.{pieces_of, syntax};

use crate::pieces::{
    Words, behind, first_is_absent, first_is_node_of, first_is_yes, first_items, has_some, parts_of,
};
use crate::walk::{Rule, passes};
use rl_syntax::numbered::Numbered;
use rl_syntax::word::Word;

/// The form that the rule asks of a node.
#[derive(Clone, Copy)]
enum Form {
    /// A template: quasis, then expressions.
    Template,
    /// Expressions with commas between them.
    Sequence,
    /// A `switch`: the value, then cases.
    Switch,
    /// A property or method with a key: a flag that is true of a computed key, then the key.
    Keyed,
    /// `++` or `--`: operator and flag, then the target.
    Update,
    /// A property in the name of a JSX element: the object, then the property.
    TagMember,
    /// Any other node.
    Free,
}

/// The form that the rule asks of the nodes of a word.
#[inline(always)]
fn form_of(word: Word) -> Form
    ensures { result ≡ spec.form_of word }
{
    match word {
        Word::Template => Form::Template,
        Word::Seq => Form::Sequence,
        Word::Switch => Form::Switch,
        Word::Keyedpat => Form::Keyed,
        Word::Prop => Form::Keyed,
        Word::Method => Form::Keyed,
        Word::Get => Form::Keyed,
        Word::Set => Form::Keyed,
        Word::Keyed => Form::Keyed,
        Word::Update => Form::Update,
        Word::Tagmember => Form::TagMember,
        _ => Form::Free,
    }
}

/// The words of patterns in targets.
struct Patterns;

impl Words for Patterns {
    ghost test = { spec.is_pattern };

    fn contain(word: Word) -> bool {
        match word {
            Word::Arraytarget => true,
            Word::Objecttarget => true,
            _ => false,
        }
    }
}

/// The words of keys that are written as they are.
struct NameKeys;

impl Words for NameKeys {
    ghost test = { spec.names_itself };

    fn contain(word: Word) -> bool {
        match word {
            Word::Name => true,
            Word::Private => true,
            _ => false,
        }
    }
}

/// The words of tags that may have a property: a property, a name that is used, and `this`.
struct TagObjects;

impl Words for TagObjects {
    ghost test = { spec.has_properties };

    fn contain(word: Word) -> bool {
        match word {
            Word::Tagmember => true,
            Word::Id => true,
            Word::This => true,
            _ => false,
        }
    }
}

/// True of a case without a test.
fn is_default(tree: &Numbered) -> bool
    ensures { result ≡ spec.is_default (syntax tree.now) }
{
    first_is_absent(parts_of(tree))
}

/// The number of cases without a test.
fn defaults(cases: &[Numbered]) -> usize
    ensures { result ≡ spec.defaults (pieces_of (map syntax cases.now)) }
{
    let mut count: usize = 0;
    'cases: for case in cases {
        if is_default(case) {
            count += 1;
        }
    }
    count
}

/// Rule B9. It asks for no context.
pub(crate) struct Forms;

impl Rule for Forms {
    type Above = ();

    ghost test = { spec.node_fits };

    ghost below = { spec.nothing_below };

    #[inline(always)]
    #[tactic(auto, using(crate::proofs::Counts::part_count_length))]
    fn test(_above: (), word: Word, parts: &[Numbered]) -> bool {
        match form_of(word) {
            Form::Template => first_items(parts).len() == first_items(behind(parts)).len() + 1,
            Form::Sequence => has_some(first_items(parts)),
            Form::Switch => defaults(first_items(behind(parts))) <= 1,
            Form::Keyed => !(first_is_yes(parts) && first_is_node_of::<NameKeys>(behind(parts))),
            Form::Update => !first_is_node_of::<Patterns>(behind(behind(parts))),
            Form::TagMember => first_is_node_of::<TagObjects>(parts),
            Form::Free => true,
        }
    }

    #[inline(always)]
    fn below(_above: (), _word: Word, _index: usize) {}
}

/// Rule B9: true of a tree whose nodes all have these forms. A template has one quasi more than expressions; a sequence has an
/// expression; a `switch` has at most one case without a test; a name or private name is no computed key; no array or object of
/// targets is the target of an `update`, or stands inside `as`, `satisfies`, `assert` or `nonnull`; the object of a tag's member
/// is a name that is used, `this`, or a tag's member.
pub fn keeps_forms(tree: &Numbered) -> bool
    ensures { result ≡ spec.keeps_forms (syntax tree.now) }
{
    passes::<Forms>((), tree)
}
