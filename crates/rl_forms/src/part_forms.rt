//! Parts by their forms, for the walks that look for stops and skips.

ghost use Rattle.std.specs.Prelude.{◌≡◌, false, map, option_map, MatchOption};
ghost use Rattle.rl_promises.specs.PartForms as spec;
ghost use Rattle.rl_syntax.specs.Shapes.{is_flag, is_four, is_one, is_text, is_three, is_two};
ghost use Rattle.rl_syntax.specs.Syntax.{Said, Flag, End, Then, pieces_of, syntax};

use rl_base::text::Text;
use rl_syntax::numbered::Numbered;
use rl_syntax::parts::{as_items, split_first};
use rl_syntax::word::Word;

/// The value of a flag. `None` at any other tree.
#[tactic(auto, using(rl_syntax::proofs::Layers::by_layer))]
pub fn as_flag(tree: &Numbered) -> Option<bool>
    ensures { MatchOption result (is_flag (syntax tree.now) ≡ false) (λ flag. syntax tree.now ≡ Flag flag) }
{
    match tree {
        Numbered::Flag(flag) => Some(*flag),
        Numbered::Node(_, _, _) => None,
        Numbered::List(_) => None,
        Numbered::Text(_) => None,
        Numbered::Number(_) => None,
        Numbered::Absent => None,
    }
}

/// The value of a text. `None` at any other tree.
#[tactic(auto, using(rl_syntax::proofs::Layers::by_layer))]
fn as_text(tree: &Numbered) -> Option<&Text>
    ensures { MatchOption result (is_text (syntax tree.now) ≡ false) (λ text. syntax tree.now ≡ Said text.now) }
{
    match tree {
        Numbered::Text(text) => Some(text),
        Numbered::Node(_, _, _) => None,
        Numbered::List(_) => None,
        Numbered::Flag(_) => None,
        Numbered::Number(_) => None,
        Numbered::Absent => None,
    }
}

/// The only part. `None` where there are more or none.
pub fn one(parts: &[Numbered]) -> Option<&Numbered>
    ensures { MatchOption result (is_one (pieces_of (map syntax parts.now)) ≡ false) (λ p. pieces_of (map syntax parts.now) ≡ Then (syntax p.now) End) }
{
    let (first, parts) = split_first(parts)?;
    match split_first(parts) {
        Some(_) => None,
        None => Some(first),
    }
}

/// The two parts. `None` where there are more or fewer.
pub fn two(parts: &[Numbered]) -> Option<(&Numbered, &Numbered)>
    ensures { MatchOption result (is_two (pieces_of (map syntax parts.now)) ≡ false) (λ p. pieces_of (map syntax parts.now) ≡ Then (syntax p.0.now) (Then (syntax p.1.now) End)) }
{
    let (first, parts) = split_first(parts)?;
    let (second, parts) = split_first(parts)?;
    match split_first(parts) {
        Some(_) => None,
        None => Some((first, second)),
    }
}

/// The three parts. `None` where there are more or fewer.
pub fn three(parts: &[Numbered]) -> Option<(&Numbered, &Numbered, &Numbered)>
    ensures { MatchOption result (is_three (pieces_of (map syntax parts.now)) ≡ false) (λ p. pieces_of (map syntax parts.now) ≡ Then (syntax p.0.now) (Then (syntax p.1.now) (Then (syntax p.2.now) End))) }
{
    let (first, parts) = split_first(parts)?;
    let (second, parts) = split_first(parts)?;
    let (third, parts) = split_first(parts)?;
    match split_first(parts) {
        Some(_) => None,
        None => Some((first, second, third)),
    }
}

/// The four parts. `None` where there are more or fewer.
pub fn four(parts: &[Numbered]) -> Option<(&Numbered, &Numbered, &Numbered, &Numbered)>
    ensures { MatchOption result (is_four (pieces_of (map syntax parts.now)) ≡ false) (λ p. pieces_of (map syntax parts.now) ≡ Then (syntax p.0.now) (Then (syntax p.1.now) (Then (syntax p.2.now) (Then (syntax p.3.now) End)))) }
{
    let (first, parts) = split_first(parts)?;
    let (second, third, fourth) = three(parts)?;
    Some((first, second, third, fourth))
}

/// The first part, a text, and the parts behind it. `None` of parts of another form.
#[tactic(auto, using(crate::proofs::Shaping::texts))]
pub fn text_ahead(parts: &[Numbered]) -> Option<(&Text, &[Numbered])>
    ensures { MatchOption result (spec.is_text_ahead (pieces_of (map syntax parts.now)) ≡ false) (λ p. pieces_of (map syntax parts.now) ≡ Then (Said p.0.now) (pieces_of (map syntax p.1.now))) }
{
    let (first, parts) = split_first(parts)?;
    match as_text(first) {
        Some(text) => Some((text, parts)),
        None => None,
    }
}

/// The only part, a text. `None` of parts of another form.
#[tactic(auto, using(crate::proofs::Shaping::texts))]
pub fn text_alone(parts: &[Numbered]) -> Option<&Text>
    ensures { MatchOption result (spec.is_text_alone (pieces_of (map syntax parts.now)) ≡ false) (λ text. pieces_of (map syntax parts.now) ≡ Then (Said text.now) End) }
{
    let (text, parts) = text_ahead(parts)?;
    match split_first(parts) {
        Some(_) => None,
        None => Some(text),
    }
}

/// The two parts, if the first is a text. `None` of parts of another form.
#[tactic(auto, using(crate::proofs::Shaping::texts))]
pub fn text_and_tree(parts: &[Numbered]) -> Option<(&Text, &Numbered)>
    ensures { MatchOption result (spec.is_text_and_tree (pieces_of (map syntax parts.now)) ≡ false) (λ p. pieces_of (map syntax parts.now) ≡ Then (Said p.0.now) (Then (syntax p.1.now) End)) }
{
    let (text, parts) = text_ahead(parts)?;
    let (tree, parts) = split_first(parts)?;
    match split_first(parts) {
        Some(_) => None,
        None => Some((text, tree)),
    }
}

/// The three parts, if the first is a flag. `None` of parts of another form.
#[tactic(auto, using(crate::proofs::Shaping::flags))]
pub fn flag_and_trees(parts: &[Numbered]) -> Option<(bool, &Numbered, &Numbered)>
    ensures { MatchOption result (spec.is_flag_and_trees (pieces_of (map syntax parts.now)) ≡ false) (λ p. pieces_of (map syntax parts.now) ≡ Then (Flag p.0) (Then (syntax p.1.now) (Then (syntax p.2.now) End))) }
{
    match three(parts) {
        Some((flag, tree, another)) => match as_flag(flag) {
            Some(flag) => Some((flag, tree, another)),
            None => None,
        },
        None => None,
    }
}

/// The four parts, if the first is a flag. `None` of parts of another form.
#[tactic(auto, using(crate::proofs::Shaping::flags))]
pub fn flag_and_three(parts: &[Numbered]) -> Option<(bool, &Numbered, &Numbered, &Numbered)>
    ensures { MatchOption result (spec.is_flag_and_three (pieces_of (map syntax parts.now)) ≡ false) (λ p. pieces_of (map syntax parts.now) ≡ Then (Flag p.0) (Then (syntax p.1.now) (Then (syntax p.2.now) (Then (syntax p.3.now) End)))) }
{
    match four(parts) {
        Some((flag, tree, another, third)) => match as_flag(flag) {
            Some(flag) => Some((flag, tree, another, third)),
            None => None,
        },
        None => None,
    }
}

/// The two parts, lists. `None` of parts of another form.
#[tactic(auto, using(crate::proofs::Shaping::lists))]
fn two_lists(parts: &[Numbered]) -> Option<(&[Numbered], &[Numbered])>
    ensures { option_map (λ p. (pieces_of (map syntax p.0.now), pieces_of (map syntax p.1.now))) result ≡ spec.two_lists (pieces_of (map syntax parts.now)) }
{
    match two(parts) {
        Some((items, others)) => match as_items(items) {
            Some(items) => match as_items(others) {
                Some(others) => Some((items, others)),
                None => None,
            },
            None => None,
        },
        None => None,
    }
}

/// The quasis and the expressions of a template, by its word and parts. `None` of any other node.
fn template_parts(word: Word, parts: &[Numbered]) -> Option<(&[Numbered], &[Numbered])>
    ensures { option_map (λ p. (pieces_of (map syntax p.0.now), pieces_of (map syntax p.1.now))) result ≡ spec.template_parts word (pieces_of (map syntax parts.now)) }
{
    match word {
        Word::Template => two_lists(parts),
        _ => None,
    }
}

/// The quasis and the expressions of a template. `None` of any other tree.
#[tactic(auto, using(rl_syntax::proofs::Layers::by_layer))]
pub fn template_lists(tree: &Numbered) -> Option<(&[Numbered], &[Numbered])>
    ensures { option_map (λ p. (pieces_of (map syntax p.0.now), pieces_of (map syntax p.1.now))) result ≡ spec.template_lists (syntax tree.now) }
{
    match tree {
        Numbered::Node(_, word, parts) => template_parts(*word, parts.as_slice()),
        Numbered::List(_) => None,
        Numbered::Text(_) => None,
        Numbered::Number(_) => None,
        Numbered::Flag(_) => None,
        Numbered::Absent => None,
    }
}

/// The only part, a list. `None` of parts of another form.
#[tactic(auto, using(crate::proofs::Shaping::alone))]
pub fn list_alone(parts: &[Numbered]) -> Option<&[Numbered]>
    ensures { option_map (λ items. pieces_of (map syntax items.now)) result ≡ spec.list_alone (pieces_of (map syntax parts.now)) }
{
    match one(parts) {
        Some(list) => match as_items(list) {
            Some(items) => Some(items),
            None => None,
        },
        None => None,
    }
}

/// The label that a jump says in its part, which is a text or absent. `None` at any other tree.
#[tactic(auto, using(rl_syntax::proofs::Layers::by_layer))]
fn label_in(tree: &Numbered) -> Option<Option<&Text>>
    ensures { option_map (option_map (λ l. l.now)) result ≡ spec.label_in (syntax tree.now) }
{
    match tree {
        Numbered::Text(label) => Some(Some(label)),
        Numbered::Absent => Some(None),
        Numbered::Node(_, _, _) => None,
        Numbered::List(_) => None,
        Numbered::Number(_) => None,
        Numbered::Flag(_) => None,
    }
}

/// The label of a jump by its parts. `None` of parts of another form.
#[tactic(auto, using(crate::proofs::Shaping::labels))]
pub fn jump_label(parts: &[Numbered]) -> Option<Option<&Text>>
    ensures { option_map (option_map (λ l. l.now)) result ≡ spec.jump_label (pieces_of (map syntax parts.now)) }
{
    match one(parts) {
        Some(label) => label_in(label),
        None => None,
    }
}

/// The second of two parts, a list. `None` of parts of another form.
#[tactic(auto, using(crate::proofs::Shaping::seconds))]
pub fn second_list(parts: &[Numbered]) -> Option<&[Numbered]>
    ensures { option_map (λ items. pieces_of (map syntax items.now)) result ≡ spec.second_list (pieces_of (map syntax parts.now)) }
{
    match two(parts) {
        Some((_first, list)) => match as_items(list) {
            Some(items) => Some(items),
            None => None,
        },
        None => None,
    }
}

/// The statements of a body, by its word and parts. `None` of any other node.
fn body_parts(word: Word, parts: &[Numbered]) -> Option<&[Numbered]>
    ensures { option_map (λ items. pieces_of (map syntax items.now)) result ≡ spec.body_parts word (pieces_of (map syntax parts.now)) }
{
    match word {
        Word::Body => second_list(parts),
        _ => None,
    }
}

/// The statements of a body. `None` of any other tree.
#[tactic(auto, using(rl_syntax::proofs::Layers::by_layer))]
pub fn body_statements(tree: &Numbered) -> Option<&[Numbered]>
    ensures { option_map (λ items. pieces_of (map syntax items.now)) result ≡ spec.body_statements (syntax tree.now) }
{
    match tree {
        Numbered::Node(_, word, parts) => body_parts(*word, parts.as_slice()),
        Numbered::List(_) => None,
        Numbered::Text(_) => None,
        Numbered::Number(_) => None,
        Numbered::Flag(_) => None,
        Numbered::Absent => None,
    }
}

/// The two parts, of which the second is a list. `None` of parts of another form.
#[tactic(auto, using(crate::proofs::Shaping::behind))]
pub fn tree_and_list(parts: &[Numbered]) -> Option<(&Numbered, &[Numbered])>
    ensures { option_map (λ p. (syntax p.0.now, pieces_of (map syntax p.1.now))) result ≡ spec.tree_and_list (pieces_of (map syntax parts.now)) }
{
    match two(parts) {
        Some((first, list)) => match as_items(list) {
            Some(items) => Some((first, items)),
            None => None,
        },
        None => None,
    }
}

/// The two parts, of which the first is a list. `None` of parts of another form.
#[tactic(auto, using(crate::proofs::Shaping::in_front))]
pub fn list_and_tree(parts: &[Numbered]) -> Option<(&[Numbered], &Numbered)>
    ensures { option_map (λ p. (pieces_of (map syntax p.0.now), syntax p.1.now)) result ≡ spec.list_and_tree (pieces_of (map syntax parts.now)) }
{
    match two(parts) {
        Some((list, last)) => match as_items(list) {
            Some(items) => Some((items, last)),
            None => None,
        },
        None => None,
    }
}

/// The test and the statements of a case, by its word and parts. `None` of any other node.
fn case_parts(word: Word, parts: &[Numbered]) -> Option<(&Numbered, &[Numbered])>
    ensures { option_map (λ p. (syntax p.0.now, pieces_of (map syntax p.1.now))) result ≡ spec.case_parts word (pieces_of (map syntax parts.now)) }
{
    match word {
        Word::Case => tree_and_list(parts),
        _ => None,
    }
}

/// The test and the statements of a case. `None` of any other tree.
#[tactic(auto, using(rl_syntax::proofs::Layers::by_layer))]
pub fn case_in(tree: &Numbered) -> Option<(&Numbered, &[Numbered])>
    ensures { option_map (λ p. (syntax p.0.now, pieces_of (map syntax p.1.now))) result ≡ spec.case_in (syntax tree.now) }
{
    match tree {
        Numbered::Node(_, word, parts) => case_parts(*word, parts.as_slice()),
        Numbered::List(_) => None,
        Numbered::Text(_) => None,
        Numbered::Number(_) => None,
        Numbered::Flag(_) => None,
        Numbered::Absent => None,
    }
}

/// The parameter and the body of a `catch`, by its word and parts. `None` of any other node.
#[tactic(auto, using(crate::proofs::Shaping::caught))]
fn catch_parts(word: Word, parts: &[Numbered]) -> Option<(&Numbered, &Numbered)>
    ensures { option_map (λ p. (syntax p.0.now, syntax p.1.now)) result ≡ spec.catch_parts word (pieces_of (map syntax parts.now)) }
{
    match word {
        Word::Catch => match two(parts) {
            Some((param, body)) => Some((param, body)),
            None => None,
        },
        _ => None,
    }
}

/// The parameter and the body of a `catch`. `None` of any other tree.
#[tactic(auto, using(rl_syntax::proofs::Layers::by_layer))]
pub fn catch_in(tree: &Numbered) -> Option<(&Numbered, &Numbered)>
    ensures { option_map (λ p. (syntax p.0.now, syntax p.1.now)) result ≡ spec.catch_in (syntax tree.now) }
{
    match tree {
        Numbered::Node(_, word, parts) => catch_parts(*word, parts.as_slice()),
        Numbered::List(_) => None,
        Numbered::Text(_) => None,
        Numbered::Number(_) => None,
        Numbered::Flag(_) => None,
        Numbered::Absent => None,
    }
}
