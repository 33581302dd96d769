//! The first stop in a part of a function that has no statements in it: a local variable with a reserved name.

ghost use Rattle.std.specs.Prelude.{◌≡◌, map, option_map};
ghost use Rattle.std.specs.Option.{option_or};
ghost use Rattle.rl_names.specs.Seen.{seen};
ghost use Rattle.rl_promises.specs.StopForms as forms;
ghost use Rattle.rl_promises.specs.Stops as spec;
ghost use Rattle.rl_stops.specs.SeenStops.{seen_stop};
ghost use Rattle.rl_syntax.specs.Syntax.{Node, pieces_of, syntax};
ghost use Rattle.rl_syntax.specs.declared.word.Word.TheVariants as words;

use crate::found_stop::FoundStop;
use rl_ast::binding::{BindingIdentifier, IdentifierReference};
use rl_base::ids::SymbolId;
use rl_base::span::Span;
use rl_forms::outs::{are_raw, is_equals, is_known_key, is_logical, is_lost_delete, is_wrapped};
use rl_forms::part_forms::{
    flag_and_trees, list_and_tree, one, template_lists, text_ahead, text_alone, text_and_tree,
    three, two,
};
use rl_forms::patterns::{
    has_no_rest, is_ahead, is_pattern, is_plain_rest, is_turn, local_item, loses_item,
};
use rl_names::names::FunctionNames;
use rl_syntax::numbered::{At, Numbered};
use rl_syntax::parts::split_first;
use rl_syntax::word::Word;
use rl_used_names::reserved::is_always_reserved_word;

/// The stop at a node of a local variable. `None` if its name is not reserved, and where it is no local variable.
fn stop_at(names: &FunctionNames<'_>, local: Option<SymbolId>, span: Span) -> Option<FoundStop>
    ensures { option_map (seen_stop (seen names.now)) result ≡ spec.stop_of_local (seen names.now) local span }
{
    match local {
        Some(symbol) => {
            if is_always_reserved_word(names.name(symbol)) {
                Some(FoundStop::ReservedName { symbol, span })
            } else {
                None
            }
        }
        None => None,
    }
}

/// The first stop in a tree without statements in it, in the order in which the lowering meets the nodes.
#[cycle(stopping)]
#[tactic(auto, using(rl_syntax::proofs::Layers::by_layer))]
pub fn first_stop(names: &FunctionNames<'_>, tree: &Numbered) -> Option<FoundStop>
    ensures { option_map (seen_stop (seen names.now)) result ≡ spec.first_stop (seen names.now) (syntax tree.now) }
{
    match tree {
        Numbered::Node(at, word, parts) => stop_in_node(names, *at, *word, parts.as_slice()),
        Numbered::List(parts) => first_among(names, parts.as_slice()),
        Numbered::Text(_) => None,
        Numbered::Number(_) => None,
        Numbered::Flag(_) => None,
        Numbered::Absent => None,
    }
}

/// As `first_stop`, of a node.
#[cycle(stopping)]
#[tactic(auto, using(crate::proofs::Stopping::names, crate::proofs::Stopping::reordered, crate::proofs::Stopping::unaries, crate::proofs::Stopping::assignments, crate::proofs::Stopping::tags, crate::proofs::Stopping::props, crate::proofs::Stopping::smaller, crate::proofs::TargetStopping::patterns))]
pub(crate) fn stop_in_node(
    names: &FunctionNames<'_>,
    at: At,
    word: Word,
    parts: &[Numbered],
) -> Option<FoundStop>
    ensures { option_map (seen_stop (seen names.now)) result ≡ spec.first_stop (seen names.now) (Node at word (pieces_of (map syntax parts.now))) }
{
    match word {
        Word::Id => match text_alone(parts) {
            Some(name) => stop_at(
                names,
                names.local(&IdentifierReference { at, name }),
                at.span,
            ),
            None => first_among(names, parts),
        },
        Word::Bind => match text_ahead(parts) {
            Some((name, _type)) => {
                let identifier = BindingIdentifier {
                    at,
                    name,
                    annotation: None,
                };
                stop_at(names, names.declared(&identifier), at.span)
            }
            None => first_among(names, parts),
        },
        Word::Cond => match three(parts) {
            Some((condition, consequent, alternate)) => {
                first_of_three(names, consequent, alternate, condition)
            }
            None => first_among(names, parts),
        },
        Word::Logical => match text_ahead(parts) {
            Some((_operator, operands)) => match two(operands) {
                Some((left, right)) => first_of_two(names, right, left),
                None => first_among(names, parts),
            },
            None => first_among(names, parts),
        },
        Word::Declarator => match two(parts) {
            Some((pattern, init)) => first_of_two(names, init, pattern),
            None => first_among(names, parts),
        },
        Word::Type => None,
        Word::Instantiate => match split_first(parts) {
            Some((expression, _types)) => first_stop(names, expression),
            None => None,
        },
        Word::Yield => None,
        Word::Unary => match text_and_tree(parts) {
            Some((operator, argument)) => {
                if is_lost_delete(operator, argument) {
                    None
                } else {
                    first_stop(names, argument)
                }
            }
            None => first_among(names, parts),
        },
        Word::Update => match three(parts) {
            Some((_operator, _prefix, target)) => {
                if is_wrapped(target) {
                    None
                } else {
                    first_stop(names, target)
                }
            }
            None => first_among(names, parts),
        },
        Word::Assign => match text_ahead(parts) {
            Some((operator, operands)) => match two(operands) {
                Some((target, right)) => {
                    if is_equals(operator) {
                        first_of_assigned(names, right, target)
                    } else if is_logical(operator) {
                        None
                    } else if is_pattern(target) {
                        None
                    } else {
                        first_of_two(names, target, right)
                    }
                }
                None => first_among(names, parts),
            },
            None => first_among(names, parts),
        },
        Word::Tagged => match two(parts) {
            Some((tag, template)) => match template_lists(template) {
                Some((quasis, expressions)) => {
                    if are_raw(quasis) {
                        first_of_tagged(names, tag, expressions)
                    } else {
                        None
                    }
                }
                None => first_among(names, parts),
            },
            None => first_among(names, parts),
        },
        Word::Prop => match flag_and_trees(parts) {
            Some((computed, key, expression)) => {
                if is_known_key(computed, key) {
                    first_of_two(names, key, expression)
                } else {
                    None
                }
            }
            None => first_among(names, parts),
        },
        Word::Param => match two(parts) {
            Some((pattern, default)) => first_of_two(names, default, pattern),
            None => first_among(names, parts),
        },
        Word::Defaultpat => match two(parts) {
            Some((pattern, default)) => first_of_two(names, default, pattern),
            None => first_among(names, parts),
        },
        Word::Keyedpat => match three(parts) {
            Some((computed, key, pattern)) => {
                if loses_item(computed, key) {
                    None
                } else {
                    first_stop(names, pattern)
                }
            }
            None => first_among(names, parts),
        },
        Word::Arraypat => match list_and_tree(parts) {
            Some((items, rest)) => first_of_array(names, items, rest),
            None => first_among(names, parts),
        },
        Word::Objectpat => match list_and_tree(parts) {
            Some((properties, rest)) => first_of_object(names, properties, rest),
            None => first_among(names, parts),
        },
        _ => first_among(names, parts),
    }
}

/// As `first_stop`, for two trees.
#[cycle(stopping)]
#[tactic(auto, using(crate::proofs::Stopping::in_order))]
fn first_of_two(names: &FunctionNames<'_>, first: &Numbered, second: &Numbered) -> Option<FoundStop>
    ensures { option_map (seen_stop (seen names.now)) result ≡ option_or (spec.first_stop (seen names.now) (syntax first.now)) (spec.first_stop (seen names.now) (syntax second.now)) }
{
    match first_stop(names, first) {
        Some(found) => Some(found),
        None => first_stop(names, second),
    }
}

/// As `first_stop`, for three trees.
#[cycle(stopping)]
#[tactic(auto, using(crate::proofs::Stopping::in_order))]
fn first_of_three(
    names: &FunctionNames<'_>,
    first: &Numbered,
    second: &Numbered,
    third: &Numbered,
) -> Option<FoundStop>
    ensures { option_map (seen_stop (seen names.now)) result ≡ option_or (spec.first_stop (seen names.now) (syntax first.now)) (option_or (spec.first_stop (seen names.now) (syntax second.now)) (spec.first_stop (seen names.now) (syntax third.now))) }
{
    match first_stop(names, first) {
        Some(found) => Some(found),
        None => first_of_two(names, second, third),
    }
}

/// As `first_stop`, for a tag and the expressions of its template.
#[cycle(stopping)]
#[tactic(auto, using(crate::proofs::Stopping::in_order))]
fn first_of_tagged(
    names: &FunctionNames<'_>,
    tag: &Numbered,
    expressions: &[Numbered],
) -> Option<FoundStop>
    ensures { option_map (seen_stop (seen names.now)) result ≡ option_or (spec.first_stop (seen names.now) (syntax tag.now)) (spec.first_among (seen names.now) (pieces_of (map syntax expressions.now))) }
{
    match first_stop(names, tag) {
        Some(found) => Some(found),
        None => first_among(names, expressions),
    }
}

/// As `first_stop`, for trees in a row.
#[cycle(stopping)]
#[tactic(auto, using(crate::proofs::Stopping::in_order))]
pub(crate) fn first_among(names: &FunctionNames<'_>, trees: &[Numbered]) -> Option<FoundStop>
    ensures { option_map (seen_stop (seen names.now)) result ≡ spec.first_among (seen names.now) (pieces_of (map syntax trees.now)) }
{
    'trees: for tree in trees {
        if let Some(found) = first_stop(names, tree) {
            return Some(found);
        }
    }
    None
}

/// As `first_stop`, of a tree that is lowered where a test holds.
#[cycle(stopping)]
fn stop_where(names: &FunctionNames<'_>, test: bool, tree: &Numbered) -> Option<FoundStop>
    ensures { option_map (seen_stop (seen names.now)) result ≡ forms.stop_where (seen names.now) test (syntax tree.now) }
{
    if test { first_stop(names, tree) } else { None }
}

/// As `first_among`, for the items of a binding pattern that are met ahead of the others, or for these.
#[cycle(stopping)]
#[tactic(auto, using(crate::proofs::TargetStopping::in_round))]
fn first_in_round(names: &FunctionNames<'_>, ahead: bool, items: &[Numbered]) -> Option<FoundStop>
    ensures { option_map (seen_stop (seen names.now)) result ≡ spec.first_in_round (seen names.now) ahead (pieces_of (map syntax items.now)) }
{
    'items: for item in items {
        if let Some(found) = stop_where(names, is_turn(ahead, item), item) {
            return Some(found);
        }
    }
    None
}

/// As `first_stop`, for the parts of an array pattern.
#[cycle(stopping)]
#[tactic(auto, using(crate::proofs::Stopping::in_order))]
fn first_of_array(
    names: &FunctionNames<'_>,
    items: &[Numbered],
    rest: &Numbered,
) -> Option<FoundStop>
    ensures { option_map (seen_stop (seen names.now)) result ≡ forms.in_array (seen names.now) (pieces_of (map syntax items.now)) (syntax rest.now) }
{
    match first_in_round(names, true, items) {
        Some(found) => Some(found),
        None => match stop_where(names, is_ahead(rest), rest) {
            Some(found) => Some(found),
            None => match first_in_round(names, false, items) {
                Some(found) => Some(found),
                None => stop_where(names, !is_ahead(rest), rest),
            },
        },
    }
}

/// As `first_stop`, for the parts of an object pattern.
#[cycle(stopping)]
#[tactic(auto, using(crate::proofs::Stopping::in_order))]
fn first_of_object(
    names: &FunctionNames<'_>,
    properties: &[Numbered],
    rest: &Numbered,
) -> Option<FoundStop>
    ensures { option_map (seen_stop (seen names.now)) result ≡ forms.in_object (seen names.now) (pieces_of (map syntax properties.now)) (syntax rest.now) }
{
    match first_in_round(names, true, properties) {
        Some(found) => Some(found),
        None => match stop_where(names, is_plain_rest(rest), rest) {
            Some(found) => Some(found),
            None => first_in_round(names, false, properties),
        },
    }
}

/// As `first_stop`, for the value of `=` and its target.
#[cycle(stopping)]
#[tactic(auto, using(crate::proofs::Stopping::in_order))]
fn first_of_assigned(
    names: &FunctionNames<'_>,
    right: &Numbered,
    target: &Numbered,
) -> Option<FoundStop>
    ensures { option_map (seen_stop (seen names.now)) result ≡ option_or (spec.first_stop (seen names.now) (syntax right.now)) (spec.stop_at (seen names.now) (syntax target.now)) }
{
    match first_stop(names, right) {
        Some(found) => Some(found),
        None => stop_at_target(names, target),
    }
}

/// As `first_stop`, for a target, which may be a pattern.
#[cycle(stopping)]
pub(crate) fn stop_at_target(names: &FunctionNames<'_>, target: &Numbered) -> Option<FoundStop>
    ensures { option_map (seen_stop (seen names.now)) result ≡ spec.stop_at (seen names.now) (syntax target.now) }
{
    if is_pattern(target) {
        stop_to(names, target)
    } else {
        first_stop(names, target)
    }
}

/// The stop at an item of a target that is a local variable, if there is one. `None` at any other item.
#[tactic(auto, using(crate::proofs::TargetStopping::locals))]
fn stop_at_item(names: &FunctionNames<'_>, item: &Numbered) -> Option<Option<FoundStop>>
    ensures { option_map (option_map (seen_stop (seen names.now))) result ≡ forms.stop_at_item (seen names.now) (syntax item.now) }
{
    match local_item(names, item) {
        Some((symbol, span)) => Some(stop_at(names, Some(symbol), span)),
        None => None,
    }
}

/// The first stop at the names of a target that are looked at before anything of it is lowered.
#[tactic(auto, using(crate::proofs::TargetStopping::aheads))]
fn stop_ahead(names: &FunctionNames<'_>, items: &[Numbered]) -> Option<FoundStop>
    ensures { option_map (seen_stop (seen names.now)) result ≡ spec.stop_ahead (seen names.now) (pieces_of (map syntax items.now)) }
{
    'items: for item in items {
        let Some(stop) = stop_at_item(names, item) else {
            return None;
        };
        if let Some(found) = stop {
            return Some(found);
        }
    }
    None
}

/// As `stop_ahead`, of a target by its items and its rest.
fn stop_before(names: &FunctionNames<'_>, items: &[Numbered], rest: &Numbered) -> Option<FoundStop>
    ensures { option_map (seen_stop (seen names.now)) result ≡ forms.stop_before (seen names.now) (pieces_of (map syntax items.now)) (syntax rest.now) }
{
    if has_no_rest(rest) {
        stop_ahead(names, items)
    } else {
        None
    }
}

/// As `first_stop`, for a target that takes a piece of a value, in a pattern.
#[cycle(stopping)]
#[tactic(auto, using(crate::proofs::TargetStopping::to_nodes, rl_syntax::proofs::Layers::by_layer))]
fn stop_to(names: &FunctionNames<'_>, target: &Numbered) -> Option<FoundStop>
    ensures { option_map (seen_stop (seen names.now)) result ≡ spec.stop_to (seen names.now) (syntax target.now) }
{
    match target {
        Numbered::Node(at, word, parts) => stop_to_node(names, *at, *word, parts.as_slice()),
        Numbered::List(_) => None,
        Numbered::Text(_) => None,
        Numbered::Number(_) => None,
        Numbered::Flag(_) => None,
        Numbered::Absent => None,
    }
}

/// As `stop_to`, of a node.
#[cycle(stopping)]
fn stop_to_node(
    names: &FunctionNames<'_>,
    at: At,
    word: Word,
    parts: &[Numbered],
) -> Option<FoundStop>
    ensures { option_map (seen_stop (seen names.now)) result ≡ forms.to_node (seen names.now) at word (pieces_of (map syntax parts.now)) }
{
    match word {
        Word::Id => stop_to_name(names, at, parts),
        Word::Member => first_among(names, parts),
        Word::Index => first_among(names, parts),
        Word::Default => stop_to_defaulted(names, parts),
        Word::Short => stop_to_defaulted(names, parts),
        Word::Keyed => stop_to_keyed(names, parts),
        Word::Rest => stop_to_rest(names, parts),
        Word::Arraytarget => stop_to_array(names, parts),
        Word::Objecttarget => stop_to_object(names, parts),
        _ => None,
    }
}

/// As `stop_to`, of a name by its parts.
#[tactic(auto, using(crate::proofs::TargetStopping::targets))]
fn stop_to_name(names: &FunctionNames<'_>, at: At, parts: &[Numbered]) -> Option<FoundStop>
    ensures { option_map (seen_stop (seen names.now)) result ≡ spec.stop_to (seen names.now) (Node at words.Id (pieces_of (map syntax parts.now))) }
{
    match text_alone(parts) {
        Some(name) => stop_at(
            names,
            names.local(&IdentifierReference { at, name }),
            at.span,
        ),
        None => None,
    }
}

/// As `stop_to`, of a target with a default by its parts.
#[cycle(stopping)]
#[tactic(auto, using(crate::proofs::TargetStopping::targets))]
fn stop_to_defaulted(names: &FunctionNames<'_>, parts: &[Numbered]) -> Option<FoundStop>
    ensures { option_map (seen_stop (seen names.now)) result ≡ forms.to_defaulted (seen names.now) (pieces_of (map syntax parts.now)) }
{
    match two(parts) {
        Some((target, default)) => stop_to_either(names, default, target),
        None => None,
    }
}

/// As `first_stop`, for a default and the target in front of it.
#[cycle(stopping)]
#[tactic(auto, using(crate::proofs::Stopping::in_order))]
fn stop_to_either(
    names: &FunctionNames<'_>,
    default: &Numbered,
    target: &Numbered,
) -> Option<FoundStop>
    ensures { option_map (seen_stop (seen names.now)) result ≡ option_or (spec.first_stop (seen names.now) (syntax default.now)) (spec.stop_to (seen names.now) (syntax target.now)) }
{
    match first_stop(names, default) {
        Some(found) => Some(found),
        None => stop_to(names, target),
    }
}

/// As `stop_to`, of a target that is lowered where a test holds.
#[cycle(stopping)]
fn stop_to_where(names: &FunctionNames<'_>, test: bool, target: &Numbered) -> Option<FoundStop>
    ensures { option_map (seen_stop (seen names.now)) result ≡ forms.stop_to_where (seen names.now) test (syntax target.now) }
{
    if test { stop_to(names, target) } else { None }
}

/// As `stop_to`, of a property by its parts.
#[cycle(stopping)]
#[tactic(auto, using(crate::proofs::TargetStopping::targets))]
fn stop_to_keyed(names: &FunctionNames<'_>, parts: &[Numbered]) -> Option<FoundStop>
    ensures { option_map (seen_stop (seen names.now)) result ≡ forms.to_keyed (seen names.now) (pieces_of (map syntax parts.now)) }
{
    match three(parts) {
        Some((computed, key, target)) => stop_to_where(names, !loses_item(computed, key), target),
        None => None,
    }
}

/// As `stop_to`, of the rest by its parts.
#[cycle(stopping)]
#[tactic(auto, using(crate::proofs::TargetStopping::targets))]
fn stop_to_rest(names: &FunctionNames<'_>, parts: &[Numbered]) -> Option<FoundStop>
    ensures { option_map (seen_stop (seen names.now)) result ≡ forms.to_rest (seen names.now) (pieces_of (map syntax parts.now)) }
{
    match one(parts) {
        Some(target) => stop_to(names, target),
        None => None,
    }
}

/// As `stop_to`, of an array by its parts.
#[cycle(stopping)]
#[tactic(auto, using(crate::proofs::TargetStopping::lists))]
fn stop_to_array(names: &FunctionNames<'_>, parts: &[Numbered]) -> Option<FoundStop>
    ensures { option_map (seen_stop (seen names.now)) result ≡ forms.to_array (seen names.now) (pieces_of (map syntax parts.now)) }
{
    match list_and_tree(parts) {
        Some((items, rest)) => stop_to_items(names, items, rest, true),
        None => None,
    }
}

/// As `stop_to`, of an object by its parts.
#[cycle(stopping)]
#[tactic(auto, using(crate::proofs::TargetStopping::lists))]
fn stop_to_object(names: &FunctionNames<'_>, parts: &[Numbered]) -> Option<FoundStop>
    ensures { option_map (seen_stop (seen names.now)) result ≡ forms.to_object (seen names.now) (pieces_of (map syntax parts.now)) }
{
    match list_and_tree(parts) {
        Some((properties, rest)) => stop_to_items(names, properties, rest, is_plain_rest(rest)),
        None => None,
    }
}

/// As `stop_to`, for items, and for the rest where `kept` is true.
#[cycle(stopping)]
#[tactic(auto, using(crate::proofs::Stopping::in_order))]
fn stop_to_items(
    names: &FunctionNames<'_>,
    items: &[Numbered],
    rest: &Numbered,
    kept: bool,
) -> Option<FoundStop>
    ensures { option_map (seen_stop (seen names.now)) result ≡ spec.stop_to_items (seen names.now) kept (pieces_of (map syntax items.now)) (syntax rest.now) }
{
    match stop_before(names, items, rest) {
        Some(found) => Some(found),
        None => match stop_to_all(names, items) {
            Some(found) => Some(found),
            None => stop_to_where(names, kept, rest),
        },
    }
}

/// As `stop_to`, for items in a row.
#[cycle(stopping)]
#[tactic(auto, using(crate::proofs::TargetStopping::to_all))]
fn stop_to_all(names: &FunctionNames<'_>, items: &[Numbered]) -> Option<FoundStop>
    ensures { option_map (seen_stop (seen names.now)) result ≡ spec.stop_to_all (seen names.now) (pieces_of (map syntax items.now)) }
{
    'items: for item in items {
        if let Some(found) = stop_to(names, item) {
            return Some(found);
        }
    }
    None
}
