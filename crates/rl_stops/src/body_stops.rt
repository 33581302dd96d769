//! The first stop in the statements of a function: as in an expression, a pattern that a `catch` binds, or a jump without a target.

ghost use Rattle.std.specs.Prelude.{◌≡◌, ◌∷◌, None, map, option_map};
ghost use Rattle.std.specs.Option.{option_or};
ghost use Rattle.rl_names.specs.Seen.{seen};
ghost use Rattle.rl_promises.specs.Jumps as jumps;
ghost use Rattle.rl_promises.specs.PartForms as forms;
ghost use Rattle.rl_promises.specs.Patterns as patterns;
ghost use Rattle.rl_promises.specs.Stops as spec;
ghost use Rattle.rl_stops.specs.SeenStops.{seen_around, seen_stop};
ghost use Rattle.rl_syntax.specs.Syntax.{Node, pieces_of, syntax};

use crate::around::{Around, stop_of_break, stop_of_continue};
use crate::caught::stop_of_caught;
use crate::found_stop::FoundStop;
use crate::stops::{first_among, first_stop, stop_at_target, stop_in_node};
use rl_base::text::Text;
use rl_forms::outs::is_lost_head;
use rl_forms::part_forms::{
    body_statements, case_in, catch_in, flag_and_three, four, jump_label, list_alone,
    text_and_tree, three, tree_and_list, two,
};
use rl_names::names::FunctionNames;
use rl_syntax::numbered::{At, Numbered};
use rl_syntax::word::Word;

/// True of the word of a loop.
fn loops(word: Word) -> bool
    ensures { result ≡ forms.loops word }
{
    match word {
        Word::While => true,
        Word::Dowhile => true,
        Word::For => true,
        Word::Forin => true,
        Word::Forof => true,
        _ => false,
    }
}

/// True of a loop.
#[tactic(auto, using(crate::proofs::BodyStopping::looping, rl_syntax::proofs::Layers::by_layer))]
fn is_loop(statement: &Numbered) -> bool
    ensures { result ≡ jumps.is_loop (syntax statement.now) }
{
    match statement {
        Numbered::Node(_, word, _) => loops(*word),
        Numbered::List(_) => false,
        Numbered::Text(_) => false,
        Numbered::Number(_) => false,
        Numbered::Flag(_) => false,
        Numbered::Absent => false,
    }
}

/// The first stop in a statement inside others, with the label that is its own, in the order in which the lowering meets the nodes.
#[cycle(stopping_in)]
#[tactic(auto, using(rl_syntax::proofs::Layers::by_layer))]
fn stop_in(
    names: &FunctionNames<'_>,
    around: &Around<'_>,
    own: Option<&Text>,
    statement: &Numbered,
) -> Option<FoundStop>
    ensures { option_map (seen_stop (seen names.now)) result ≡ spec.stop_in (seen names.now) (seen_around around.now) (option_map (λ l. l.now) own.entry) (syntax statement.now) }
{
    match statement {
        Numbered::Node(at, word, parts) => {
            stop_in_statement(names, around, own, *at, *word, parts.as_slice())
        }
        Numbered::List(parts) => first_among(names, parts.as_slice()),
        Numbered::Text(_) => None,
        Numbered::Number(_) => None,
        Numbered::Flag(_) => None,
        Numbered::Absent => None,
    }
}

/// As `stop_in`, of a node.
#[cycle(stopping_in)]
#[tactic(auto, using(crate::proofs::BodyStopping::statements, crate::proofs::CaseStopping::switches, crate::proofs::BodyStopping::smaller))]
fn stop_in_statement(
    names: &FunctionNames<'_>,
    around: &Around<'_>,
    own: Option<&Text>,
    at: At,
    word: Word,
    parts: &[Numbered],
) -> Option<FoundStop>
    ensures { option_map (seen_stop (seen names.now)) result ≡ spec.stop_in (seen names.now) (seen_around around.now) (option_map (λ l. l.now) own.entry) (Node at word (pieces_of (map syntax parts.now))) }
{
    match word {
        Word::Break => match jump_label(parts) {
            Some(jump) => stop_of_break(jump, at.span, around),
            None => stop_in_node(names, at, word, parts),
        },
        Word::Continue => match jump_label(parts) {
            Some(jump) => stop_of_continue(jump, at.span, around),
            None => stop_in_node(names, at, word, parts),
        },
        Word::Block => match list_alone(parts) {
            Some(statements) => stop_among(names, around, statements),
            None => stop_in_node(names, at, word, parts),
        },
        Word::If => match three(parts) {
            Some((condition, consequent, alternate)) => {
                stop_in_branches(names, around, condition, consequent, alternate)
            }
            None => stop_in_node(names, at, word, parts),
        },
        Word::While => match two(parts) {
            Some((condition, body)) => stop_in_loop(names, around, own, body, condition),
            None => stop_in_node(names, at, word, parts),
        },
        Word::Dowhile => match two(parts) {
            Some((body, condition)) => stop_in_loop(names, around, own, body, condition),
            None => stop_in_node(names, at, word, parts),
        },
        Word::For => match four(parts) {
            Some((init, condition, update, body)) => {
                stop_in_for(names, around, own, init, condition, update, body)
            }
            None => stop_in_node(names, at, word, parts),
        },
        Word::Forin => match three(parts) {
            Some((head, right, body)) => stop_in_values(names, around, own, head, right, body),
            None => stop_in_node(names, at, word, parts),
        },
        Word::Forof => match flag_and_three(parts) {
            Some((is_await, head, right, body)) => {
                if is_await {
                    None
                } else {
                    stop_in_values(names, around, own, head, right, body)
                }
            }
            None => stop_in_node(names, at, word, parts),
        },
        Word::Switch => match tree_and_list(parts) {
            Some((discriminant, cases)) => {
                stop_in_switch(names, around, own, discriminant, cases)
            }
            None => stop_in_node(names, at, word, parts),
        },
        Word::Try => match three(parts) {
            Some((block, handler, _finalizer)) => match catch_in(handler) {
                Some((param, body)) => stop_in_try(names, around, block, param, body),
                None => None,
            },
            None => None,
        },
        Word::With => None,
        Word::Labeled => match text_and_tree(parts) {
            Some((label, body)) => stop_in_labeled(names, around, label, body),
            None => stop_in_node(names, at, word, parts),
        },
        _ => stop_in_node(names, at, word, parts),
    }
}

/// As `stop_in`, of the branches of an `if` and of its test.
#[cycle(stopping_in)]
#[tactic(auto, using(crate::proofs::Stopping::in_order))]
fn stop_in_branches(
    names: &FunctionNames<'_>,
    around: &Around<'_>,
    condition: &Numbered,
    consequent: &Numbered,
    alternate: &Numbered,
) -> Option<FoundStop>
    ensures { option_map (seen_stop (seen names.now)) result ≡ option_or (spec.stop_in (seen names.now) (seen_around around.now) None (syntax consequent.now)) (option_or (spec.stop_in (seen names.now) (seen_around around.now) None (syntax alternate.now)) (spec.first_stop (seen names.now) (syntax condition.now))) }
{
    match stop_in(names, around, None, consequent) {
        Some(found) => Some(found),
        None => match stop_in(names, around, None, alternate) {
            Some(found) => Some(found),
            None => first_stop(names, condition),
        },
    }
}

/// As `stop_in`, of the body of a loop and of its test.
#[cycle(stopping_in)]
#[tactic(auto, using(crate::proofs::Stopping::in_order))]
fn stop_in_loop(
    names: &FunctionNames<'_>,
    around: &Around<'_>,
    own: Option<&Text>,
    body: &Numbered,
    condition: &Numbered,
) -> Option<FoundStop>
    ensures { option_map (seen_stop (seen names.now)) result ≡ option_or (spec.stop_in (seen names.now) (jumps.InLoop (option_map (λ l. l.now) own.entry) ∷ seen_around around.now) None (syntax body.now)) (spec.first_stop (seen names.now) (syntax condition.now)) }
{
    let inside = Around::Loop {
        label: own,
        outer: &*around,
    };
    match stop_in(names, &inside, None, body) {
        Some(found) => Some(found),
        None => first_stop(names, condition),
    }
}

/// As `stop_in`, of the parts of a `for` loop.
#[cycle(stopping_in)]
#[tactic(auto, using(crate::proofs::Stopping::in_order))]
fn stop_in_for(
    names: &FunctionNames<'_>,
    around: &Around<'_>,
    own: Option<&Text>,
    init: &Numbered,
    condition: &Numbered,
    update: &Numbered,
    body: &Numbered,
) -> Option<FoundStop>
    ensures { option_map (seen_stop (seen names.now)) result ≡ option_or (spec.first_stop (seen names.now) (syntax init.now)) (option_or (spec.first_stop (seen names.now) (syntax update.now)) (option_or (spec.stop_in (seen names.now) (jumps.InLoop (option_map (λ l. l.now) own.entry) ∷ seen_around around.now) None (syntax body.now)) (spec.first_stop (seen names.now) (syntax condition.now)))) }
{
    match first_stop(names, init) {
        Some(found) => Some(found),
        None => match first_stop(names, update) {
            Some(found) => Some(found),
            None => stop_in_loop(names, around, own, body, condition),
        },
    }
}

/// The first stop in the head of a `for`-`in` or `for`-`of` loop.
fn stop_at_head(names: &FunctionNames<'_>, head: &Numbered) -> Option<FoundStop>
    ensures { option_map (seen_stop (seen names.now)) result ≡ spec.stop_at_head (seen names.now) (syntax head.now) }
{
    if is_lost_head(head) {
        None
    } else {
        stop_at_target(names, head)
    }
}

/// As `stop_in`, of the parts of a `for`-`in` or `for`-`of` loop.
#[cycle(stopping_in)]
#[tactic(auto, using(crate::proofs::Stopping::in_order))]
fn stop_in_values(
    names: &FunctionNames<'_>,
    around: &Around<'_>,
    own: Option<&Text>,
    head: &Numbered,
    right: &Numbered,
    body: &Numbered,
) -> Option<FoundStop>
    ensures { option_map (seen_stop (seen names.now)) result ≡ option_or (spec.stop_in (seen names.now) (jumps.InLoop (option_map (λ l. l.now) own.entry) ∷ seen_around around.now) None (syntax body.now)) (option_or (spec.first_stop (seen names.now) (syntax right.now)) (spec.stop_at_head (seen names.now) (syntax head.now))) }
{
    let inside = Around::Loop {
        label: own,
        outer: &*around,
    };
    match stop_in(names, &inside, None, body) {
        Some(found) => Some(found),
        None => match first_stop(names, right) {
            Some(found) => Some(found),
            None => stop_at_head(names, head),
        },
    }
}

/// As `stop_in`, of a case of a `switch`.
#[cycle(stopping_in)]
#[tactic(auto, using(crate::proofs::CaseStopping::one_case, crate::proofs::Stopping::in_order))]
fn stop_in_case(
    names: &FunctionNames<'_>,
    around: &Around<'_>,
    case: &Numbered,
) -> Option<FoundStop>
    ensures { option_map (seen_stop (seen names.now)) result ≡ spec.stop_in_case (seen names.now) (seen_around around.now) (syntax case.now) }
{
    match case_in(case) {
        Some((condition, statements)) => match stop_among(names, around, statements) {
            Some(found) => Some(found),
            None => first_stop(names, condition),
        },
        None => None,
    }
}

/// As `stop_in`, of the cases of a `switch`, of which the last comes first.
#[cycle(stopping_in)]
#[tactic(auto, using(crate::proofs::CaseStopping::in_cases))]
fn stop_in_cases(
    names: &FunctionNames<'_>,
    around: &Around<'_>,
    cases: &[Numbered],
) -> Option<FoundStop>
    ensures { option_map (seen_stop (seen names.now)) result ≡ spec.stop_in_cases (seen names.now) (seen_around around.now) (pieces_of (map syntax cases.now)) }
{
    let mut last = None;
    'cases: for case in cases {
        if let Some(found) = stop_in_case(names, around, case) {
            last = Some(found);
        }
    }
    last
}

/// As `stop_in`, of the parts of a `switch`.
#[cycle(stopping_in)]
#[tactic(auto, using(crate::proofs::Stopping::in_order))]
fn stop_in_switch(
    names: &FunctionNames<'_>,
    around: &Around<'_>,
    own: Option<&Text>,
    discriminant: &Numbered,
    cases: &[Numbered],
) -> Option<FoundStop>
    ensures { option_map (seen_stop (seen names.now)) result ≡ option_or (spec.stop_in_cases (seen names.now) (jumps.InSwitch (option_map (λ l. l.now) own.entry) ∷ seen_around around.now) (pieces_of (map syntax cases.now))) (spec.first_stop (seen names.now) (syntax discriminant.now)) }
{
    let inside = Around::Switch {
        label: own,
        outer: &*around,
    };
    match stop_in_cases(names, &inside, cases) {
        Some(found) => Some(found),
        None => first_stop(names, discriminant),
    }
}

/// As `stop_in`, of the parts of a `try` with a `catch`.
#[cycle(stopping_in)]
#[tactic(auto, using(crate::proofs::Stopping::in_order))]
fn stop_in_try(
    names: &FunctionNames<'_>,
    around: &Around<'_>,
    block: &Numbered,
    param: &Numbered,
    body: &Numbered,
) -> Option<FoundStop>
    ensures { option_map (seen_stop (seen names.now)) result ≡ option_or (patterns.stop_of_caught (syntax param.now)) (option_or (spec.first_stop (seen names.now) (syntax param.now)) (option_or (spec.stop_in (seen names.now) (seen_around around.now) None (syntax body.now)) (spec.stop_in (seen names.now) (seen_around around.now) None (syntax block.now)))) }
{
    match stop_of_caught(names, param) {
        Some(found) => Some(found),
        None => match first_stop(names, param) {
            Some(found) => Some(found),
            None => match stop_in(names, around, None, body) {
                Some(found) => Some(found),
                None => stop_in(names, around, None, block),
            },
        },
    }
}

/// As `stop_in`, of a statement behind a label.
#[cycle(stopping_in)]
fn stop_in_labeled(
    names: &FunctionNames<'_>,
    around: &Around<'_>,
    label: &Text,
    body: &Numbered,
) -> Option<FoundStop>
    ensures { option_map (seen_stop (seen names.now)) result ≡ spec.stop_in (seen names.now) (jumps.within_label label.now (syntax body.now) (seen_around around.now)) (jumps.own_label label.now (syntax body.now)) (syntax body.now) }
{
    if is_loop(body) {
        stop_in(names, around, Some(&*label), body)
    } else {
        let inside = Around::Labeled {
            label: &*label,
            outer: &*around,
        };
        stop_in(names, &inside, None, body)
    }
}

/// As `stop_in`, for statements in a row.
#[cycle(stopping_in)]
#[tactic(auto, using(crate::proofs::BodyStopping::in_row))]
fn stop_among(
    names: &FunctionNames<'_>,
    around: &Around<'_>,
    statements: &[Numbered],
) -> Option<FoundStop>
    ensures { option_map (seen_stop (seen names.now)) result ≡ spec.stop_among (seen names.now) (seen_around around.now) (pieces_of (map syntax statements.now)) }
{
    'statements: for statement in statements {
        if let Some(found) = stop_in(names, around, None, statement) {
            return Some(found);
        }
    }
    None
}

/// The first stop in the body of a function, in the order in which the lowering meets the nodes: a reserved name, or a jump without a
/// target. `None` if there is none.
#[tactic(auto, using(crate::proofs::BodyStopping::bodies))]
pub fn stop_in_body(names: &FunctionNames<'_>, body: &Numbered) -> Option<FoundStop>
    ensures { option_map (seen_stop (seen names.now)) result ≡ spec.stop_in_body (seen names.now) (syntax body.now) }
{
    match body_statements(body) {
        Some(statements) => stop_among(names, &Around::Nothing, statements),
        None => first_stop(names, body),
    }
}
