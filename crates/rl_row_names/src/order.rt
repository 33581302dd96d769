//! The row F29: a default or a test that may not be evaluated in another place.

ghost use Rattle.std.specs.Prelude.{◌≡◌, map, option_map};
ghost use Rattle.rl_model.specs.Supported as model;
ghost use Rattle.rl_row_names.specs.Orders as spec;
ghost use Rattle.rl_syntax.specs.Syntax.{pieces_of, syntax};

use crate::facts::RowFacts;
use rl_base::ids::ReferenceId;
use rl_base::text::Text;
use rl_code::parts::{both, first, only, second, three};
use rl_row_forms::forms::{flag_of_three, fourth, is_empty_list, items_in, node_in, said_pair};
use rl_syntax::numbered::Numbered;
use rl_syntax::word::Word;

/// Demand on a part of an expression that is to be evaluated in another place.
#[derive(Clone, Copy)]
pub enum Asked {
    /// Nothing.
    Nothing,
    /// It may be evaluated in another place itself.
    Itself,
    /// As `Itself`, without local names.
    Inner,
    /// The items of the list may.
    Items,
    /// It is a name of the module, or a property of such a path.
    Path,
}

/// Demands on the parts of an expression.
#[derive(Clone, Copy)]
pub struct Order {
    /// On the first part.
    pub first: Asked,
    /// On the second part.
    pub second: Asked,
    /// On the third part.
    pub third: Asked,
    /// On each part behind the third.
    pub others: Asked,
}

/// No demand on any part.
fn nothing() -> Order
    ensures { result ≡ spec.nothing }
{
    Order {
        first: Asked::Nothing,
        second: Asked::Nothing,
        third: Asked::Nothing,
        others: Asked::Nothing,
    }
}

/// A demand on the first part alone.
fn first_alone() -> Order
    ensures { result ≡ spec.first_alone }
{
    Order {
        first: Asked::Itself,
        ..nothing()
    }
}

/// A demand on the second part alone.
fn second_alone() -> Order
    ensures { result ≡ spec.second_alone }
{
    Order {
        second: Asked::Itself,
        ..nothing()
    }
}

/// The demands on the parts behind the first.
fn next(order: Order) -> Order
    ensures { result ≡ spec.next order }
{
    Order {
        first: order.second,
        second: order.third,
        third: order.others,
        others: order.others,
    }
}

/// The demands, if the condition holds.
fn some_if(holds: bool, order: Order) -> Option<Order>
    ensures { result ≡ spec.some_if holds order }
{
    if holds { Some(order) } else { None }
}

/// True of the sign of a unary expression that may move.
fn is_sign(operator: &Text) -> bool
    ensures { result ≡ spec.is_sign operator.now }
{
    operator.as_str() == "!" || operator.as_str() == "+" || operator.as_str() == "-"
}

/// The demands of a unary expression.
#[tactic(auto, using(rl_row_forms::proofs::Shaped::by_item))]
fn unary_order(parts: &[Numbered]) -> Option<Order>
    ensures { result ≡ spec.unary_order (pieces_of (map syntax parts.now)) }
{
    match said_pair(parts) {
        Some((operator, _)) => some_if(is_sign(operator), second_alone()),
        None => None,
    }
}

/// The demands of a logical expression.
#[tactic(auto, using(rl_row_forms::proofs::Shaped::by_item))]
fn logical_order(parts: &[Numbered]) -> Option<Order>
    ensures { result ≡ spec.logical_order (pieces_of (map syntax parts.now)) }
{
    match three(parts) {
        Some(_) => Some(Order {
            second: Asked::Itself,
            third: Asked::Itself,
            ..nothing()
        }),
        None => None,
    }
}

/// The demands of a conditional expression.
#[tactic(auto, using(rl_row_forms::proofs::Shaped::by_item))]
fn cond_order(parts: &[Numbered]) -> Option<Order>
    ensures { result ≡ spec.cond_order (pieces_of (map syntax parts.now)) }
{
    match three(parts) {
        Some(_) => Some(Order {
            first: Asked::Itself,
            second: Asked::Itself,
            third: Asked::Itself,
            others: Asked::Nothing,
        }),
        None => None,
    }
}

/// The demand on the only part.
#[tactic(auto, using(rl_row_forms::proofs::Shaped::by_item))]
fn only_order(parts: &[Numbered]) -> Option<Order>
    ensures { result ≡ spec.only_order (pieces_of (map syntax parts.now)) }
{
    match only(parts) {
        Some(_) => Some(first_alone()),
        None => None,
    }
}

/// The demand on the first part.
#[tactic(auto, using(rl_row_forms::proofs::Shaped::by_item))]
fn first_order(parts: &[Numbered]) -> Option<Order>
    ensures { result ≡ spec.first_order (pieces_of (map syntax parts.now)) }
{
    match first(parts) {
        Some(_) => Some(first_alone()),
        None => None,
    }
}

/// The demand on the second of two parts.
#[tactic(auto, using(rl_row_forms::proofs::Shaped::by_item))]
fn assert_order(parts: &[Numbered]) -> Option<Order>
    ensures { result ≡ spec.assert_order (pieces_of (map syntax parts.now)) }
{
    match both(parts) {
        Some(_) => Some(second_alone()),
        None => None,
    }
}

/// The demands, if the tree is a list.
#[tactic(auto, using(rl_row_forms::proofs::Shaped::by_item))]
fn if_list(order: Order, tree: &Numbered) -> Option<Order>
    ensures { result ≡ spec.if_list order (syntax tree.now) }
{
    match items_in(tree) {
        Some(_) => Some(order),
        None => None,
    }
}

/// The demand on the items of the only part.
#[tactic(auto, using(crate::proofs::Asking::items))]
fn items_order(parts: &[Numbered]) -> Option<Order>
    ensures { result ≡ spec.items_order (pieces_of (map syntax parts.now)) }
{
    match only(parts) {
        Some(part) => if_list(items_asked(), part),
        None => None,
    }
}

/// A demand on the items of the first part alone.
fn items_asked() -> Order
    ensures { result ≡ spec.items_asked }
{
    Order {
        first: Asked::Items,
        ..nothing()
    }
}

/// The demands of a property of an object.
#[tactic(auto, using(rl_row_forms::proofs::Shaped::by_item))]
fn prop_order(parts: &[Numbered]) -> Option<Order>
    ensures { result ≡ spec.prop_order (pieces_of (map syntax parts.now)) }
{
    match flag_of_three(parts) {
        Some(computed) => some_if(
            !computed,
            Order {
                third: Asked::Itself,
                ..nothing()
            },
        ),
        None => None,
    }
}

/// The demand on the object of a link.
#[tactic(auto, using(rl_row_forms::proofs::Shaped::by_item))]
fn path_order(parts: &[Numbered]) -> Option<Order>
    ensures { result ≡ spec.path_order (pieces_of (map syntax parts.now)) }
{
    match second(parts) {
        Some(_) => Some(Order {
            second: Asked::Path,
            ..nothing()
        }),
        None => None,
    }
}

/// The demand on the body of an arrow function that is an expression.
fn inner_order() -> Option<Order>
    ensures { result ≡ spec.inner_order }
{
    Some(Order {
        others: Asked::Inner,
        ..nothing()
    })
}

/// True of the parts of a body without statements.
#[tactic(auto, using(crate::proofs::Asking::bodies))]
fn is_empty_body(parts: &[Numbered]) -> bool
    ensures { result ≡ spec.is_empty_body (pieces_of (map syntax parts.now)) }
{
    match both(parts) {
        Some((_, statements)) => is_empty_list(statements),
        None => false,
    }
}

/// The demands of an arrow function, by the word and the parts of its body.
fn body_order(word: Word, parts: &[Numbered]) -> Option<Order>
    ensures { result ≡ spec.body_order word (pieces_of (map syntax parts.now)) }
{
    match word {
        Word::Body => some_if(is_empty_body(parts), nothing()),
        _ => inner_order(),
    }
}

/// The demands of an arrow function, by its body.
#[tactic(auto, using(rl_row_forms::proofs::Shaped::by_item))]
fn arrow_body_order(body: &Numbered) -> Option<Order>
    ensures { result ≡ spec.arrow_body_order (syntax body.now) }
{
    match node_in(body) {
        Some((_, word, parts)) => body_order(word, parts),
        None => inner_order(),
    }
}

/// The demands of an arrow function.
#[tactic(auto, using(rl_row_forms::proofs::Shaped::by_item))]
fn arrow_order(parts: &[Numbered]) -> Option<Order>
    ensures { result ≡ spec.arrow_order (pieces_of (map syntax parts.now)) }
{
    match fourth(parts) {
        Some(body) => arrow_body_order(body),
        None => None,
    }
}

/// The demands on a callee and on arguments.
fn call_asked() -> Order
    ensures { result ≡ spec.call_asked }
{
    Order {
        second: Asked::Itself,
        third: Asked::Items,
        ..nothing()
    }
}

/// The demands of a call.
#[tactic(auto, using(crate::proofs::Asking::calls))]
fn call_order(parts: &[Numbered]) -> Option<Order>
    ensures { result ≡ spec.call_order (pieces_of (map syntax parts.now)) }
{
    match three(parts) {
        Some((_, _, arguments)) => if_list(call_asked(), arguments),
        None => None,
    }
}

/// The demands on the callee and on the arguments of a `new` expression.
fn new_asked() -> Order
    ensures { result ≡ spec.new_asked }
{
    Order {
        first: Asked::Itself,
        second: Asked::Items,
        ..nothing()
    }
}

/// The demands of a `new` expression.
#[tactic(auto, using(crate::proofs::Asking::news))]
fn new_order(parts: &[Numbered]) -> Option<Order>
    ensures { result ≡ spec.new_order (pieces_of (map syntax parts.now)) }
{
    match both(parts) {
        Some((_, arguments)) => if_list(new_asked(), arguments),
        None => None,
    }
}

/// The demands of a name.
fn id_order<F: RowFacts>(facts: &F, locals: bool, reference: ReferenceId) -> Option<Order>
    ensures { result ≡ spec.id_order (F.facts facts.now) locals reference.0 }
{
    some_if(facts.is_module(reference) || locals, nothing())
}

/// The demands on the parts of an expression, by its word. `None` of one that may not be evaluated in another place.
fn order_of<F: RowFacts>(
    facts: &F,
    locals: bool,
    reference: ReferenceId,
    word: Word,
    parts: &[Numbered],
) -> Option<Order>
    ensures { result ≡ spec.order_of (F.facts facts.now) locals reference.0 word (pieces_of (map syntax parts.now)) }
{
    match word {
        Word::Null => Some(nothing()),
        Word::Bool => Some(nothing()),
        Word::Num => Some(nothing()),
        Word::Str => Some(nothing()),
        Word::Bigint => Some(nothing()),
        Word::Regexp => Some(nothing()),
        Word::Id => id_order(facts, locals, reference),
        Word::Unary => unary_order(parts),
        Word::Logical => logical_order(parts),
        Word::Cond => cond_order(parts),
        Word::Paren => only_order(parts),
        Word::As => first_order(parts),
        Word::Satisfies => first_order(parts),
        Word::Assert => assert_order(parts),
        Word::Nonnull => only_order(parts),
        Word::Instantiate => first_order(parts),
        Word::Array => items_order(parts),
        Word::Object => items_order(parts),
        Word::Prop => prop_order(parts),
        Word::Member => path_order(parts),
        Word::Index => path_order(parts),
        Word::Privatemember => path_order(parts),
        Word::Arrow => arrow_order(parts),
        Word::Call => call_order(parts),
        Word::New => new_order(parts),
        _ => None,
    }
}

/// True of a name of the module, and of a property of such a path.
#[cycle(leading)]
#[tactic(auto, using(crate::proofs::Ordered::path_form, rl_syntax::proofs::Layers::by_layer))]
fn is_module_path<F: RowFacts>(facts: &F, tree: &Numbered) -> bool
    ensures { result ≡ model.is_module_path (F.facts facts.now) (syntax tree.now) }
{
    match tree {
        Numbered::Node(at, word, parts) => {
            node_is_module_path(facts, at.reference, *word, parts.as_slice())
        }
        Numbered::List(_) => false,
        Numbered::Text(_) => false,
        Numbered::Number(_) => false,
        Numbered::Flag(_) => false,
        Numbered::Absent => false,
    }
}

/// As `is_module_path`, of a node by its word.
#[cycle(leading)]
fn node_is_module_path<F: RowFacts>(
    facts: &F,
    reference: ReferenceId,
    word: Word,
    parts: &[Numbered],
) -> bool
    ensures { result ≡ spec.node_is_module_path (F.facts facts.now) reference.0 word (pieces_of (map syntax parts.now)) }
{
    match word {
        Word::Id => facts.is_module(reference),
        Word::Member => object_is_module_path(facts, parts),
        Word::Index => object_is_module_path(facts, parts),
        Word::Privatemember => object_is_module_path(facts, parts),
        _ => false,
    }
}

/// As `is_module_path`, of the object of a link.
#[cycle(leading)]
#[tactic(auto, using(rl_row_forms::proofs::Shaped::by_item, rl_row_forms::proofs::Smaller::smaller))]
fn object_is_module_path<F: RowFacts>(facts: &F, parts: &[Numbered]) -> bool
    ensures { result ≡ spec.object_is_module_path (F.facts facts.now) (pieces_of (map syntax parts.now)) }
{
    match second(parts) {
        Some(object) => is_module_path(facts, object),
        None => false,
    }
}

/// True of an expression that may be evaluated in another place; `locals` is true where local names may stand in it.
#[cycle(ordering)]
#[tactic(auto, using(crate::proofs::Ordered::order_form, rl_syntax::proofs::Layers::by_layer))]
pub fn is_reorderable<F: RowFacts>(facts: &F, locals: bool, tree: &Numbered) -> bool
    ensures { result ≡ model.is_reorderable (F.facts facts.now) locals (syntax tree.now) }
{
    match tree {
        Numbered::Node(at, word, parts) => {
            node_is_reorderable(facts, locals, at.reference, *word, parts.as_slice())
        }
        Numbered::List(_) => false,
        Numbered::Text(_) => false,
        Numbered::Number(_) => false,
        Numbered::Flag(_) => false,
        Numbered::Absent => true,
    }
}

/// As `is_reorderable`, of a node by its word.
#[cycle(ordering)]
#[tactic(auto, using(rl_row_forms::proofs::Shaped::by_item))]
fn node_is_reorderable<F: RowFacts>(
    facts: &F,
    locals: bool,
    reference: ReferenceId,
    word: Word,
    parts: &[Numbered],
) -> bool
    ensures { result ≡ spec.node_is_reorderable (F.facts facts.now) locals reference.0 word (pieces_of (map syntax parts.now)) }
{
    match order_of(facts, locals, reference, word, parts) {
        Some(order) => parts_are_reorderable(facts, locals, &order, parts),
        None => false,
    }
}

/// True of parts that meet their demands.
#[cycle(ordering)]
fn parts_are_reorderable<F: RowFacts>(
    facts: &F,
    locals: bool,
    order: &Order,
    parts: &[Numbered],
) -> bool
    ensures { result ≡ spec.parts_are_reorderable (F.facts facts.now) locals order.now (pieces_of (map syntax parts.now)) }
{
    let mut left = *order;
    'parts: for part in parts {
        if !part_is_reorderable(facts, locals, left.first, part) {
            return false;
        }
        left = next(left);
    }
    true
}

/// True of a part that meets the demand.
#[cycle(ordering)]
fn part_is_reorderable<F: RowFacts>(facts: &F, locals: bool, asked: Asked, part: &Numbered) -> bool
    ensures { result ≡ spec.part_is_reorderable (F.facts facts.now) locals asked (syntax part.now) }
{
    match asked {
        Asked::Nothing => true,
        Asked::Itself => is_reorderable(facts, locals, part),
        Asked::Inner => is_reorderable(facts, false, part),
        Asked::Items => items_reorderable(facts, locals, part),
        Asked::Path => is_module_path(facts, part),
    }
}

/// As `is_reorderable`, for the items of a list. False of any other tree.
#[cycle(ordering)]
#[tactic(auto, using(crate::proofs::Ordered::items_form, rl_syntax::proofs::Layers::by_layer))]
fn items_reorderable<F: RowFacts>(facts: &F, locals: bool, part: &Numbered) -> bool
    ensures { result ≡ spec.items_reorderable (F.facts facts.now) locals (syntax part.now) }
{
    match part {
        Numbered::List(items) => are_reorderable(facts, locals, items.as_slice()),
        Numbered::Node(_, _, _) => false,
        Numbered::Text(_) => false,
        Numbered::Number(_) => false,
        Numbered::Flag(_) => false,
        Numbered::Absent => false,
    }
}

/// As `is_reorderable`, for trees in a row.
#[cycle(ordering)]
fn are_reorderable<F: RowFacts>(facts: &F, locals: bool, trees: &[Numbered]) -> bool
    ensures { result ≡ model.are_reorderable (F.facts facts.now) locals (pieces_of (map syntax trees.now)) }
{
    'trees: for tree in trees {
        if !is_reorderable(facts, locals, tree) {
            return false;
        }
    }
    true
}

/// The second of two parts. `None` where there are more or fewer.
#[tactic(auto, using(rl_row_forms::proofs::Shaped::by_item))]
fn second_of_two(parts: &[Numbered]) -> Option<&Numbered>
    ensures { option_map (λ t. syntax t.now) result ≡ spec.second_of_two (pieces_of (map syntax parts.now)) }
{
    match both(parts) {
        Some((_, second)) => Some(second),
        None => None,
    }
}

/// The default or the test of a node, by its word. `None` of any other node.
fn moved_part(word: Word, parts: &[Numbered]) -> Option<&Numbered>
    ensures { option_map (λ t. syntax t.now) result ≡ spec.moved_part word (pieces_of (map syntax parts.now)) }
{
    match word {
        Word::Param => second_of_two(parts),
        Word::Defaultpat => second_of_two(parts),
        Word::Default => second_of_two(parts),
        Word::Short => second_of_two(parts),
        Word::Case => first(parts),
        _ => None,
    }
}

/// True of a node to which the row does not apply, by its word.
#[tactic(auto, using(rl_row_forms::proofs::Shaped::by_item))]
fn node_stays<F: RowFacts>(facts: &F, word: Word, parts: &[Numbered]) -> bool
    ensures { result ≡ spec.node_stays (F.facts facts.now) word (pieces_of (map syntax parts.now)) }
{
    match moved_part(word, parts) {
        Some(part) => is_reorderable(facts, true, part),
        None => true,
    }
}

/// True of a node to whose default or test the row F29 does not apply.
#[tactic(auto, using(crate::proofs::Ordered::stay_form, rl_syntax::proofs::Layers::by_layer))]
pub fn stays<F: RowFacts>(facts: &F, node: &Numbered) -> bool
    ensures { result ≡ model.stays (F.facts facts.now) (syntax node.now) }
{
    match node {
        Numbered::Node(_, word, parts) => node_stays(facts, *word, parts.as_slice()),
        Numbered::List(_) => true,
        Numbered::Text(_) => true,
        Numbered::Number(_) => true,
        Numbered::Flag(_) => true,
        Numbered::Absent => true,
    }
}
