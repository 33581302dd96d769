//! The summaries for the parts of a node.

ghost use Rattle.std.specs.Prelude.{◌≡◌, map};
ghost use Rattle.rl_rows.specs.Plans as spec;
ghost use Rattle.rl_syntax.specs.Syntax.{pieces_of, syntax};

use rl_base::text::Text;
use rl_code::parts::{both, first, only, second, third_of_three, three};
use rl_row_forms::above::{
    Above, Use, breaking, heading, keyed, looping, membering, moving, part, resting, tagging,
    taken, trying, using,
};
use rl_row_forms::forms::{flag_of_three, said_of_three};
use rl_row_forms::words::is_this;
use rl_syntax::numbered::Numbered;
use rl_syntax::word::Word;

/// The summaries for the parts of a node: for the first three, and for those behind them. `None` for a part in which no row is
/// looked for.
#[derive(Clone, Copy)]
pub struct Plan {
    /// For the first part.
    pub first: Option<Above>,
    /// For the second part.
    pub second: Option<Above>,
    /// For the third part.
    pub third: Option<Above>,
    /// For each part behind the third.
    pub others: Option<Above>,
}

/// A single summary for all parts.
fn even(above: Above) -> Plan
    ensures { result ≡ spec.even above }
{
    Plan {
        first: Some(above),
        second: Some(above),
        third: Some(above),
        others: Some(above),
    }
}

/// A summary for the first part alone.
fn alone(above: Above) -> Plan
    ensures { result ≡ spec.alone above }
{
    Plan {
        first: Some(above),
        second: None,
        third: None,
        others: None,
    }
}

/// The plan of the parts behind the first.
pub fn next(plan: Plan) -> Plan
    ensures { result ≡ spec.next plan }
{
    Plan {
        first: plan.second,
        second: plan.third,
        third: plan.others,
        others: plan.others,
    }
}

/// The plan of a node of two parts; that of all parts, where there are more or fewer.
#[tactic(auto, using(rl_row_forms::proofs::Shaped::by_item))]
fn pair_plan(first: Above, second: Above, otherwise: Above, parts: &[Numbered]) -> Plan
    ensures { result ≡ spec.pair_plan first second otherwise (pieces_of (map syntax parts.now)) }
{
    match both(parts) {
        Some(_) => Plan {
            first: Some(first),
            second: Some(second),
            third: None,
            others: None,
        },
        None => even(otherwise),
    }
}

/// The use of a target, by the operator of its assignment.
fn assigned_use(operator: &Text) -> Use
    ensures { result ≡ spec.assigned_use operator.now }
{
    if operator.as_str() == "=" {
        Use::Equals
    } else {
        Use::Compounds
    }
}

/// The plan of an `assign` node of the operator.
fn operator_plan(above: Above, operator: &Text) -> Plan
    ensures { result ≡ spec.operator_plan above operator.now }
{
    Plan {
        first: None,
        second: Some(using(assigned_use(operator), above)),
        third: Some(part(above)),
        others: None,
    }
}

/// The plan of an `assign` node.
#[tactic(auto, using(rl_row_forms::proofs::Shaped::by_item))]
fn assign_plan(above: Above, parts: &[Numbered]) -> Plan
    ensures { result ≡ spec.assign_plan above (pieces_of (map syntax parts.now)) }
{
    match said_of_three(parts) {
        Some(operator) => operator_plan(above, operator),
        None => even(part(above)),
    }
}

/// The plan of an `update` node.
#[tactic(auto, using(rl_row_forms::proofs::Shaped::by_item))]
fn update_plan(above: Above, parts: &[Numbered]) -> Plan
    ensures { result ≡ spec.update_plan above (pieces_of (map syntax parts.now)) }
{
    match third_of_three(parts) {
        Some(_) => Plan {
            first: None,
            second: None,
            third: Some(using(Use::Updates, above)),
            others: None,
        },
        None => even(part(above)),
    }
}

/// The plan of a property, with a summary for its value.
#[tactic(auto, using(rl_row_forms::proofs::Shaped::by_item))]
fn property_plan(value: Above, above: Above, parts: &[Numbered]) -> Plan
    ensures { result ≡ spec.property_plan value above (pieces_of (map syntax parts.now)) }
{
    match flag_of_three(parts) {
        Some(computed) => Plan {
            first: None,
            second: Some(keyed(computed, above)),
            third: Some(value),
            others: None,
        },
        None => even(part(above)),
    }
}

/// The plan of a `rest` node.
#[tactic(auto, using(rl_row_forms::proofs::Shaped::by_item))]
fn rest_plan(above: Above, parts: &[Numbered]) -> Plan
    ensures { result ≡ spec.rest_plan above (pieces_of (map syntax parts.now)) }
{
    match only(parts) {
        Some(_) => alone(above),
        None => even(part(above)),
    }
}

/// The plan of a `try` node.
#[tactic(auto, using(rl_row_forms::proofs::Shaped::by_item))]
fn try_plan(above: Above, parts: &[Numbered]) -> Plan
    ensures { result ≡ spec.try_plan above (pieces_of (map syntax parts.now)) }
{
    match three(parts) {
        Some(_) => Plan {
            first: Some(trying(above)),
            second: Some(part(above)),
            third: Some(part(above)),
            others: None,
        },
        None => even(part(above)),
    }
}

/// The plan of the name of an element that is a property.
#[tactic(auto, using(rl_row_forms::proofs::Shaped::by_item))]
fn member_plan(above: Above, parts: &[Numbered]) -> Plan
    ensures { result ≡ spec.member_plan above (pieces_of (map syntax parts.now)) }
{
    match first(parts) {
        Some(object) => alone(membering(is_this(object), above)),
        None => alone(part(above)),
    }
}

/// The plan of a `for`-`in` loop.
fn forin_plan(above: Above) -> Plan
    ensures { result ≡ spec.forin_plan above }
{
    let inside = looping(above);
    Plan {
        first: Some(heading(above)),
        second: Some(inside),
        third: Some(inside),
        others: Some(inside),
    }
}

/// The plan of a `for`-`of` loop.
#[tactic(auto, using(rl_row_forms::proofs::Shaped::by_item))]
fn forof_plan(above: Above, parts: &[Numbered]) -> Plan
    ensures { result ≡ spec.forof_plan above (pieces_of (map syntax parts.now)) }
{
    match second(parts) {
        Some(_) => Plan {
            first: None,
            second: Some(heading(above)),
            third: Some(looping(above)),
            others: Some(looping(above)),
        },
        None => even(part(above)),
    }
}

/// The plan of a node of patterns and targets.
fn target_plan(above: Above, word: Word, parts: &[Numbered]) -> Plan
    ensures { result ≡ spec.target_plan above word (pieces_of (map syntax parts.now)) }
{
    match word {
        Word::Assign => assign_plan(above, parts),
        Word::Update => update_plan(above, parts),
        Word::Arraytarget => pair_plan(taken(above), taken(above), part(above), parts),
        Word::Objecttarget => pair_plan(taken(above), resting(taken(above)), part(above), parts),
        Word::Objectpat => pair_plan(part(above), resting(part(above)), part(above), parts),
        Word::Default => pair_plan(taken(above), moving(above), part(above), parts),
        Word::Short => pair_plan(taken(above), moving(above), part(above), parts),
        Word::Rest => rest_plan(above, parts),
        Word::Keyed => property_plan(taken(above), above, parts),
        Word::Keyedpat => property_plan(part(above), above, parts),
        Word::Defaultpat => pair_plan(part(above), moving(above), part(above), parts),
        Word::Param => pair_plan(part(above), moving(above), part(above), parts),
        _ => even(part(above)),
    }
}

/// The plan of any other node.
fn other_plan(above: Above, word: Word, parts: &[Numbered]) -> Plan
    ensures { result ≡ spec.other_plan above word (pieces_of (map syntax parts.now)) }
{
    match word {
        Word::Prop => property_plan(part(above), above, parts),
        Word::Method => property_plan(part(above), above, parts),
        Word::Get => property_plan(part(above), above, parts),
        Word::Set => property_plan(part(above), above, parts),
        Word::Case => pair_plan(moving(above), part(above), part(above), parts),
        Word::Opening => pair_plan(tagging(above), part(above), part(above), parts),
        Word::Tagmember => member_plan(above, parts),
        Word::Try => try_plan(above, parts),
        Word::While => even(looping(above)),
        Word::Dowhile => even(looping(above)),
        Word::For => even(looping(above)),
        Word::Forin => forin_plan(above),
        Word::Forof => forof_plan(above, parts),
        Word::Switch => pair_plan(part(above), breaking(above), part(above), parts),
        Word::Instantiate => alone(part(above)),
        _ => even(part(above)),
    }
}

/// True of the words of patterns and targets.
fn is_target(word: Word) -> bool
    ensures { result ≡ spec.is_target word }
{
    match word {
        Word::Assign => true,
        Word::Update => true,
        Word::Arraytarget => true,
        Word::Objecttarget => true,
        Word::Objectpat => true,
        Word::Default => true,
        Word::Short => true,
        Word::Rest => true,
        Word::Keyed => true,
        Word::Keyedpat => true,
        Word::Defaultpat => true,
        Word::Param => true,
        _ => false,
    }
}

/// The plan of a node that is no function and no statement with a label.
pub fn parts_plan(above: Above, word: Word, parts: &[Numbered]) -> Plan
    ensures { result ≡ spec.parts_plan above word (pieces_of (map syntax parts.now)) }
{
    if is_target(word) {
        target_plan(above, word, parts)
    } else {
        other_plan(above, word, parts)
    }
}
