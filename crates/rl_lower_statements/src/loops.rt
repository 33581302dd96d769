//! Lowering of loops, and of statements with a label.

ghost use Rattle.std.specs.Prelude.{◌≡◌, ◌+◌, true, false, map, None, Some, option_map, OnOk, IfOk, IfErr};
ghost use Rattle.rl_ast.specs.StatementViews.{seen_statement};
ghost use Rattle.rl_builder.specs.Builder.{state_of};
ghost use Rattle.rl_grammar.specs.Fields.{maybe};
ghost use Rattle.rl_lowered.specs.Arounds.{arounds};
ghost use Rattle.rl_lowered.specs.Named.{IsNamed};
ghost use Rattle.rl_lowered.specs.Lowered.{part_span};
ghost use Rattle.rl_lowered.specs.Promised.{HasRoom, LowersInit, LowersLoop, LowersStatement, LowersTest, share};
ghost use Rattle.rl_names.specs.Seen.{seen};
ghost use Rattle.rl_promises.specs.Jumps.{is_loop};
ghost use Rattle.rl_promises.specs.Lowerable.{IsLowerable, IsLowerableIn};
ghost use Rattle.rl_syntax.specs.Syntax.{nodes, syntax};

use crate::declaration::lower_variables;
use crate::heads::lower_loop_head;
use crate::statement::lower_statement;
use rl_ast::statement::{Statement, statement_view};
use rl_ast::statement_part::{ForInit, for_init_view};
use rl_base::error::OutOfMemory;
use rl_base::row::Row;
use rl_base::span::Span;
use rl_base::stop::Stop;
use rl_base::text::Text;
use rl_builder::unit_tables::ReadsUnit;
use rl_frames::do_while_frame::DoWhileFrame;
use rl_frames::for_frame::ForFrame;
use rl_frames::for_in_frame::ForInFrame;
use rl_frames::for_of_frame::ForOfFrame;
use rl_frames::label_frame::LabelFrame;
use rl_frames::while_frame::WhileFrame;
use rl_grammar::sort::{ExpressionTree, ForHeadTree, ForInitTree, StatementTree};
use rl_hir::instruction::{InstructionValue, Place, PrimitiveValue};
use rl_lower_expressions::expression::lower_expression;
use rl_lower_parts::graph_builder::GraphBuilder;
use rl_lower_parts::span::span_of;
use rl_lower_parts::temporary::{lower_undefined, lower_value_to_temporary, refuse};
use rl_names::names::FunctionNames;
use rl_syntax::numbered::{At, Numbered};
use rl_syntax::word::Word;
use std::alloc::Global;

/// True of a loop.
#[tactic(auto, using(rl_syntax::proofs::Layers::by_layer))]
fn is_loop(tree: &Numbered) -> bool
    ensures { result ≡ is_loop (syntax tree.now) }
{
    match tree {
        Numbered::Node(_, word, _) => match word {
            Word::While => true,
            Word::Dowhile => true,
            Word::For => true,
            Word::Forin => true,
            Word::Forof => true,
            _ => false,
        },
        Numbered::List(_) => false,
        Numbered::Text(_) => false,
        Numbered::Number(_) => false,
        Numbered::Flag(_) => false,
        Numbered::Absent => false,
    }
}

/// A copy of the label of a loop, if it has one.
fn copy_label(alloc: Global, label: Option<&Text>) -> Result<Option<Text>, OutOfMemory>
    ensures { IfOk result (λ copy. copy ≡ option_map (λ l. l.now) label.entry) }
{
    match label {
        Some(label) => Ok(Some(label.copy(alloc)?)),
        None => Ok(None),
    }
}

/// Lowers a `while` loop: its body, and then its test.
#[cycle(statements)]
fn lower_while<U: ReadsUnit>(
    alloc: Global,
    builder: &mut GraphBuilder<'_, U>,
    names: &FunctionNames<'_>,
    label: Option<&Text>,
    at: At,
    test: ExpressionTree<'_>,
    body: StatementTree<'_>,
) -> Result<(), Stop>
    requires names { IsNamed (seen names.now) (state_of U.tables builder.old) }
    requires may { IsLowerableIn (seen names.now) (arounds (state_of U.tables builder.old)) (option_map (λ l. l.now) label)
        (seen_statement (Statement.While at test body)) }
    requires room { HasRoom (state_of U.tables builder.old) (share (nodes (seen_statement (Statement.While at test body)))) }
    ensures same_reference { builder.new.env.ghost_name ≡ builder.old.env.ghost_name }
    ensures lowered { OnOk result (LowersLoop (seen names.now) (option_map (λ l. l.now) label.entry)
        (seen_statement (Statement.While at test.entry body.entry)) (state_of U.tables builder.old) (state_of U.tables builder.new)) }
    ensures memory { IfErr result (λ e. e ≡ Stop.OutOfMemory) }
{
    let label = copy_label(alloc, label)?;
    let mut frame = WhileFrame::begin(builder, at.span, label)?;
    lower_statement(alloc, builder, names, body)?;
    frame.body(builder, span_of(body.tree))?;
    let test = lower_expression(alloc, builder, names, test)?;
    frame.finish(builder, test)?;
    Ok(())
}

/// Lowers a `do`-`while` loop: its body, and then its test.
#[cycle(statements)]
fn lower_do_while<U: ReadsUnit>(
    alloc: Global,
    builder: &mut GraphBuilder<'_, U>,
    names: &FunctionNames<'_>,
    label: Option<&Text>,
    at: At,
    body: StatementTree<'_>,
    test: ExpressionTree<'_>,
) -> Result<(), Stop>
    requires names { IsNamed (seen names.now) (state_of U.tables builder.old) }
    requires may { IsLowerableIn (seen names.now) (arounds (state_of U.tables builder.old)) (option_map (λ l. l.now) label)
        (seen_statement (Statement.DoWhile at body test)) }
    requires room { HasRoom (state_of U.tables builder.old) (share (nodes (seen_statement (Statement.DoWhile at body test)))) }
    ensures same_reference { builder.new.env.ghost_name ≡ builder.old.env.ghost_name }
    ensures lowered { OnOk result (LowersLoop (seen names.now) (option_map (λ l. l.now) label.entry)
        (seen_statement (Statement.DoWhile at body.entry test.entry)) (state_of U.tables builder.old) (state_of U.tables builder.new)) }
    ensures memory { IfErr result (λ e. e ≡ Stop.OutOfMemory) }
{
    let label = copy_label(alloc, label)?;
    let mut frame = DoWhileFrame::begin(builder, at.span, label)?;
    lower_statement(alloc, builder, names, body)?;
    frame.body(builder, span_of(body.tree))?;
    let test = lower_expression(alloc, builder, names, test)?;
    frame.finish(builder, test)?;
    Ok(())
}

/// Lowers what stands in front in a `for` loop, whose span is `at`. An expression is refused, and lowered all the same.
fn lower_head<U: ReadsUnit>(
    alloc: Global,
    builder: &mut GraphBuilder<'_, U>,
    names: &FunctionNames<'_>,
    at: Span,
    init: ForInitTree<'_>,
) -> Result<(), Stop>
    requires names { IsNamed (seen names.now) (state_of U.tables builder.old) }
    requires may { IsLowerable (seen names.now) (syntax init.tree.now) }
    requires room { HasRoom (state_of U.tables builder.old) (share (nodes (syntax init.tree.now))) }
    ensures same_reference { builder.new.env.ghost_name ≡ builder.old.env.ghost_name }
    ensures lowered { OnOk result (LowersInit (seen names.now) at (syntax init.entry.tree.now)
        (state_of U.tables builder.old) (state_of U.tables builder.new)) }
    ensures memory { IfErr result (λ e. e ≡ Stop.OutOfMemory) }
{
    match for_init_view(init) {
        ForInit::Variables(declaration) => lower_variables(alloc, builder, names, declaration),
        ForInit::Expression(expression) => {
            refuse(alloc, builder, Row::F31, at)?;
            lower_expression(alloc, builder, names, expression)?;
            Ok(())
        }
    }
}

/// Lowers what stands in front in a `for` loop, whose span is `at`: undefined where nothing does. Returns its span, or that of the loop.
fn lower_init<U: ReadsUnit>(
    alloc: Global,
    builder: &mut GraphBuilder<'_, U>,
    names: &FunctionNames<'_>,
    at: Span,
    init: Option<ForInitTree<'_>>,
) -> Result<Span, Stop>
    requires names { IsNamed (seen names.now) (state_of U.tables builder.old) }
    requires may { IsLowerable (seen names.now) (maybe init (λ t. syntax t.tree.now)) }
    requires room { HasRoom (state_of U.tables builder.old) (share (nodes (maybe init (λ t. syntax t.tree.now))) + 4) }
    ensures same_reference { builder.new.env.ghost_name ≡ builder.old.env.ghost_name }
    ensures lowered { OnOk result (LowersInit (seen names.now) at (maybe init.entry (λ t. syntax t.tree.now))
        (state_of U.tables builder.old) (state_of U.tables builder.new)) }
    ensures span { IfOk result (λ part. part ≡ part_span at (maybe init.entry (λ t. syntax t.tree.now))) }
    ensures memory { IfErr result (λ e. e ≡ Stop.OutOfMemory) }
{
    match init {
        Some(init) => {
            lower_head(alloc, builder, names, at, init)?;
            Ok(span_of(init.tree))
        }
        None => {
            lower_undefined(builder, Some(at))?;
            Ok(at)
        }
    }
}

/// Lowers the test of a `for` loop, whose span is `at`. An absent one is refused, and true stands for it.
fn lower_test<U: ReadsUnit>(
    alloc: Global,
    builder: &mut GraphBuilder<'_, U>,
    names: &FunctionNames<'_>,
    at: Span,
    test: Option<ExpressionTree<'_>>,
) -> Result<Place, Stop>
    requires names { IsNamed (seen names.now) (state_of U.tables builder.old) }
    requires may { IsLowerable (seen names.now) (maybe test (λ t. syntax t.tree.now)) }
    requires room { HasRoom (state_of U.tables builder.old) (share (nodes (maybe test (λ t. syntax t.tree.now))) + 4) }
    ensures same_reference { builder.new.env.ghost_name ≡ builder.old.env.ghost_name }
    ensures lowered { IfOk result (λ place. LowersTest (seen names.now) at (maybe test.entry (λ t. syntax t.tree.now))
        (state_of U.tables builder.old) (state_of U.tables builder.new) place) }
    ensures memory { IfErr result (λ e. e ≡ Stop.OutOfMemory) }
{
    match test {
        Some(test) => lower_expression(alloc, builder, names, test),
        None => {
            refuse(alloc, builder, Row::F32, at)?;
            let value = InstructionValue::Primitive(PrimitiveValue::Boolean(true));
            lower_value_to_temporary(builder, value, Some(at))
        }
    }
}

/// Lowers a `for` loop with an update: its init, its update, its body, and then its test.
#[cycle(statements)]
fn lower_for_updated<U: ReadsUnit>(
    alloc: Global,
    builder: &mut GraphBuilder<'_, U>,
    names: &FunctionNames<'_>,
    label: Option<&Text>,
    at: At,
    init: Option<ForInitTree<'_>>,
    test: Option<ExpressionTree<'_>>,
    update: ExpressionTree<'_>,
    body: StatementTree<'_>,
) -> Result<(), Stop>
    requires names { IsNamed (seen names.now) (state_of U.tables builder.old) }
    requires may { IsLowerableIn (seen names.now) (arounds (state_of U.tables builder.old)) (option_map (λ l. l.now) label)
        (seen_statement (Statement.For at init test (Some update) body)) }
    requires room { HasRoom (state_of U.tables builder.old)
        (share (nodes (seen_statement (Statement.For at init test (Some update) body)))) }
    ensures same_reference { builder.new.env.ghost_name ≡ builder.old.env.ghost_name }
    ensures lowered { OnOk result (LowersLoop (seen names.now) (option_map (λ l. l.now) label.entry)
        (seen_statement (Statement.For at init.entry test.entry (Some update.entry) body.entry))
        (state_of U.tables builder.old) (state_of U.tables builder.new)) }
    ensures memory { IfErr result (λ e. e ≡ Stop.OutOfMemory) }
{
    let label = copy_label(alloc, label)?;
    let mut frame = ForFrame::begin(builder, at.span, label, true)?;
    let part = lower_init(alloc, builder, names, at.span, init)?;
    frame.init(builder, part)?;
    lower_expression(alloc, builder, names, update)?;
    frame.update(builder, span_of(update.tree))?;
    lower_statement(alloc, builder, names, body)?;
    frame.body(builder, span_of(body.tree))?;
    let test = lower_test(alloc, builder, names, at.span, test)?;
    frame.finish(builder, test)?;
    Ok(())
}

/// Lowers a `for` loop without an update: its init, its body, and then its test.
#[cycle(statements)]
fn lower_for_plain<U: ReadsUnit>(
    alloc: Global,
    builder: &mut GraphBuilder<'_, U>,
    names: &FunctionNames<'_>,
    label: Option<&Text>,
    at: At,
    init: Option<ForInitTree<'_>>,
    test: Option<ExpressionTree<'_>>,
    body: StatementTree<'_>,
) -> Result<(), Stop>
    requires names { IsNamed (seen names.now) (state_of U.tables builder.old) }
    requires may { IsLowerableIn (seen names.now) (arounds (state_of U.tables builder.old)) (option_map (λ l. l.now) label)
        (seen_statement (Statement.For at init test None body)) }
    requires room { HasRoom (state_of U.tables builder.old) (share (nodes (seen_statement (Statement.For at init test None body)))) }
    ensures same_reference { builder.new.env.ghost_name ≡ builder.old.env.ghost_name }
    ensures lowered { OnOk result (LowersLoop (seen names.now) (option_map (λ l. l.now) label.entry)
        (seen_statement (Statement.For at init.entry test.entry None body.entry))
        (state_of U.tables builder.old) (state_of U.tables builder.new)) }
    ensures memory { IfErr result (λ e. e ≡ Stop.OutOfMemory) }
{
    let label = copy_label(alloc, label)?;
    let mut frame = ForFrame::begin(builder, at.span, label, false)?;
    let part = lower_init(alloc, builder, names, at.span, init)?;
    frame.init(builder, part)?;
    lower_statement(alloc, builder, names, body)?;
    frame.body(builder, span_of(body.tree))?;
    let test = lower_test(alloc, builder, names, at.span, test)?;
    frame.finish(builder, test)?;
    Ok(())
}

/// Lowers a `for`-`in` loop: its body, its right side, and then its head, which takes a key.
#[cycle(statements)]
fn lower_for_in<U: ReadsUnit>(
    alloc: Global,
    builder: &mut GraphBuilder<'_, U>,
    names: &FunctionNames<'_>,
    label: Option<&Text>,
    at: At,
    left: ForHeadTree<'_>,
    right: ExpressionTree<'_>,
    body: StatementTree<'_>,
) -> Result<(), Stop>
    requires names { IsNamed (seen names.now) (state_of U.tables builder.old) }
    requires may { IsLowerableIn (seen names.now) (arounds (state_of U.tables builder.old)) (option_map (λ l. l.now) label)
        (seen_statement (Statement.ForIn at left right body)) }
    requires room { HasRoom (state_of U.tables builder.old) (share (nodes (seen_statement (Statement.ForIn at left right body)))) }
    ensures same_reference { builder.new.env.ghost_name ≡ builder.old.env.ghost_name }
    ensures lowered { OnOk result (LowersLoop (seen names.now) (option_map (λ l. l.now) label.entry)
        (seen_statement (Statement.ForIn at left.entry right.entry body.entry))
        (state_of U.tables builder.old) (state_of U.tables builder.new)) }
    ensures memory { IfErr result (λ e. e ≡ Stop.OutOfMemory) }
{
    let label = copy_label(alloc, label)?;
    let mut frame = ForInFrame::begin(builder, at.span, label)?;
    lower_statement(alloc, builder, names, body)?;
    frame.body(builder, span_of(body.tree))?;
    let collection = lower_expression(alloc, builder, names, right)?;
    let key = frame.right(builder, span_of(left.tree), collection)?;
    let test = lower_loop_head(alloc, builder, names, left, key)?;
    frame.finish(builder, test)?;
    Ok(())
}

/// Lowers a `for`-`of` loop without `await`: its body, its right side, and then its head, which takes a value.
#[cycle(statements)]
fn lower_for_of_plain<U: ReadsUnit>(
    alloc: Global,
    builder: &mut GraphBuilder<'_, U>,
    names: &FunctionNames<'_>,
    label: Option<&Text>,
    at: At,
    left: ForHeadTree<'_>,
    right: ExpressionTree<'_>,
    body: StatementTree<'_>,
) -> Result<(), Stop>
    requires names { IsNamed (seen names.now) (state_of U.tables builder.old) }
    requires may { IsLowerableIn (seen names.now) (arounds (state_of U.tables builder.old)) (option_map (λ l. l.now) label)
        (seen_statement (Statement.ForOf at false left right body)) }
    requires room { HasRoom (state_of U.tables builder.old) (share (nodes (seen_statement (Statement.ForOf at false left right body)))) }
    ensures same_reference { builder.new.env.ghost_name ≡ builder.old.env.ghost_name }
    ensures lowered { OnOk result (LowersLoop (seen names.now) (option_map (λ l. l.now) label.entry)
        (seen_statement (Statement.ForOf at false left.entry right.entry body.entry))
        (state_of U.tables builder.old) (state_of U.tables builder.new)) }
    ensures memory { IfErr result (λ e. e ≡ Stop.OutOfMemory) }
{
    let label = copy_label(alloc, label)?;
    let mut frame = ForOfFrame::begin(builder, at.span, label)?;
    lower_statement(alloc, builder, names, body)?;
    frame.body(builder, span_of(body.tree))?;
    let collection = lower_expression(alloc, builder, names, right)?;
    let value = frame.right(builder, span_of(left.tree), collection)?;
    let test = lower_loop_head(alloc, builder, names, left, value)?;
    frame.finish(builder, test)?;
    Ok(())
}

/// Lowers a `for`-`of` loop. One with `await` is refused without its parts.
#[cycle(statements)]
fn lower_for_of<U: ReadsUnit>(
    alloc: Global,
    builder: &mut GraphBuilder<'_, U>,
    names: &FunctionNames<'_>,
    label: Option<&Text>,
    at: At,
    is_await: bool,
    left: ForHeadTree<'_>,
    right: ExpressionTree<'_>,
    body: StatementTree<'_>,
) -> Result<(), Stop>
    requires names { IsNamed (seen names.now) (state_of U.tables builder.old) }
    requires may { IsLowerableIn (seen names.now) (arounds (state_of U.tables builder.old)) (option_map (λ l. l.now) label)
        (seen_statement (Statement.ForOf at is_await left right body)) }
    requires room { HasRoom (state_of U.tables builder.old) (share (nodes (seen_statement (Statement.ForOf at is_await left right body)))) }
    ensures same_reference { builder.new.env.ghost_name ≡ builder.old.env.ghost_name }
    ensures lowered { OnOk result (LowersLoop (seen names.now) (option_map (λ l. l.now) label.entry)
        (seen_statement (Statement.ForOf at is_await left.entry right.entry body.entry))
        (state_of U.tables builder.old) (state_of U.tables builder.new)) }
    ensures memory { IfErr result (λ e. e ≡ Stop.OutOfMemory) }
{
    if is_await {
        refuse(alloc, builder, Row::F33, at.span)?;
        return Ok(());
    }
    lower_for_of_plain(alloc, builder, names, label, at, left, right, body)
}

/// Lowers a loop, with the label right in front of it if it has one.
#[cycle(statements)]
pub(crate) fn lower_loop<U: ReadsUnit>(
    alloc: Global,
    builder: &mut GraphBuilder<'_, U>,
    names: &FunctionNames<'_>,
    label: Option<&Text>,
    statement: StatementTree<'_>,
) -> Result<(), Stop>
    requires names { IsNamed (seen names.now) (state_of U.tables builder.old) }
    requires repeats { is_loop (syntax statement.tree.now) ≡ true }
    requires may { IsLowerableIn (seen names.now) (arounds (state_of U.tables builder.old)) (option_map (λ l. l.now) label)
        (syntax statement.tree.now) }
    requires room { HasRoom (state_of U.tables builder.old) (share (nodes (syntax statement.tree.now))) }
    ensures same_reference { builder.new.env.ghost_name ≡ builder.old.env.ghost_name }
    ensures lowered { OnOk result (LowersLoop (seen names.now) (option_map (λ l. l.now) label.entry) (syntax statement.entry.tree.now)
        (state_of U.tables builder.old) (state_of U.tables builder.new)) }
    ensures memory { IfErr result (λ e. e ≡ Stop.OutOfMemory) }
{
    match statement_view(statement) {
        Statement::While { at, test, body } => {
            lower_while(alloc, builder, names, label, at, test, body)
        }
        Statement::DoWhile { at, body, test } => {
            lower_do_while(alloc, builder, names, label, at, body, test)
        }
        Statement::For {
            at,
            init,
            test,
            update,
            body,
        } => match update {
            Some(update) => lower_for_updated(
                alloc, builder, names, label, at, init, test, update, body,
            ),
            None => lower_for_plain(alloc, builder, names, label, at, init, test, body),
        },
        Statement::ForIn {
            at,
            left,
            right,
            body,
        } => lower_for_in(alloc, builder, names, label, at, left, right, body),
        Statement::ForOf {
            at,
            is_await,
            left,
            right,
            body,
        } => lower_for_of(
            alloc, builder, names, label, at, is_await, left, right, body,
        ),
        _ => unreachable!(),
    }
}

/// Lowers a statement with a label: a loop takes the label itself.
#[cycle(statements)]
pub(crate) fn lower_labeled<U: ReadsUnit>(
    alloc: Global,
    builder: &mut GraphBuilder<'_, U>,
    names: &FunctionNames<'_>,
    at: At,
    label: &Text,
    body: StatementTree<'_>,
) -> Result<(), Stop>
    requires names { IsNamed (seen names.now) (state_of U.tables builder.old) }
    requires may { IsLowerableIn (seen names.now) (arounds (state_of U.tables builder.old)) None
        (seen_statement (Statement.Labeled at label body)) }
    requires room { HasRoom (state_of U.tables builder.old) (share (nodes (seen_statement (Statement.Labeled at label body)))) }
    ensures same_reference { builder.new.env.ghost_name ≡ builder.old.env.ghost_name }
    ensures lowered { OnOk result (LowersStatement (seen names.now) (seen_statement (Statement.Labeled at label.entry body.entry))
        (state_of U.tables builder.old) (state_of U.tables builder.new)) }
    ensures memory { IfErr result (λ e. e ≡ Stop.OutOfMemory) }
{
    if is_loop(body.tree) {
        return lower_loop(alloc, builder, names, Some(label), body);
    }
    let label = label.copy(alloc)?;
    let frame = LabelFrame::begin(builder, at.span, label)?;
    lower_statement(alloc, builder, names, body)?;
    frame.finish(builder, span_of(body.tree))?;
    Ok(())
}
