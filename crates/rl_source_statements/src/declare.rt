//! Declarations of variables and of functions.

ghost use Rattle.std.specs.Prelude.{◌≡◌, IfOk};
ghost use Rattle.rl_base.specs.VariableKinds.{variable_text};
ghost use Rattle.rl_grammar.specs.Fields.{maybe};
ghost use Rattle.rl_model.specs.Patterns.{declare};
ghost use Rattle.rl_model.specs.Statements as statements;
ghost use Rattle.rl_source_stack.specs.Controls.{from_normal, trace_of};
ghost use Rattle.rl_source_stack.specs.Parts.{among};
ghost use Rattle.rl_source_stack.specs.States.{state_of};
ghost use Rattle.rl_trace.specs.Values.{shown};
ghost use Rattle.rl_source_statements.specs.Starts.{storing_body};
ghost use Rattle.rl_syntax.specs.Syntax.{syntax};

use crate::execute::evaluate_for;
use rl_ast::function_node::Function;
use rl_ast::statement_part::{variable_declaration_view, variable_declarator_view};
use rl_base::error::OutOfMemory;
use rl_base::ids::SymbolId;
use rl_base::variable_kind::VariableKind;
use rl_grammar::sort::{
    BindingIdentifierTree, BindingPatternTree, VariableDeclarationTree, VariableDeclaratorTree,
    VariableDeclaratorTrees,
};
use rl_grammar::tree::Tree;
use rl_source_shapes::events::function_event;
use rl_source_stack::apart::Binding;
use rl_source_stack::behind::Following;
use rl_source_stack::control::Control;
use rl_source_stack::run::Run;
use rl_source_stack::stack::{Around, Frame};
use rl_syntax::parts::node_of;
use rl_syntax::word::Word;
use rl_trace::value::Val;

/// True of `using` and `await using`.
pub fn is_using(kind: VariableKind) -> bool
    ensures { result ≡ statements.is_using (variable_text kind) }
{
    match kind {
        VariableKind::Var => false,
        VariableKind::Let => false,
        VariableKind::Const => false,
        VariableKind::Using => true,
        VariableKind::AwaitUsing => true,
    }
}

/// Declares variables. Those of `using` have no meaning. On `OutOfMemory`, an allocation failed.
pub fn declare_variables<'b>(
    run: &mut Run<'b>,
    tree: VariableDeclarationTree<'b>,
) -> Result<Control<'b>, OutOfMemory>
    ensures { IfOk result (λ c. trace_of c (state_of run.new) ≡ trace_of (Control.Variables tree.entry) (state_of run.old)) }
{
    let declaration = variable_declaration_view(tree);
    if is_using(declaration.kind) {
        return Ok(Control::Waiting);
    }
    run.push(Frame::Statement(Around::Declarators {
        declarators: declaration.declarators,
    }))?;
    Ok(Control::Normal)
}

/// Gives the variables of a declarator their values; without an initializer they are Undefined. On `OutOfMemory`, an allocation
/// failed.
fn declare_one<'b>(
    run: &mut Run<'b>,
    tree: VariableDeclaratorTree<'b>,
) -> Result<Control<'b>, OutOfMemory>
    ensures { IfOk result (λ c. trace_of c (state_of run.new)
        ≡ from_normal (statements.declare_one (state_of run.old).scene (syntax tree.entry.tree.now)) (state_of run.old)) }
{
    let declarator = variable_declarator_view(tree);
    let pattern = Binding::Pattern(declarator.pattern);
    match declarator.init {
        None => Ok(Control::Bind(false, pattern, Val::Undefined)),
        Some(init) => {
            let following = Following::Bind {
                everywhere: false,
                pattern,
            };
            evaluate_for(run, following, init)
        }
    }
}

/// Goes on with the declarators that are left. On `OutOfMemory`, an allocation failed.
pub fn declare_next<'b>(
    run: &mut Run<'b>,
    declarators: VariableDeclaratorTrees<'b>,
) -> Result<Control<'b>, OutOfMemory>
    ensures { IfOk result (λ c. trace_of c (state_of run.new)
        ≡ from_normal (statements.declare_all (state_of run.old).scene (among declarators.entry.trees.now)) (state_of run.old)) }
{
    match declarators.split_first() {
        None => Ok(Control::Normal),
        Some((first, left)) => {
            run.push(Frame::Statement(Around::Declarators { declarators: left }))?;
            declare_one(run, first)
        }
    }
}

/// The name of a function as a pattern.
#[tactic(auto, using(rl_grammar::proofs::Viewing::viewing))]
fn pattern_of(name: BindingIdentifierTree<'_>) -> BindingPatternTree<'_>
    ensures { syntax result.tree.now ≡ syntax name.entry.tree.now }
{
    let (_at, word, _parts) = node_of(name.tree);
    match word {
        Word::Bind => Tree::new(name.tree),
        _ => unreachable!(),
    }
}

/// Gives a declared variable its value. On `OutOfMemory`, an allocation failed.
pub fn declare_symbol<'b>(
    run: &mut Run<'b>,
    symbol: Option<SymbolId>,
    value: Val<'b>,
) -> Result<Control<'b>, OutOfMemory>
    ensures { IfOk result (λ c. trace_of c (state_of run.new) ≡ from_normal (declare symbol (shown value.entry)) (state_of run.old)) }
{
    match symbol {
        Some(symbol) => {
            run.assign(symbol, value)?;
            Ok(Control::Normal)
        }
        None => Ok(Control::Normal),
    }
}

/// Executes a function declaration: the function that its node makes is stored. On `OutOfMemory`, an allocation failed.
pub fn declare_function<'b>(
    run: &mut Run<'b>,
    function: Function<'b>,
) -> Result<Control<'b>, OutOfMemory>
    ensures { IfOk result (λ c. trace_of c (state_of run.new)
        ≡ from_normal (storing_body (state_of run.old).scene function.entry.at.id.0 (maybe function.entry.name (λ t. syntax t.tree.now))
        (maybe function.entry.body (λ t. syntax t.tree.now))) (state_of run.old)) }
{
    match function.body {
        None => Ok(Control::Normal),
        Some(_body) => match function.name {
            None => Ok(Control::Waiting),
            Some(name) => {
                run.push(Frame::Following(Following::Bind {
                    everywhere: false,
                    pattern: Binding::Pattern(pattern_of(name)),
                }))?;
                let event = function_event(run.progress.alloc, function.at.id)?;
                run.ask_value(event)
            }
        },
    }
}
