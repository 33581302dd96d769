//! Graphs of functions under construction (`HIRBuilder` of the compiler).

ghost use Rattle.std.specs.Prelude.{◌≡◌, ◌≢◌, ◌+◌, ◌<◌, ◌^◌, [], All, None, Err, OnOk, OnErr, IfOk, IfErr, length, option_map, unwrap_or};
ghost use Rattle.rl_base.specs.Rows.{category_of};
ghost use Rattle.rl_base.specs.declared.row.Category.TheVariants as category;
ghost use Rattle.rl_builder.specs.Build.{IsBuilt, graph_of};
ghost use Rattle.rl_builder.specs.Builder.{state_of, one_identifier_more, with_temporary, with_type, recorded};
ghost use Rattle.rl_builder.specs.Closures.{KeepsStacks};
ghost use Rattle.rl_builder.specs.Started.{started};
ghost use Rattle.rl_builder.specs.Tables.{tables_of};
ghost use Rattle.rl_hir.specs.declared.instruction.HirType.TheVariants as types;
ghost use Rattle.rl_order.specs.Numbering.{orders_of};
ghost use Rattle.rl_order.specs.Walk.{IsWhole};

use crate::blocks::{WipBlock, new_block};
use crate::graph::{Built, refuse_dropped, table_of};
use crate::jumps::JumpScope;
use crate::unit_tables::{ReadsUnit, UnitTables};
use indexmap::IndexMap;
use rl_base::diagnostic::Diagnostic;
use rl_base::error::OutOfMemory;
use rl_base::ids::{BlockId, IdentifierId, ScopeId, SymbolId};
use rl_base::list::List;
use rl_base::span::Span;
use rl_base::stop::Stop;
use rl_context::index::IdentifierLocIndex;
use rl_hir::blocks::Blocks;
use rl_hir::environment::Environment;
use rl_hir::function::{BasicBlock, BlockKind, Hir};
use rl_hir::instruction::{HirType, Instruction, Place};
use rl_names::names::FunctionNames;
use rl_order::order::order_blocks;
use rl_order::prune::clean;
use rl_resolver::resolver::ScopeResolver;
use rl_syntax::numbered::At;
pub use rl_used_names::names::{Bindings, UsedNames};
use std::alloc::Global;
use std::collections::BTreeSet;
use std::marker::PhantomData;

/// The parts of a builder beside the environment. `U` shows the tables of its unit, `B` is the table of blocks that `build`
/// makes.
#[derive(Drop)]
pub struct Work<U, B> {
    pub(crate) alloc: Global,
    /// The tables of the unit that calls read.
    pub(crate) unit: U,
    /// Ids and span of the marked function.
    pub(crate) function: At,
    /// The blocks that have a terminal, each with its id, in the order in which they got it.
    pub(crate) completed: Vec<(BlockId, BasicBlock)>,
    /// The block that takes the next instruction.
    pub(crate) current: WipBlock,
    pub(crate) entry: BlockId,
    /// The instruction table, indexed by instruction id.
    pub(crate) instructions: Vec<Instruction>,
    /// The blocks that throws go to, the innermost last.
    pub(crate) handlers: Vec<BlockId>,
    /// The statements that jumps may go to, the innermost last.
    pub(crate) scopes: Vec<JumpScope>,
    /// The identifiers of symbols.
    pub(crate) bindings: Bindings,
    /// The names of identifiers, each with its symbol.
    pub(crate) used_names: UsedNames,
    /// The symbols of functions around this one that it captures, each with the span of its first use.
    pub(crate) context: IndexMap<SymbolId, Span>,
    /// The symbols that the marked function shares with functions in it.
    pub(crate) context_identifiers: BTreeSet<SymbolId>,
    pub(crate) function_scope: ScopeId,
    pub(crate) component_scope: ScopeId,
    table: PhantomData<B>,
}

/// The parts `work` of a builder, over the environment that its unit's builders share. It is generic so that `Drop`, written
/// by hand, tells the lender of the environment what is left in it.
pub struct Over<'e, W> {
    pub(crate) env: &'e mut Environment,
    /// The number of `fbt` elements around the node that is lowered (`fbtDepth`).
    pub fbt_depth: u32,
    pub(crate) work: W,
}

impl<W: Drop> Drop for Over<'_, W> {
    fn drop(self)
        ensures { self.exit.0.now ≡ self.entry.env.now }
    {
        let Over {
            env: _,
            fbt_depth: _,
            work: _,
        } = self;
    }
}

/// A function's graph under construction, whose blocks become a table `B`, over the tables of its unit, which `U` shows. Its
/// calls are moves on a state (`State` of specs/Builder.antt). After an error that a call does not speak of, the state is
/// unspecified: the caller drops the builder.
pub type HirBuilder<'e, U, B> = Over<'e, Work<U, B>>;

/// Adds an identifier without a name, with the span if there is one. On `OutOfMemory` an allocation failed, and nothing
/// changed.
pub(crate) fn new_temporary(
    env: &mut Environment,
    span: Option<Span>,
) -> Result<IdentifierId, OutOfMemory>
    requires identifiers { length env.old.identifiers < 2 ^ 32 }
    requires types { env.old.next_type + 1 < 2 ^ 32 }
    ensures ok { OnOk result (env.new ≡ one_identifier_more env.old span) }
    ensures id { IfOk result (λ id. id.0 ≡ length env.old.identifiers) }
    ensures err { OnErr result (env.new ≡ env.old) }
{
    let identifier = env.next_identifier_id()?;
    match span {
        Some(span) => {
            env.set_span(identifier, span);
            Ok(identifier)
        }
        None => Ok(identifier),
    }
}

/// A place of a fresh identifier, which has the span; the place itself has none (`createTemporaryPlace`). On
/// `OutOfMemory` an allocation failed, and nothing changed.
pub fn create_temporary_place(
    env: &mut Environment,
    span: Option<Span>,
) -> Result<Place, OutOfMemory>
    requires identifiers { length env.old.identifiers < 2 ^ 32 }
    requires types { env.old.next_type + 1 < 2 ^ 32 }
    ensures ok { OnOk result (env.new ≡ one_identifier_more env.old span) }
    ensures place { IfOk result (λ p. p ≡ record { identifier = record { 0 = length env.old.identifiers }; span = None }) }
    ensures err { OnErr result (env.new ≡ env.old) }
{
    let identifier = new_temporary(env, span)?;
    Ok(Place {
        identifier,
        span: None,
    })
}

/// The identifiers that were given; without any, the empty map with room for `count` symbols. On `OutOfMemory` an allocation
/// failed.
fn bindings_or_room(
    alloc: Global,
    bindings: Option<Bindings>,
    count: usize,
) -> Result<Bindings, OutOfMemory>
    ensures { IfOk result (λ all. all ≡ unwrap_or bindings []) }
{
    match bindings {
        Some(bindings) => Ok(bindings),
        None => Bindings::with_room(alloc, count),
    }
}

/// The names that were given; without any, the empty map with room for `count` names. On `OutOfMemory` an allocation failed.
fn names_or_room(
    alloc: Global,
    used_names: Option<UsedNames>,
    count: usize,
) -> Result<UsedNames, OutOfMemory>
    ensures { IfOk result (λ all. all ≡ unwrap_or used_names []) }
{
    match used_names {
        Some(used_names) => Ok(used_names),
        None => UsedNames::with_room(alloc, count),
    }
}

/// The captures that were given; without any, none.
fn context_or_none(
    alloc: Global,
    context: Option<IndexMap<SymbolId, Span>>,
) -> IndexMap<SymbolId, Span>
    ensures { result.entries ≡ unwrap_or (option_map (λ c. c.entries) context) [] }
{
    match context {
        Some(context) => context,
        None => IndexMap::new(alloc),
    }
}

impl<'e, W> Over<'e, W> {
    ghost use Rattle.std.specs.Borrow.{sem};
    ghost use Rattle.rl_builder.specs.Lending.{LendsEnvironment};

    /// The environment that the unit's builders share, to be changed. A caller that renames or takes away identifiers breaks
    /// the rule on names, which the calls that resolve names keep.
    pub fn environment_mut(&mut self) -> &mut Environment
        ensures* writes { sem 𝓛 (LendsEnvironment W.row self.entry result) }
        ensures value { result.now ≡ self.old.env.now }
    {
        &mut *self.env
    }
}

impl<'e, 's, B> Over<'e, Work<UnitTables<'s>, B>> {
    /// A builder of the function whose scope is `function_scope`, in the lowering of the marked function, whose scope is
    /// `component_scope` and whose index is `identifier_spans`. Its current block is the entry, of a fresh id. `bindings`,
    /// `used_names` and `context` are those of the function around it; without them they are empty. The entry is a `Block`
    /// unless a kind is given. On `OutOfMemory` an allocation failed, and nothing is kept.
    #[allow(clippy::too_many_arguments)]
    pub fn new(
        alloc: Global,
        env: &'e mut Environment,
        scope: &'s ScopeResolver<'s>,
        function_scope: ScopeId,
        component_scope: ScopeId,
        context_identifiers: BTreeSet<SymbolId>,
        bindings: Option<Bindings>,
        context: Option<IndexMap<SymbolId, Span>>,
        entry_block_kind: Option<BlockKind>,
        used_names: Option<UsedNames>,
        identifier_spans: &'s IdentifierLocIndex,
    ) -> Result<HirBuilder<'e, UnitTables<'s>, B>, OutOfMemory>
        requires room { env.old.next_block + 1 < 2 ^ 32 }
        ensures same_reference { IfOk result (λ b. b.env.ghost_name ≡ env.entry.ghost_name) }
        ensures state { IfOk result (λ b. state_of tables_of b ≡ started env.old (record {
          semantic = scope.entry.now.semantic.now;
          sites = identifier_spans.entry.now;
          function_scope = function_scope;
          component_scope = component_scope;
          context_identifiers = context_identifiers.keys;
          bindings = unwrap_or bindings [];
          context = unwrap_or (option_map (λ c. c.entries) context) [];
          used_names = unwrap_or used_names [];
        }) (unwrap_or entry_block_kind BlockKind.Block)) }
    {
        let unit = UnitTables {
            resolver: scope,
            identifier_spans,
        };
        Over::over(
            alloc,
            env,
            unit,
            function_scope,
            component_scope,
            context_identifiers,
            bindings,
            context,
            entry_block_kind,
            used_names,
        )
    }
}

impl<'e, U: ReadsUnit, B> Over<'e, Work<U, B>> {
    /// As `new`, over the tables that `unit` shows.
    #[allow(clippy::too_many_arguments)]
    pub fn over(
        alloc: Global,
        env: &'e mut Environment,
        unit: U,
        function_scope: ScopeId,
        component_scope: ScopeId,
        context_identifiers: BTreeSet<SymbolId>,
        bindings: Option<Bindings>,
        context: Option<IndexMap<SymbolId, Span>>,
        entry_block_kind: Option<BlockKind>,
        used_names: Option<UsedNames>,
    ) -> Result<HirBuilder<'e, U, B>, OutOfMemory>
        requires room { env.old.next_block + 1 < 2 ^ 32 }
        ensures same_reference { IfOk result (λ b. b.env.ghost_name ≡ env.entry.ghost_name) }
        ensures state { IfOk result (λ b. state_of U.tables b ≡ started env.old (record {
          semantic = (U.tables unit).semantic;
          sites = (U.tables unit).sites;
          function_scope = function_scope;
          component_scope = component_scope;
          context_identifiers = context_identifiers.keys;
          bindings = unwrap_or bindings [];
          context = unwrap_or (option_map (λ c. c.entries) context) [];
          used_names = unwrap_or used_names [];
        }) (unwrap_or entry_block_kind BlockKind.Block)) }
    {
        let scope = unit.resolver();
        let symbols = scope.semantic.bindings.symbols.as_slice().len();
        let function = FunctionNames::in_scope(scope, component_scope).function;
        let kind = entry_block_kind.unwrap_or(BlockKind::Block);
        let bindings = bindings_or_room(alloc, bindings, symbols)?;
        let used_names = names_or_room(alloc, used_names, symbols)?;
        let entry = env.next_block_id();
        let work = Work {
            alloc,
            unit,
            function,
            completed: Vec::new(alloc),
            current: new_block(alloc, entry, kind),
            entry,
            instructions: Vec::new(alloc),
            handlers: Vec::new(alloc),
            scopes: Vec::new(alloc),
            bindings,
            used_names,
            context: context_or_none(alloc, context),
            context_identifiers,
            function_scope,
            component_scope,
            table: PhantomData,
        };
        Ok(Over {
            env,
            fbt_depth: 0,
            work,
        })
    }

    /// The environment that the unit's builders share.
    pub fn environment(&self) -> &Environment
        ensures { result.now ≡ (state_of U.tables self.now).env }
    {
        self.env
    }

    /// The names of the unit by number.
    pub fn scope(&self) -> &ScopeResolver<'_>
        ensures { result.now.semantic.now ≡ (state_of U.tables self.now).semantic }
    {
        self.work.unit.resolver()
    }

    /// A value that shows the tables of the unit, for the builder of an inner function.
    pub fn unit(&self) -> U
        ensures { U.tables result ≡ record { semantic = (state_of U.tables self.now).semantic; sites = (state_of U.tables self.now).sites } }
    {
        self.work.unit.share()
    }

    /// The scope of the function that is built.
    pub fn function_scope(&self) -> ScopeId
        ensures { result ≡ (state_of U.tables self.now).function_scope }
    {
        self.work.function_scope
    }

    /// The scope of the marked function.
    pub fn component_scope(&self) -> ScopeId
        ensures { result ≡ (state_of U.tables self.now).component_scope }
    {
        self.work.component_scope
    }

    /// The symbols of functions around this one that it captures, each with the span of its first use.
    pub fn context(&self) -> &IndexMap<SymbolId, Span>
        ensures { result.now.entries ≡ (state_of U.tables self.now).context }
    {
        &self.work.context
    }

    /// The symbols that the marked function shares with functions in it.
    pub fn context_identifiers(&self) -> &BTreeSet<SymbolId>
        ensures { result.now.keys ≡ (state_of U.tables self.now).context_identifiers }
    {
        &self.work.context_identifiers
    }

    /// The index of the marked function.
    pub fn identifier_spans(&self) -> &IdentifierLocIndex
        ensures { result.now ≡ (state_of U.tables self.now).sites }
    {
        self.work.unit.identifier_spans()
    }

    /// The identifiers of symbols.
    pub fn bindings(&self) -> &Bindings
        ensures { result.now ≡ (state_of U.tables self.now).bindings }
    {
        &self.work.bindings
    }

    /// The names of identifiers, each with its symbol.
    pub fn used_names(&self) -> &UsedNames
        ensures { result.now ≡ (state_of U.tables self.now).used_names }
    {
        &self.work.used_names
    }

    /// A fresh type variable (`makeType`).
    pub fn make_type(&mut self) -> HirType
        requires { self.old.env.now.next_type + 1 < 2 ^ 32 }
        ensures same_reference { self.new.env.ghost_name ≡ self.old.env.ghost_name }
        ensures state { state_of U.tables self.new ≡ with_type (state_of U.tables self.old) }
        ensures fresh { result ≡ types.Var (record { 0 = self.old.env.now.next_type }) }
    {
        HirType::Var(self.env.make_type())
    }

    /// Adds an identifier without a name, with the span if there is one, and answers its id (`makeTemporary`). On
    /// `OutOfMemory` an allocation failed, and nothing changed.
    pub fn make_temporary(&mut self, span: Option<Span>) -> Result<IdentifierId, OutOfMemory>
        requires identifiers { length self.old.env.now.identifiers < 2 ^ 32 }
        requires types { self.old.env.now.next_type + 1 < 2 ^ 32 }
        ensures same_reference { self.new.env.ghost_name ≡ self.old.env.ghost_name }
        ensures state { OnOk result (state_of U.tables self.new ≡ with_temporary (state_of U.tables self.old) span) }
        ensures id { IfOk result (λ id. id.0 ≡ length self.old.env.now.identifiers) }
        ensures unchanged { OnErr result (state_of U.tables self.new ≡ state_of U.tables self.old) }
        ensures kept { KeepsStacks self.old result self.new }
    {
        new_temporary(self.env, span)
    }

    /// A place of a fresh identifier without a name; both have the span (`buildTemporaryPlace`). On `OutOfMemory` an
    /// allocation failed, and nothing changed.
    pub fn create_temporary_place(&mut self, span: Option<Span>) -> Result<Place, OutOfMemory>
        requires identifiers { length self.old.env.now.identifiers < 2 ^ 32 }
        requires types { self.old.env.now.next_type + 1 < 2 ^ 32 }
        ensures same_reference { self.new.env.ghost_name ≡ self.old.env.ghost_name }
        ensures state { OnOk result (state_of U.tables self.new ≡ with_temporary (state_of U.tables self.old) span) }
        ensures place { IfOk result (λ p. p ≡ record { identifier = record { 0 = length self.old.env.now.identifiers }; span = span }) }
        ensures unchanged { OnErr result (state_of U.tables self.new ≡ state_of U.tables self.old) }
        ensures kept { KeepsStacks self.old result self.new }
    {
        let identifier = self.make_temporary(span)?;
        Ok(Place { identifier, span })
    }

    /// Appends a diagnostic to those of the unit, of whatever category (`recordDiagnostic`). On `OutOfMemory` an
    /// allocation failed, and nothing changed.
    pub fn record_diagnostic(&mut self, diagnostic: Diagnostic) -> Result<(), OutOfMemory>
        ensures same_reference { self.new.env.ghost_name ≡ self.old.env.ghost_name }
        ensures state { OnOk result (state_of U.tables self.new ≡ recorded (state_of U.tables self.old) diagnostic) }
        ensures unchanged { OnErr result (state_of U.tables self.new ≡ state_of U.tables self.old) }
        ensures kept { KeepsStacks self.old result self.new }
    {
        self.env.record_diagnostic(diagnostic)
    }

    /// Appends a diagnostic to those of the unit, or stops with it where its category is `Invariant` (`recordError`). On
    /// `Stop::Diagnostic` and on `Stop::OutOfMemory`, where an allocation failed, nothing changed.
    pub fn record_error(&mut self, diagnostic: Diagnostic) -> Result<(), Stop>
        ensures same_reference { self.new.env.ghost_name ≡ self.old.env.ghost_name }
        ensures state { OnOk result (state_of U.tables self.new ≡ recorded (state_of U.tables self.old) diagnostic) }
        ensures unchanged { OnErr result (state_of U.tables self.new ≡ state_of U.tables self.old) }
        ensures kept { KeepsStacks self.old result self.new }
        ensures invariant { category_of diagnostic.row ≡ category.Invariant → result ≡ Err (Stop.Diagnostic diagnostic) }
        ensures other { category_of diagnostic.row ≢ category.Invariant → IfErr result (λ e. e ≡ Stop.OutOfMemory) }
    {
        self.env.record_error(diagnostic)
    }
}

impl<'e, U: ReadsUnit, B: Blocks> Over<'e, Work<U, B>> {
    /// The graph of the completed blocks in its order (`build`), by seven moves: the ordering; the refusal F41 of each block that
    /// it drops although it makes a function; the removal of updates, `do`-`while` loops and `try` statements that name dropped
    /// blocks; evaluation orders from 1 in block order; and predecessors. The whole instruction table is kept, the current block
    /// is dropped. On `OutOfMemory` an allocation failed, and nothing is kept but what was recorded.
    pub fn build(self) -> Result<Built<B>, OutOfMemory>
        requires whole { IsWhole (graph_of (state_of U.tables self)) (state_of U.tables self).entry }
        requires listed { All (λ p. All (λ id. id.0 < length (state_of U.tables self).table) p.1.instructions) (graph_of (state_of U.tables self)) }
        requires room { orders_of (graph_of (state_of U.tables self)) < 2 ^ 32 }
        ensures built { IfOk result (λ built. IsBuilt (state_of U.tables self.entry) (record { blocks = B.pairs built.hir.blocks; table = built.instructions; entry = built.hir.entry }) self.exit.0.now) }
        ensures bindings { IfOk result (λ built. built.bindings ≡ (state_of U.tables self.entry).bindings) }
        ensures used_names { IfOk result (λ built. built.used_names ≡ (state_of U.tables self.entry).used_names) }
    {
        let Over {
            env,
            fbt_depth: _,
            work,
        } = self;
        let Work {
            alloc,
            completed,
            entry,
            mut instructions,
            bindings,
            used_names,
            ..
        } = work;
        let blocks = table_of::<B>(alloc, completed)?;
        let graph = Hir { entry, blocks };
        let ordered = order_blocks(alloc, &graph)?;
        refuse_dropped(alloc, env, &instructions, &graph.blocks, &ordered)?;
        let mut hir = Hir {
            entry,
            blocks: ordered,
        };
        clean(alloc, &mut hir, &mut instructions)?;
        Ok(Built {
            hir,
            instructions: List::from_vec(instructions),
            used_names,
            bindings,
        })
    }
}
