ghost use Rattle.std.specs.Prelude.{◌≡◌, ◌≢◌, ◌+◌, ◌<◌, ◌^◌, ◌∷◌, ◌++◌, [], ◌||◌, nat_eq, true, false, OnOk, OnErr, IfOk, IfErr, length, slice_get, None, Some, Ok, Err};
ghost use Rattle.rl_base.specs.Rows.{category_of};
ghost use Rattle.rl_base.specs.declared.ids.SymbolId.{SymbolId as Symbol};
ghost use Rattle.rl_hir.specs.Identifiers.{with_name, with_span, changed_at};
ghost use Rattle.rl_hir.specs.Symbols.{added, has};

use crate::blocks::GraphBlocks;
use crate::function::{
    HirFunction, Identifier, IdentifierName, InnerFunction, Lowered, Pair, ReactFunctionType,
};
use crate::symbol_set::SymbolSet;
use rl_atoms::entity_table::EntityTable;
use rl_base::diagnostic::Diagnostic;
use rl_base::error::OutOfMemory;
use rl_base::ids::{BlockId, FunctionId, IdentifierId, NodeId, ReferenceId, SymbolId, TypeId};
use rl_base::list::List;
use rl_base::row::Category;
use rl_base::span::Span;
use rl_base::stop::Stop;
use rl_base::text::Text;
use std::alloc::Global;

/// The name that a reference has in the graph, in place of that in the source.
#[derive(Drop)]
pub struct Rename {
    /// The reference.
    pub reference: ReferenceId,
    /// Its name in the graph.
    pub name: Text,
}

/// The counters and tables that all functions of a unit share while they are lowered (`Environment` of the compiler).
/// A call that answers `OutOfMemory` leaves it unchanged. Each call takes constant time, up to the logarithm of a look-up among the
/// hoisted identifiers and the growth of a table.
#[derive(Drop)]
pub struct Environment {
    /// The type of the marked function.
    fn_type: ReactFunctionType,
    /// The id of the next block.
    next_block: u32,
    /// The id of the next type variable.
    next_type: u32,
    /// The identifiers of all functions, indexed by identifier id.
    identifiers: List<Identifier>,
    /// The inner functions that were lowered, indexed by function id.
    functions: List<InnerFunction>,
    /// Symbols and their identifiers, in the order in which the symbols got them.
    pairs: List<Pair>,
    /// The diagnostics that were recorded, in the order of the walk.
    diagnostics: List<Diagnostic>,
    /// The entities of JSX texts, by their names.
    entities: EntityTable,
    /// The symbols that were marked as hoisted.
    hoisted: SymbolSet,
    /// The references that were renamed, in the order in which they were.
    renames: List<Rename>,
    /// True if the unit is to be left as it is.
    skip: bool,
}

impl Environment {
    /// An environment with these entities, all other tables empty and both counters at 0. It allocates nothing, so it succeeds.
    pub fn new(
        alloc: Global,
        fn_type: ReactFunctionType,
        entities: EntityTable,
    ) -> Result<Environment, OutOfMemory>
        ensures { result ≡ Ok (record {
          fn_type = fn_type;
          next_block = 0;
          next_type = 0;
          identifiers = [];
          functions = [];
          pairs = [];
          diagnostics = [];
          entities = entities;
          hoisted = [];
          renames = [];
          skip = false;
        }) }
    {
        Ok(Environment {
            fn_type,
            next_block: 0,
            next_type: 0,
            identifiers: List::new(alloc),
            functions: List::new(alloc),
            pairs: List::new(alloc),
            diagnostics: List::new(alloc),
            entities,
            hoisted: SymbolSet::new(alloc),
            renames: List::new(alloc),
            skip: false,
        })
    }

    /// The type of the marked function.
    pub fn fn_type(&self) -> ReactFunctionType
        ensures { result ≡ self.now.fn_type }
    {
        self.fn_type
    }

    /// The block id that comes next. Ids count from 0 over all functions of the unit.
    pub fn next_block(&self) -> u32
        ensures { result ≡ self.now.next_block }
    {
        self.next_block
    }

    /// The id of the type variable that comes next. Ids count from 0 over all functions of the unit.
    pub fn next_type(&self) -> u32
        ensures { result ≡ self.now.next_type }
    {
        self.next_type
    }

    /// Hands out the next block id (`nextBlockId`).
    pub fn next_block_id(&mut self) -> BlockId
        requires { self.old.next_block + 1 < 2 ^ 32 }
        ensures id { result.0 ≡ self.old.next_block }
        ensures rest { self.new ≡ record self.old { next_block = self.old.next_block + 1 } }
    {
        let id = BlockId(self.next_block);
        self.next_block += 1;
        id
    }

    /// Hands out the next type variable (`makeType`).
    pub fn make_type(&mut self) -> TypeId
        requires { self.old.next_type + 1 < 2 ^ 32 }
        ensures id { result.0 ≡ self.old.next_type }
        ensures rest { self.new ≡ record self.old { next_type = self.old.next_type + 1 } }
    {
        let id = TypeId(self.next_type);
        self.next_type += 1;
        id
    }

    /// Adds an identifier without a name and without a span, of a fresh type variable, and answers its id
    /// (`nextIdentifierId`). On `OutOfMemory` an allocation failed, and nothing changed.
    pub fn next_identifier_id(&mut self) -> Result<IdentifierId, OutOfMemory>
        requires identifiers { length self.old.identifiers < 2 ^ 32 }
        requires types { self.old.next_type + 1 < 2 ^ 32 }
        ensures id { IfOk result (λ id. id.0 ≡ length self.old.identifiers) }
        ensures ok { OnOk result (self.new ≡ record self.old {
          next_type = self.old.next_type + 1;
          identifiers = self.old.identifiers ++ record { name = None; span = None; type_id = record { 0 = self.old.next_type } } ∷ [];
        }) }
        ensures err { OnErr result (self.new ≡ self.old) }
    {
        let id = IdentifierId(self.identifiers.len() as u32);
        self.identifiers.push(Identifier {
            name: None,
            span: None,
            type_id: TypeId(self.next_type),
        })?;
        self.next_type += 1;
        Ok(id)
    }

    /// The identifiers of all functions, indexed by identifier id.
    pub fn identifiers(&self) -> &[Identifier]
        ensures { result.now ≡ self.now.identifiers }
    {
        self.identifiers.as_slice()
    }

    /// An identifier by its id.
    pub fn identifier(&self, id: IdentifierId) -> &Identifier
        requires { id.0 < length self.now.identifiers }
        ensures { slice_get self.now.identifiers id.0 ≡ Some result.now }
    {
        &self.identifiers.as_slice()[id.0 as usize]
    }

    /// Gives an identifier its name, in place of the one that it had.
    pub fn set_name(&mut self, identifier: IdentifierId, name: IdentifierName)
        requires { identifier.0 < length self.old.identifiers }
        ensures { self.new ≡ record self.old { identifiers = changed_at (with_name name) identifier.0 self.old.identifiers } }
    {
        self.identifiers.item_mut(identifier.0 as usize).name = Some(name);
    }

    /// Gives an identifier its span, in place of the one that it had.
    pub fn set_span(&mut self, identifier: IdentifierId, span: Span)
        requires { identifier.0 < length self.old.identifiers }
        ensures { self.new ≡ record self.old { identifiers = changed_at (with_span span) identifier.0 self.old.identifiers } }
    {
        self.identifiers.item_mut(identifier.0 as usize).span = Some(span);
    }

    /// Appends an inner function, the graph of `node`, and answers its id. On `OutOfMemory` an allocation failed: the function is
    /// dropped, and nothing changed.
    pub fn add_function(
        &mut self,
        function: HirFunction<GraphBlocks>,
        node: NodeId,
    ) -> Result<FunctionId, OutOfMemory>
        requires { length self.old.functions < 2 ^ 32 }
        ensures id { IfOk result (λ id. id.0 ≡ length self.old.functions) }
        ensures ok { OnOk result (self.new ≡ record self.old {
          functions = self.old.functions ++ record { node = node; function = function } ∷ [];
        }) }
        ensures err { OnErr result (self.new ≡ self.old) }
    {
        let id = FunctionId(self.functions.len() as u32);
        self.functions.push(InnerFunction { node, function })?;
        Ok(id)
    }

    /// The inner functions that were lowered, indexed by function id.
    pub fn functions(&self) -> &[InnerFunction]
        ensures { result.now ≡ self.now.functions }
    {
        self.functions.as_slice()
    }

    /// Appends the pair of a symbol and its identifier. On `OutOfMemory` an allocation failed, and nothing changed.
    pub fn add_pair(
        &mut self,
        symbol: SymbolId,
        identifier: IdentifierId,
    ) -> Result<(), OutOfMemory>
        ensures ok { OnOk result (self.new ≡ record self.old {
          pairs = self.old.pairs ++ record { symbol = symbol; identifier = identifier } ∷ [];
        }) }
        ensures err { OnErr result (self.new ≡ self.old) }
    {
        self.pairs.push(Pair { symbol, identifier })
    }

    /// Symbols and their identifiers, in the order in which the symbols got them.
    pub fn pairs(&self) -> &[Pair]
        ensures { result.now ≡ self.now.pairs }
    {
        self.pairs.as_slice()
    }

    /// Marks a symbol as hoisted (`addHoistedIdentifier`). On `OutOfMemory` an allocation failed, and nothing changed.
    pub fn add_hoisted_identifier(&mut self, symbol: SymbolId) -> Result<(), OutOfMemory>
        ensures ok { OnOk result (self.new ≡ record self.old { hoisted = added self.old.hoisted symbol }) }
        ensures members { OnOk result ((other : Symbol) → has self.new.hoisted other ≡ (has self.old.hoisted other || nat_eq other.0 symbol.0)) }
        ensures err { OnErr result (self.new ≡ self.old) }
    {
        self.hoisted.insert(symbol)
    }

    /// True if the symbol was marked as hoisted (`isHoistedIdentifier`).
    pub fn is_hoisted_identifier(&self, symbol: SymbolId) -> bool
        ensures { result ≡ has self.now.hoisted symbol }
    {
        self.hoisted.contains(symbol)
    }

    /// Appends the name that a reference gets. On `OutOfMemory` an allocation failed: the name is dropped, and nothing changed.
    pub fn add_rename(&mut self, reference: ReferenceId, name: Text) -> Result<(), OutOfMemory>
        ensures ok { OnOk result (self.new ≡ record self.old {
          renames = self.old.renames ++ record { reference = reference; name = name } ∷ [];
        }) }
        ensures err { OnErr result (self.new ≡ self.old) }
    {
        self.renames.push(Rename { reference, name })
    }

    /// The references that were renamed, in the order in which they were.
    pub fn renames(&self) -> &[Rename]
        ensures { result.now ≡ self.now.renames }
    {
        self.renames.as_slice()
    }

    /// The entities of JSX texts, by their names.
    pub fn entities(&self) -> &EntityTable
        ensures { result.now ≡ self.now.entities }
    {
        &self.entities
    }

    /// Says that the unit is to be left as it is.
    pub fn mark_skip(&mut self)
        ensures { self.new ≡ record self.old { skip = true } }
    {
        self.skip = true;
    }

    /// True if the unit is to be left as it is.
    pub fn skip_compilation(&self) -> bool
        ensures { result ≡ self.now.skip }
    {
        self.skip
    }

    /// Appends a diagnostic, of whatever category (`recordDiagnostic`). On `OutOfMemory` an allocation failed, and
    /// nothing changed.
    pub fn record_diagnostic(&mut self, diagnostic: Diagnostic) -> Result<(), OutOfMemory>
        ensures ok { OnOk result (self.new ≡ record self.old { diagnostics = self.old.diagnostics ++ diagnostic ∷ [] }) }
        ensures err { OnErr result (self.new ≡ self.old) }
    {
        self.diagnostics.push(diagnostic)
    }

    /// Appends a diagnostic, or stops with it where its category is `Invariant` (`recordError`, which throws there). On
    /// `Stop::Diagnostic` and on `Stop::OutOfMemory`, where an allocation failed, nothing changed.
    pub fn record_error(&mut self, diagnostic: Diagnostic) -> Result<(), Stop>
        ensures ok { OnOk result (self.new ≡ record self.old { diagnostics = self.old.diagnostics ++ diagnostic ∷ [] }) }
        ensures err { OnErr result (self.new ≡ self.old) }
        ensures invariant { category_of diagnostic.row ≡ Category.Invariant → result ≡ Err (Stop.Diagnostic diagnostic) }
        ensures other { category_of diagnostic.row ≢ Category.Invariant → IfErr result (λ e. e ≡ Stop.OutOfMemory) }
    {
        if diagnostic.row.category() == Category::Invariant {
            return Err(Stop::Diagnostic(diagnostic));
        }
        self.record_diagnostic(diagnostic)?;
        Ok(())
    }

    /// The diagnostics that were recorded, in the order of the walk.
    pub fn diagnostics(&self) -> &[Diagnostic]
        ensures { result.now ≡ self.now.diagnostics }
    {
        self.diagnostics.as_slice()
    }

    /// The diagnostics that were recorded. All else is dropped.
    pub fn into_diagnostics(self) -> List<Diagnostic>
        ensures { result ≡ self.diagnostics }
    {
        self.diagnostics
    }

    /// The marked function with the inner functions, identifiers and pairs that were kept beside it. All else is
    /// dropped.
    pub fn into_lowered(self, function: HirFunction<GraphBlocks>) -> Lowered
        ensures { result ≡ record { function = function; inner = self.functions; identifiers = self.identifiers; pairs = self.pairs } }
    {
        Lowered {
            function,
            inner: self.functions,
            identifiers: self.identifiers,
            pairs: self.pairs,
        }
    }
}
