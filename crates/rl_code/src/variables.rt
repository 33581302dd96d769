//! The variables that names stand for, by number.

ghost use Rattle.std.specs.Prelude.{◌≡◌, ℕ, ◌++◌, List, slice_get, OnOk};
ghost use Rattle.rl_model.specs.Code as code;
ghost use Rattle.rl_names.specs.Names as spec;
ghost use Rattle.rl_names.specs.Seen.{seen};
ghost use Rattle.rl_resolver.specs.Lookups.{symbol_scope};

use rl_ast::binding::BindingIdentifier;
use rl_base::error::OutOfMemory;
use rl_base::ids::{NodeId, ReferenceId, ScopeId, SymbolId};
use rl_base::text::Text;
use rl_bindings::event::{BindKind, Bound};
use rl_names::names::FunctionNames;
use rl_syntax::numbered::At;

/// The names of a unit in the lowering of its marked function, and a text for look-ups that ask for a text and do not read it.
#[derive(Clone, Copy)]
pub struct Variables<'s> {
    /// The names.
    pub names: FunctionNames<'s>,
    /// Any text.
    pub text: &'s Text,
}

/// True of a node that is the one with these ids, or stands inside it.
fn is_inside(at: At, node: NodeId) -> bool
    ensures { result ≡ spec.is_inside at node }
{
    at.id.0 <= node.0 && node.0 < at.end.0
}

/// True of a declaration of a variable.
fn is_variable(kind: BindKind) -> bool
    ensures { result ≡ spec.is_variable kind }
{
    match kind {
        BindKind::TypeAlias => false,
        BindKind::Enum => false,
        BindKind::Namespace => false,
        _ => true,
    }
}

impl Variables<'_> {
    /// The first declaration of a symbol. `None` for a number that is no symbol's.
    fn first_declaration(&self, symbol: SymbolId) -> Option<Bound>
        ensures { result ≡ slice_get self.now.names.resolver.now.semantic.now.bindings.symbols symbol.0 }
    {
        self.names
            .resolver
            .semantic
            .bindings
            .symbols
            .as_slice()
            .get(symbol.0 as usize)
            .copied()
    }

    /// True of a scope that the marked function makes, or a node inside it.
    fn is_scope_inside(&self, scope: ScopeId) -> bool
        ensures { result ≡ spec.is_scope_inside self.now.names.function self.now.names.resolver.now.semantic.now.bindings.scopes scope.0 }
    {
        match self
            .names
            .resolver
            .semantic
            .bindings
            .scopes
            .get(scope.0 as usize)
        {
            Some(entry) => is_inside(self.names.function, entry.node),
            None => false,
        }
    }

    /// True of a local variable of the marked function.
    fn is_local(&self, symbol: SymbolId) -> bool
        ensures { result ≡ spec.is_local self.now.names.function self.now.names.resolver.now.semantic.now.bindings.scopes self.now.names.resolver.now.semantic.now.bindings.symbols symbol.0 }
    {
        match self.first_declaration(symbol) {
            Some(bound) => {
                is_variable(bound.kind)
                    && self.is_scope_inside(self.names.resolver.symbol_scope(symbol))
            }
            None => false,
        }
    }

    /// The local variable that a reference stands for. `None` of any other name.
    #[tactic(auto, using(crate::proofs::Locals::locals))]
    pub fn local(&self, reference: ReferenceId) -> Option<SymbolId>
        ensures { (name : List ℕ) → code.declared_by result ≡ code.local_of ((seen self.now.names).meaning reference.0 name) }
    {
        match self.names.resolver.symbol_of_reference(reference) {
            Some(symbol) => {
                if self.is_local(symbol) {
                    Some(symbol)
                } else {
                    None
                }
            }
            None => None,
        }
    }

    /// The symbol that a `bind` node declares. `None` of any other node.
    pub fn declared(&self, at: At) -> Option<SymbolId>
        ensures { result ≡ (seen self.now.names).declared at.id.0 }
    {
        self.names.declared(&BindingIdentifier {
            at,
            name: self.text,
            annotation: None,
        })
    }

    /// Appends the local variable that a reference of a name stands for. On `OutOfMemory`, an allocation failed.
    pub fn push_local(
        &self,
        out: &mut Vec<u32>,
        reference: ReferenceId,
        name: &Text,
    ) -> Result<(), OutOfMemory>
        ensures { OnOk result (out.new.items ≡ out.old.items ++ code.local_of ((seen self.now.names).meaning reference.0 name.now)) }
    {
        // a local variable does not depend on the name, which the clause asks for
        let _name = name;
        push_symbol(out, self.local(reference))?;
        Ok(())
    }

    /// Appends the symbol that a `bind` node declares. On `OutOfMemory`, an allocation failed.
    pub fn push_declared(&self, out: &mut Vec<u32>, at: At) -> Result<(), OutOfMemory>
        ensures { OnOk result (out.new.items ≡ out.old.items ++ code.declared_by ((seen self.now.names).declared at.id.0)) }
    {
        push_symbol(out, self.declared(at))?;
        Ok(())
    }
}

/// Appends the number of a symbol, if there is one. On `OutOfMemory`, an allocation failed.
fn push_symbol(out: &mut Vec<u32>, symbol: Option<SymbolId>) -> Result<(), OutOfMemory>
    ensures { OnOk result (out.new.items ≡ out.old.items ++ code.declared_by symbol) }
{
    match symbol {
        Some(symbol) => {
            out.push(symbol.0)?;
            Ok(())
        }
        None => Ok(()),
    }
}
