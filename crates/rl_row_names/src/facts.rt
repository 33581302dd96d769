//! Properties of names that rows ask for.

ghost use Rattle.std.specs.Prelude.{◌≡◌};
ghost use Rattle.rl_model.specs.Applied.{Facts};
ghost use Rattle.rl_model.specs.Code.{declared_by, local_of};

use rl_base::ids::{NodeId, ReferenceId, SymbolId};
use rl_base::text::Text;

/// Properties of the names of a unit that rows ask for. No method allocates.
pub trait RowFacts {
    /// The properties.
    ghost facts: { Self → Facts };

    /// The local variable that an `id` node stands for, by the number and the name of its reference. `None` of any other name.
    fn local(&self, reference: ReferenceId, name: &Text) -> Option<SymbolId>
        ensures { declared_by result ≡ local_of ((facts self.now).names.meaning reference.0 name.now) };

    /// True of a local variable that is declared as a constant.
    fn is_const(&self, symbol: SymbolId) -> bool
        ensures { result ≡ (facts self.now).is_const symbol.0 };

    /// True of a symbol that is a context identifier where the node stands.
    fn is_context(&self, node: NodeId, symbol: SymbolId) -> bool
        ensures { result ≡ (facts self.now).is_context node.0 symbol.0 };

    /// True of a reference that resolves to no symbol, or to an alias, an enum or a namespace.
    fn is_global(&self, reference: ReferenceId) -> bool
        ensures { result ≡ (facts self.now).is_global reference.0 };

    /// True of a `bind` node that declares a variable: a name in a pattern, or that of a function declaration.
    fn is_variable(&self, bind: NodeId) -> bool
        ensures { result ≡ (facts self.now).is_variable bind.0 };

    /// True of a `bind` node of a constant that is a context identifier and that no marker hoists.
    fn is_lost(&self, bind: NodeId) -> bool
        ensures { result ≡ (facts self.now).is_lost bind.0 };

    /// True of a name that a scope of the marked function binds.
    fn is_bound(&self, name: &Text) -> bool
        ensures { result ≡ (facts self.now).is_bound name.now };

    /// True of a reference to a variable that is not below the program's scope.
    fn is_module(&self, reference: ReferenceId) -> bool
        ensures { result ≡ (facts self.now).is_module reference.0 };

    /// True of an inner function in a dead part of its function.
    fn is_dead(&self, node: NodeId) -> bool
        ensures { result ≡ (facts self.now).is_dead node.0 };
}
