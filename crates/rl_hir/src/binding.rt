//! The variables and other bindings that names resolve to.

use rl_base::ids::IdentifierId;
use rl_base::text::Text;

/// The kind of a variable's first declaration: that of the resolver by its name.
#[derive(Clone, Copy, Debug, PartialEq, Eq)]
pub enum BindingKind {
    /// A variable of `var`.
    Var,
    /// A variable of `let`, or a `catch` parameter.
    Let,
    /// A variable of `const`, `using` or `await using`.
    Const,
    /// A parameter.
    Param,
    /// An import.
    Module,
    /// A function declaration.
    Hoisted,
    /// A function expression's own name, a class, a type alias, an enum or a namespace.
    Local,
    /// An interface.
    Unknown,
}

/// The binding that a name resolves to (`VariableBinding` of the compiler). All but the first are those of `NonLocalBinding`.
#[derive(Drop)]
pub enum VariableBinding {
    /// A variable of the function to lower, or of a function in it.
    Identifier {
        identifier: IdentifierId,
        binding_kind: BindingKind,
    },
    /// A name that nothing in the module declares.
    Global {
        name: Text,
    },
    /// An import of the default export of `module`.
    ImportDefault {
        name: Text,
        module: Text,
    },
    /// An import of the export `imported` of `module`.
    ImportSpecifier {
        name: Text,
        module: Text,
        imported: Text,
    },
    /// An import of all exports of `module`, as one object.
    ImportNamespace {
        name: Text,
        module: Text,
    },
    /// A declaration of the module, at its top level, that is no import.
    ModuleLocal {
        name: Text,
    },
}
