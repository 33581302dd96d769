//! Kinds of variable declarations.

ghost use Rattle.rl_base.specs.VariableKinds.{variable_text, variable_kinds};
ghost use Rattle.rl_base.specs.FoundKinds.{variable_kinds_found};

use crate::closed_text::ClosedText;

/// The kind of a declaration of variables: `VariableDeclarationKind` of oxc_ast, and sections 14.3.1 and 14.3.2 of ECMA-262,
/// with the declarations of Explicit Resource Management.
#[derive(Clone, Copy, Debug, PartialEq, Eq)]
pub enum VariableKind {
    /// `var`: the variables are those of the function around it.
    Var,
    /// `let`: the variables are those of the block around it, and may be assigned.
    Let,
    /// `const`: the variables are those of the block around it, and are never assigned.
    Const,
    /// `using`: as `Const`; each value is disposed of at the end of the block.
    Using,
    /// `await using`: as `Using`; the end of the block waits until the values are disposed of.
    AwaitUsing,
}

/// Every `VariableKind`, in the order of the declaration.
const VARIABLE_KINDS: [VariableKind; 5] = [
    VariableKind::Var,
    VariableKind::Let,
    VariableKind::Const,
    VariableKind::Using,
    VariableKind::AwaitUsing,
];

impl ClosedText for VariableKind {
    ghost text = { variable_text };

    ghost values = { variable_kinds };

    ghost complete = { variable_kinds_found };

    fn as_str(self) -> &'static str {
        match self {
            VariableKind::Var => "var",
            VariableKind::Let => "let",
            VariableKind::Const => "const",
            VariableKind::Using => "using",
            VariableKind::AwaitUsing => "await using",
        }
    }

    fn every() -> &'static [VariableKind] {
        &VARIABLE_KINDS
    }
}
