//! Scope analysis of a unit, after `oxc_semantic` and the compiler's scope resolver: the public names of the crates that it is
//! made of. Semantic tables stand in `rl_semantic`, look-ups in `rl_resolver`, and the identifiers of a function in `rl_context`.
//! The types that the calls take and return are here too, and those of their public fields. `UnitBindings` is `Bindings` of
//! `rl_bindings`, the tables of a unit's names; `Bindings` here is the iterator over the symbols of a scope.
#![tactic(auto)]

pub use rl_ast::binding::{BindingIdentifier, IdentifierReference};
pub use rl_ast::function::Arrow;
pub use rl_ast::function_node::{Function, FunctionForm, FunctionNode};
pub use rl_ast::unit::{Unit, UnitNode};
pub use rl_base::diagnostic::Diagnostic;
pub use rl_base::error::OutOfMemory;
pub use rl_base::ids::{NodeId, ReferenceId, ScopeId, SymbolId};
pub use rl_base::list::List;
pub use rl_base::name_table::NameTable;
pub use rl_base::row::{Category, Row};
pub use rl_base::span::Span;
pub use rl_base::stop::Stop;
pub use rl_base::text::Text;
pub use rl_bindings::bindings::Bindings as UnitBindings;
pub use rl_bindings::event::{BindKind, Bound, Place, ScopeEntry, ScopeKind};
pub use rl_bindings::names::Name;
pub use rl_bindings::resolve::{Declaration, Reference};
pub use rl_bindings::symbol_kind::{BindingKind, DeclKind};
pub use rl_bindings::symbol_table::SymbolTable;
pub use rl_context::context::find_context_identifiers;
pub use rl_context::index::IdentifierLocIndex;
pub use rl_context::site::{IdentEntry, NodeRange, ReferenceSite, Site, WrappedSite, Wrapper};
pub use rl_grammar::sort::{
    ArrowBodyTree, BindingIdentifierTree, EntityTrees, FormalParametersTree, FunctionBodyTree,
    ProgramTree, TypeAnnotationTree,
};
pub use rl_resolver::iterators::{
    Ancestors, Bindings, ContainingFunctionScopes, FunctionScopes, Symbols,
};
pub use rl_resolver::resolver::ScopeResolver;
pub use rl_semantic::imports::{ImportBindingData, ImportBindingKind, ImportEntry};
pub use rl_semantic::semantic::{RuleError, Semantic};
pub use rl_syntax::nodes::NodeEntry;
pub use rl_syntax::numbered::{At, Numbered};
pub use rl_syntax::word::Word;
