//! Function declarations whose name is also that of another symbol around them.

ghost use Rattle.std.specs.Prelude.{◌≡◌, IfOk, map, option_map};
ghost use Rattle.std.specs.Char.{is_digit};
ghost use Rattle.std.specs.List.{list_all};
ghost use Rattle.std.specs.Str.{bytes_eq};
ghost use Rattle.rl_model.specs.Facts as facts;
ghost use Rattle.rl_model.specs.Orderly as orderly;
ghost use Rattle.rl_names.specs.Seen.{seen};
ghost use Rattle.rl_shadowed.specs.Shadowed as spec;
ghost use Rattle.rl_resolver.specs.Around.{ancestors};
ghost use Rattle.rl_resolver.specs.Lookups.{name_text};
ghost use Rattle.rl_syntax.specs.Syntax.{pieces_of, syntax};

use rl_base::error::OutOfMemory;
use rl_base::ids::{ScopeId, SymbolId};
use rl_base::text::Text;
use rl_bindings::bindings::Bindings;
use rl_bindings::event::Bound;
use rl_code::parts::{as_text, declared_name};
use rl_code::variables::Variables;
use rl_resolver::resolver::ScopeResolver;
use rl_syntax::numbered::{At, Numbered};
use rl_syntax::parts::split_first;
use rl_syntax::word::Word;
use std::alloc::Global;

/// The scopes around a scope, itself first. On `OutOfMemory`, an allocation failed.
pub fn scopes_around(
    alloc: Global,
    resolver: &ScopeResolver<'_>,
    scope: ScopeId,
) -> Result<Vec<ScopeId>, OutOfMemory>
    ensures { IfOk result (λ found. found.items ≡ ancestors resolver.now.semantic.now.bindings.scopes scope) }
{
    let mut found = Vec::new(alloc);
    let mut scopes = resolver.ancestors(scope);
    'scopes: while let Some(next) = scopes.next() {
        found.push(next)?;
    }
    Ok(found)
}

/// True of digits alone.
fn are_digits(bytes: &[u8]) -> bool
    ensures { result ≡ list_all (λ digit. is_digit digit 10) bytes.now }
{
    'bytes: for byte in bytes {
        if !byte.is_ascii_digit() {
            return false;
        }
    }
    true
}

/// True of no bytes.
fn is_none(bytes: &[u8]) -> bool
    ensures { result ≡ facts.is_none bytes.now }
{
    match bytes {
        [] => true,
        [_first, _rest @ ..] => false,
    }
}

/// True of `_` and digits behind it.
fn is_suffix(bytes: &[u8]) -> bool
    ensures { result ≡ facts.is_suffix bytes.now }
{
    match bytes {
        [] => false,
        [first, rest @ ..] => *first == 95 && !is_none(rest) && are_digits(rest),
    }
}

/// As `is_suffix`, by the opaque word.
#[tactic(auto, unfolding(crate::specs::Shadowed::is_ending))]
fn is_ending(bytes: &[u8]) -> bool
    ensures { result ≡ spec.is_ending bytes.now }
{
    is_suffix(bytes)
}

/// As `stem`, by the opaque word.
#[tactic(auto, using(crate::proofs::Stems::stems))]
fn stem_of(name: &[u8]) -> &[u8]
    ensures { result.now ≡ spec.stem_of name.now }
{
    'bytes: for index in 0..name.len() {
        if is_ending(&name[index..]) {
            return &name[..index];
        }
    }
    name
}

/// A name less an ending `_` and digits.
#[tactic(auto, unfolding(crate::specs::Shadowed::stem_of))]
fn stem(name: &[u8]) -> &[u8]
    ensures { result.now ≡ facts.stem name.now }
{
    stem_of(name)
}

/// Ids and name of a `bind` node, by its parts. `None` of any other node.
#[tactic(auto, using(crate::proofs::Shadowing::bind_parts))]
fn bind_as(at: At, word: Word, parts: &[Numbered]) -> Option<(At, &Text)>
    ensures { option_map (λ p. (p.0, p.1.now)) result ≡ spec.bind_as at word (pieces_of (map syntax parts.now)) }
{
    match word {
        Word::Bind => match split_first(parts) {
            Some((name, _type)) => match as_text(name) {
                Some(name) => Some((at, name)),
                None => None,
            },
            None => None,
        },
        _ => None,
    }
}

/// Ids and name of a `bind` node. `None` of any other tree.
#[tactic(auto, using(crate::proofs::Shadowing::bind_form))]
fn bind_of(name: &Numbered) -> Option<(At, &Text)>
    ensures { option_map (λ p. (p.0, p.1.now)) result ≡ spec.bind_of (syntax name.now) }
{
    match name {
        Numbered::Node(at, word, parts) => bind_as(*at, *word, parts.as_slice()),
        Numbered::List(_) => None,
        Numbered::Text(_) => None,
        Numbered::Number(_) => None,
        Numbered::Flag(_) => None,
        Numbered::Absent => None,
    }
}

/// Ids and name of the `bind` node of a function declaration, by the declaration's parts. `None` of any other node.
#[tactic(auto, using(crate::proofs::Shadowing::bind_name))]
fn declared_bind(word: Word, parts: &[Numbered]) -> Option<(At, &Text)>
    ensures { option_map (λ p. (p.0, p.1.now)) result ≡ spec.declared_bind word (pieces_of (map syntax parts.now)) }
{
    match declared_name(word, parts) {
        Some(name) => bind_of(name),
        None => None,
    }
}

/// True of one of some scopes.
fn is_among(scopes: &[ScopeId], scope: ScopeId) -> bool
    ensures { result ≡ spec.is_among scopes.now scope }
{
    'scopes: for other in scopes {
        if other.0 == scope.0 {
            return true;
        }
    }
    false
}

/// True of a symbol's number that is the one of `own`.
fn is_same(number: usize, own: Option<SymbolId>) -> bool
    ensures { result ≡ facts.is_same number own }
{
    match own {
        Some(own) => own.0 as usize == number,
        None => false,
    }
}

/// True of the number of a name that reads so.
fn is_text(bindings: &Bindings, number: u32, text: &[u8]) -> bool
    ensures { result ≡ bytes_eq (name_text bindings.now.names number) text.now }
{
    match bindings.names.as_slice().get(number as usize) {
        Some(name) => name.text.as_bytes() == text,
        None => "".as_bytes() == text,
    }
}

/// True of a declaration of one of two names.
fn has_either(bindings: &Bindings, name: &[u8], other: &[u8], first: &Bound) -> bool
    ensures { result ≡ spec.has_either bindings.now.names name.now other.now first.now }
{
    is_text(bindings, first.name, name) || is_text(bindings, first.name, other)
}

/// True of a declaration of one of two names in one of some scopes.
fn takes_either(
    bindings: &Bindings,
    scopes: &[ScopeId],
    name: &[u8],
    other: &[u8],
    first: &Bound,
) -> bool
    ensures { result ≡ spec.takes_either bindings.now.names scopes.now name.now other.now first.now }
{
    has_either(bindings, name, other, first) && is_among(scopes, first.scope)
}

/// As `takes_either`, of the symbol with this number, if it is not `own`.
fn is_taking(
    bindings: &Bindings,
    own: Option<SymbolId>,
    scopes: &[ScopeId],
    name: &[u8],
    other: &[u8],
    number: usize,
    first: &Bound,
) -> bool
    ensures { result ≡ spec.is_taking bindings.now.names own scopes.now name.now other.now number first.now }
{
    !is_same(number, own) && takes_either(bindings, scopes, name, other, first)
}

/// True if a symbol, `own` aside, has one of two names in one of some scopes.
#[tactic(auto, using(crate::proofs::Shadowing::taken_on))]
fn is_taken(
    bindings: &Bindings,
    own: Option<SymbolId>,
    scopes: &[ScopeId],
    name: &[u8],
    other: &[u8],
) -> bool
    ensures { result ≡ spec.is_taken_by bindings.now.names own scopes.now name.now other.now 0 bindings.now.symbols }
{
    'symbols: for (number, first) in bindings.symbols.as_slice().iter().enumerate() {
        if is_taking(bindings, own, scopes, name, other, number, first) {
            return true;
        }
    }
    false
}

/// True of the name that a `bind` node says in the scope `around`, if the name or its stem is also that of another symbol of this scope
/// or of a scope around it. On `OutOfMemory`, an allocation failed.
fn is_taken_around(
    alloc: Global,
    variables: &Variables<'_>,
    around: ScopeId,
    bind: At,
    name: &[u8],
) -> Result<bool, OutOfMemory>
    ensures { IfOk result (λ b. b ≡ spec.is_taken_by variables.now.names.resolver.now.semantic.now.bindings.names ((seen variables.now.names).declared bind.id.0) (ancestors variables.now.names.resolver.now.semantic.now.bindings.scopes around) name.now (facts.stem name.now) 0 variables.now.names.resolver.now.semantic.now.bindings.symbols) }
{
    let resolver = variables.names.resolver;
    let scopes = scopes_around(alloc, resolver, around)?;
    let own = variables.declared(bind);
    let bindings = &resolver.semantic.bindings;
    Ok(is_taken(bindings, own, scopes.as_slice(), name, stem(name)))
}

/// True of a function declaration whose name, or the name less an ending `_` and digits, is also that of another symbol of its own scope
/// or of a scope around it. On `OutOfMemory`, an allocation failed.
#[tactic(auto, using(crate::proofs::Shadowing::shadowed))]
fn is_shadowed_as(
    alloc: Global,
    variables: &Variables<'_>,
    at: At,
    word: Word,
    parts: &[Numbered],
) -> Result<bool, OutOfMemory>
    ensures { IfOk result (λ b. b ≡ spec.shadowed_as variables.now.names.resolver.now.semantic.now.bindings.names variables.now.names.resolver.now.semantic.now.bindings.scopes variables.now.names.resolver.now.semantic.now.bindings.symbols (seen variables.now.names) at (spec.declared_bind word (pieces_of (map syntax parts.now)))) }
{
    match declared_bind(word, parts) {
        Some((bind, name)) => {
            let result = is_taken_around(alloc, variables, at.scope, bind, name.as_bytes())?;
            Ok(result)
        }
        None => Ok(false),
    }
}

/// As `is_shadowed_as`, of a tree. On `OutOfMemory`, an allocation failed.
#[tactic(auto, using(crate::proofs::Shadowing::shadowed_form))]
fn is_shadowed(
    alloc: Global,
    variables: &Variables<'_>,
    node: &Numbered,
) -> Result<bool, OutOfMemory>
    ensures { IfOk result (λ b. b ≡ spec.is_shadowed_by variables.now.names.resolver.now.semantic.now.bindings.names variables.now.names.resolver.now.semantic.now.bindings.scopes variables.now.names.resolver.now.semantic.now.bindings.symbols (seen variables.now.names) (syntax node.now)) }
{
    match node {
        Numbered::Node(at, word, parts) => {
            let result = is_shadowed_as(alloc, variables, *at, *word, parts.as_slice())?;
            Ok(result)
        }
        Numbered::List(_) => Ok(false),
        Numbered::Text(_) => Ok(false),
        Numbered::Number(_) => Ok(false),
        Numbered::Flag(_) => Ok(false),
        Numbered::Absent => Ok(false),
    }
}

/// True of a node that is no function declaration with the name, or the stem of the name, of another symbol around it. On
/// `OutOfMemory`, an allocation failed.
#[tactic(auto, using(crate::proofs::Shadowing::names))]
fn is_orderly_name(
    alloc: Global,
    variables: &Variables<'_>,
    node: &Numbered,
) -> Result<bool, OutOfMemory>
    ensures { IfOk result (λ b. b ≡ orderly.is_orderly_name (spec.is_shadowed_by variables.now.names.resolver.now.semantic.now.bindings.names variables.now.names.resolver.now.semantic.now.bindings.scopes variables.now.names.resolver.now.semantic.now.bindings.symbols (seen variables.now.names)) (syntax node.now)) }
{
    let result = is_shadowed(alloc, variables, node)?;
    Ok(!result)
}

/// True if no function declaration among some nodes has the name, or the stem of the name, of another symbol around it. It takes time
/// that is linear in the symbols for each function declaration. On `OutOfMemory`, an allocation failed.
pub fn are_orderly_names(
    alloc: Global,
    variables: &Variables<'_>,
    nodes: &[&Numbered],
) -> Result<bool, OutOfMemory>
    ensures { IfOk result (λ b. b ≡ list_all (orderly.is_orderly_name (spec.is_shadowed_by variables.now.names.resolver.now.semantic.now.bindings.names variables.now.names.resolver.now.semantic.now.bindings.scopes variables.now.names.resolver.now.semantic.now.bindings.symbols (seen variables.now.names))) (map (λ t. syntax t.now) nodes.now)) }
{
    'nodes: for node in nodes {
        if !is_orderly_name(alloc, variables, node)? {
            return Ok(false);
        }
    }
    Ok(true)
}
