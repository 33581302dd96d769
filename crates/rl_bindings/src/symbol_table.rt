//! Lists of symbols with an index by scope and name.

ghost use Rattle.std.specs.Prelude.{◌≡◌, ◌<◌, ◌++◌, ◌∷◌, [], ℕ, Bool, if◌then◌else◌, Some, is_some, length, map, slice_get, MatchOption, IfOk, OnOk, OnErr};
ghost use Rattle.std.specs.BTreeMap.{Updates, IsUnchanged, get};
ghost use Rattle.rl_bindings.specs.Symbols.{add, binding, number_at};
ghost use Rattle.rl_bindings.specs.Symbols as names;
ghost use Rattle.rl_bindings.specs.SymbolTables.{key_cmp, key_of, key_slot, same_key};
ghost use Rattle.rl_base.specs.Slots.{is_key};

use crate::event::{BindKind, Bound};
use rl_base::error::OutOfMemory;
use rl_base::ids::ScopeId;
use rl_base::slots::{Slot, empty_slots, slot_at};
use std::alloc::Global;
use std::collections::BTreeMap;
use std::collections::btree_map::Entry;
use std::marker::Model;

/// A name, a scope, and whether the symbol is an own name.
type SymbolKey = (usize, u32, bool);

/// Symbols with an index by scope and name. A look-up takes a number of comparisons that is at most logarithmic in the number of
/// symbols, and one comparison for most. Contracts see the symbols, each by its first declaration.
#[derive(Drop)]
pub struct SymbolTable {
    symbols: Vec<Bound>,
    /// For each slot, the keys that have it: none, one by its number, or many.
    slots: Vec<Slot>,
    /// The numbers of the keys that share a slot.
    numbers: BTreeMap<SymbolKey, usize>,
}

impl Model for SymbolTable {
    ghost use Rattle.std.specs.Prelude.{List};
    ghost use Rattle.rl_bindings.specs.declared.event.Bound.{Bound};
    ghost use Rattle.rl_bindings.specs.SymbolTables.{IsTable};

    ghost Value = { List Bound };

    ghost view = { λ table. table.symbols.items };

    ghost invariant = { λ table. IsTable table.slots.items table.numbers table.symbols.items };
}

/// True of the own name of a function expression or a class expression.
pub fn is_own(kind: BindKind) -> bool
    ensures { result ≡ names.is_own kind }
{
    match kind {
        BindKind::FunctionExpression => true,
        BindKind::ClassExpression => true,
        _ => false,
    }
}

impl SymbolTable {
    /// No symbols, with room and slots for about `count`. On `OutOfMemory`, an allocation failed.
    #[tactic(auto, using(crate::proofs::SymbolTables::table_empty))]
    pub fn with_slots(alloc: Global, count: usize) -> Result<SymbolTable, OutOfMemory>
        ensures { IfOk result (λ table. table ≡ []) }
    {
        let symbols = Vec::with_capacity(alloc, count)?;
        let slots = empty_slots(alloc, count)?;
        Ok(SymbolTable {
            symbols,
            slots,
            numbers: BTreeMap::new(alloc),
        })
    }

    /// The symbols, by number.
    pub fn as_slice(&self) -> &[Bound]
        ensures { result.now ≡ self.now }
    {
        self.symbols.as_slice()
    }

    /// The number of the symbol that a name is in a scope, as an own name or otherwise. `None` if it is none there.
    pub fn find(&self, own: bool, scope: ScopeId, name: usize) -> Option<usize>
        ensures { result ≡ number_at own scope.0 name self.now }
    {
        let key = (name, scope.0, own);
        match slot_at(self.slots.as_slice(), key_slot(self.slots.len(), key)) {
            Slot::Empty => None,
            Slot::One(number) => {
                if has_key(self.symbols.as_slice(), number, key) {
                    Some(number)
                } else {
                    None
                }
            }
            Slot::Many => self.numbers.get(&key).copied(),
        }
    }

    /// The symbol that a scope binds a name to: one that is no own name, if there is one, else the own name.
    pub fn binding(&self, scope: ScopeId, name: usize) -> Option<usize>
        ensures { result ≡ binding self.now scope.0 name }
    {
        match self.find(false, scope, name) {
            Some(number) => Some(number),
            None => self.find(true, scope, name),
        }
    }

    /// The symbol that the scope of a symbol binds its name to. It takes a look-up only for an own name.
    #[tactic(auto, using(crate::proofs::SymbolTables::binding_first))]
    pub fn binding_of(&self, number: usize, symbol: &Bound) -> Option<usize>
        requires { slice_get self.now number ≡ Some symbol.now }
        ensures { result ≡ binding self.now symbol.now.scope.0 symbol.now.name }
    {
        let _ = &self.numbers;
        if is_own(symbol.kind) {
            self.binding(symbol.scope, symbol.name as usize)
        } else {
            Some(number)
        }
    }

    /// Adds the symbol of a declaration, if its scope has none of its name yet. Otherwise returns the number of the symbol that
    /// the scope has. It takes one look-up. On `OutOfMemory`, an allocation failed, and nothing has changed.
    pub fn add(&mut self, bound: Bound) -> Result<Option<usize>, OutOfMemory>
        ensures known { IfOk result (λ known. known ≡ number_at (names.is_own bound.kind) bound.scope.0 bound.name self.old) }
        ensures added { OnOk result (self.new ≡ add self.old bound) }
        ensures err { OnErr result (self.new ≡ self.old) }
    {
        let key = key_of(&bound);
        let index = key_slot(self.slots.len(), key);
        match slot_at(self.slots.as_slice(), index) {
            Slot::Empty => {
                let number = self.symbols.len();
                self.symbols.push(bound)?;
                self.slots[index] = Slot::One(number);
                Ok(None)
            }
            Slot::One(other) => {
                if has_key(self.symbols.as_slice(), other, key) {
                    return Ok(Some(other));
                }
                add_other(self.symbols.as_slice(), &mut self.numbers, other)?;
                self.slots[index] = Slot::Many;
                add_among(&mut self.symbols, &mut self.numbers, bound)
            }
            Slot::Many => add_among(&mut self.symbols, &mut self.numbers, bound),
        }
    }
}

/// The key of a declaration.
fn key_of(bound: &Bound) -> SymbolKey
    ensures { result ≡ key_of bound.now }
{
    (bound.name as usize, bound.scope.0, is_own(bound.kind))
}

/// The slot of a key among `count` slots. 0 if there are none.
fn key_slot(count: usize, key: SymbolKey) -> usize
    ensures { result ≡ key_slot count key }
{
    if count == 0 {
        return 0;
    }
    (key.0 % 4_294_967_296 + key.1 as usize * 2_654_435_761) % count
}

/// True of two keys that are one.
fn is_same_key(first: SymbolKey, second: SymbolKey) -> bool
    ensures { result ≡ same_key first second }
{
    first.0 == second.0 && first.1 == second.1 && first.2 == second.2
}

/// True if the symbol at an index has this key.
fn has_key(symbols: &[Bound], index: usize, key: SymbolKey) -> bool
    ensures { result ≡ is_key same_key (slice_get (map key_of symbols.now) index) key }
{
    match symbols.get(index) {
        Some(symbol) => is_same_key(key_of(symbol), key),
        None => false,
    }
}

/// Gives the map the index of the symbol there, whose key it does not have. On `OutOfMemory`, an allocation failed, and nothing
/// has changed.
fn add_other(
    symbols: &[Bound],
    numbers: &mut BTreeMap<SymbolKey, usize>,
    index: usize,
) -> Result<(), OutOfMemory>
    requires within { index < length symbols.now }
    ensures added { OnOk result ((key : ℕ × ℕ × Bool) → get key_cmp numbers.new key ≡ (if is_key same_key (slice_get (map key_of symbols.now) index) key then Some index else get key_cmp numbers.old key)) }
    ensures err { OnErr result (IsUnchanged numbers.old numbers.new) }
{
    numbers.insert(key_of(&symbols[index]), index)?;
    Ok(())
}

/// Appends the symbol of a declaration and gives its index to the map, unless the map has its key. Otherwise returns the number
/// that the map has. On `OutOfMemory`, an allocation failed, and nothing has changed.
fn add_among(
    symbols: &mut Vec<Bound>,
    numbers: &mut BTreeMap<SymbolKey, usize>,
    bound: Bound,
) -> Result<Option<usize>, OutOfMemory>
    ensures known { IfOk result (λ known. known ≡ get key_cmp numbers.old (key_of bound)) }
    ensures symbols { IfOk result (λ known. symbols.new.items ≡ (if is_some known then symbols.old.items else symbols.old.items ++ bound ∷ [])) }
    ensures changed { IfOk result (λ known. MatchOption known (Updates key_cmp numbers.old numbers.new (key_of bound) (Some (length symbols.old.items))) (λ _. IsUnchanged numbers.old numbers.new)) }
    ensures err_symbols { OnErr result (symbols.new.items ≡ symbols.old.items) }
    ensures err { OnErr result (IsUnchanged numbers.old numbers.new) }
{
    let number = symbols.len();
    // With room for the symbol, nothing fails once its number is in the index.
    symbols.reserve(1)?;
    match find_or_insert(numbers, key_of(&bound), number)? {
        Some(known) => Ok(Some(known)),
        None => {
            symbols.push(bound)?;
            Ok(None)
        }
    }
}

/// The number of a key. A key without one gets `number`, and the result is `None`. On `OutOfMemory`, an allocation failed, and
/// nothing has changed.
fn find_or_insert(
    numbers: &mut BTreeMap<SymbolKey, usize>,
    key: SymbolKey,
    number: usize,
) -> Result<Option<usize>, OutOfMemory>
    ensures known { IfOk result (λ known. known ≡ get key_cmp numbers.old key) }
    ensures changed { IfOk result (λ known. MatchOption known (Updates key_cmp numbers.old numbers.new key (Some number)) (λ _. IsUnchanged numbers.old numbers.new)) }
    ensures err { OnErr result (IsUnchanged numbers.old numbers.new) }
{
    match numbers.entry(key)? {
        Entry::Vacant(entry) => {
            entry.insert(number);
            Ok(None)
        }
        Entry::Occupied(entry) => Ok(Some(*entry.get())),
    }
}
