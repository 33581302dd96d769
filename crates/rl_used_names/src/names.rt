//! Identifiers of symbols, and their names (the maps `bindings` and `usedNames` of `HIRBuilder`).

ghost use Rattle.std.specs.Prelude.{◌≡◌, ◌+◌, ◌^◌, ◌<◌, ◌∷◌, ◌++◌, [], ℕ, None, Some, OnOk, OnErr, IfOk, if◌then◌else◌, get_or, length, map, max, nat_eq, slice_get};
ghost use Rattle.std.specs.Option.{option_map, option_map_or};
ghost use Rattle.rl_hir.specs.Pairs.{identifier_of};
ghost use Rattle.rl_used_names.specs.Choosing.{with_user, is_free, chosen, IsFree, IsFirstFree, AllTaken};
ghost use Rattle.rl_used_names.specs.IdentifierNames.{name_of, is_named, is_fbt, fbt_diagnostic, reserved_diagnostic};
ghost use Rattle.rl_used_names.specs.Merged.{with_missing_name, merged_names, with_missing_pair, merged_bindings};
ghost use Rattle.rl_used_names.specs.NameSearch.{name_at, AreEntries, KeepsSearched, KeepsTried};
ghost use Rattle.rl_used_names.specs.UsedName.{used_name_of, candidate};

use indexmap::{IndexMap, IndexSet};
use rl_base::diagnostic::Diagnostic;
use rl_base::error::OutOfMemory;
use rl_base::ids::{IdentifierId, SymbolId};
use rl_base::name_table::{NameTable, Named};
use rl_base::row::Row;
use rl_base::span::Span;
use rl_base::text::Text;
use rl_hir::block_sets::IdHasher;
use rl_hir::function::{Identifier, IdentifierName, Pair};
use std::alloc::Global;
use std::hash::BuildHasherDefault;
use std::marker::Model;

/// A map from symbols to their identifiers. Contracts see its pairs, in the order in which symbols got their identifiers.
#[derive(Drop)]
pub struct Bindings {
    identifiers: IndexMap<SymbolId, IdentifierId, BuildHasherDefault<IdHasher>>,
}

impl Model for Bindings {
    ghost use Rattle.std.specs.Prelude.{List, map};
    ghost use Rattle.rl_hir.specs.declared.function.Pair.{Pair};
    ghost use Rattle.rl_used_names.specs.UsedName.{pair_of};

    ghost Value = { List Pair };

    ghost view = { λ bindings. map pair_of bindings.identifiers.entries };
}

impl Bindings {
    /// The empty map. It allocates nothing.
    pub fn new(alloc: Global) -> Bindings
        ensures { result ≡ [] }
    {
        Bindings {
            identifiers: IndexMap::with_hasher(alloc, BuildHasherDefault::new()),
        }
    }

    /// The empty map, with room for `pairs` pairs. On `OutOfMemory` an allocation failed, or no memory has room for so many.
    pub fn with_room(alloc: Global, pairs: usize) -> Result<Bindings, OutOfMemory>
        ensures { IfOk result (λ bindings. bindings ≡ []) }
    {
        let identifiers = IndexMap::with_capacity_and_hasher(
            alloc,
            pairs,
            BuildHasherDefault::new(),
        )?;
        Ok(Bindings { identifiers })
    }

    /// A copy in memory of its own. On `OutOfMemory` an allocation failed.
    #[tactic(auto, using(crate::proofs::NameEntries::pairs_cloned))]
    pub fn copy(&self) -> Result<Bindings, OutOfMemory>
        ensures { IfOk result (λ copy. copy ≡ self.now) }
    {
        let identifiers = self.identifiers.clone()?;
        Ok(Bindings { identifiers })
    }

    /// The identifier of a symbol, or `None` where it has none.
    pub fn get(&self, symbol: SymbolId) -> Option<IdentifierId>
        ensures { option_map (λ identifier. identifier.0) result ≡ identifier_of self.now symbol.0 }
    {
        self.identifiers.get(&symbol).copied()
    }

    /// Number of pairs.
    pub fn len(&self) -> usize
        ensures { result ≡ length self.now }
    {
        self.identifiers.len()
    }

    /// The pair at an index, in the order in which symbols got their identifiers. `None` past the end.
    pub fn pair_at(&self, index: usize) -> Option<Pair>
        ensures { result ≡ slice_get self.now index }
    {
        match self.identifiers.get_index(index) {
            Some((symbol, identifier)) => Some(Pair {
                symbol: *symbol,
                identifier: *identifier,
            }),
            None => None,
        }
    }

    /// Gives a symbol that has no identifier its own. On `OutOfMemory` an allocation failed, and the entries are unspecified.
    pub fn insert(&mut self, symbol: SymbolId, identifier: IdentifierId) -> Result<(), OutOfMemory>
        requires { identifier_of self.old symbol.0 ≡ None }
        ensures { OnOk result (self.new ≡ self.old ++ record { symbol = symbol; identifier = identifier } ∷ []) }
    {
        self.identifiers.insert(symbol, identifier)?;
        Ok(())
    }

    /// Gives the symbol of a pair its identifier, unless it has one. On `OutOfMemory` an allocation failed.
    fn insert_missing(&mut self, pair: Option<Pair>) -> Result<(), OutOfMemory>
        ensures { OnOk result (self.new ≡ option_map_or (λ p. with_missing_pair self.old p) pair self.old) }
    {
        let Some(pair) = pair else {
            return Ok(());
        };
        if self.get(pair.symbol).is_some() {
            return Ok(());
        }
        self.insert(pair.symbol, pair.identifier)
    }

    /// Adds the pairs of symbols that have no identifier yet, in the order of `child`. On `OutOfMemory` an allocation failed, and
    /// the entries are unspecified.
    pub fn merge(&mut self, child: &Bindings) -> Result<(), OutOfMemory>
        ensures { OnOk result (self.new ≡ merged_bindings self.old child.now) }
    {
        for index in 0..child.len() {
            self.insert_missing(child.pair_at(index))?;
        }
        Ok(())
    }
}

/// A name of identifiers, and the symbol that has it.
#[derive(Drop)]
pub struct NameUser {
    /// The name.
    pub name: Text,
    /// The id of the symbol.
    pub symbol: SymbolId,
}

impl Named for NameUser {
    ghost name = { λ user. user.name };

    fn name(&self) -> &str {
        self.name.as_str()
    }
}

/// A map from the names of identifiers to the symbols that have them. Contracts see its entries, in the order in which the
/// names came. A search for a free candidate of a name goes on from the end of the last search for that name.
#[derive(Drop)]
pub struct UsedNames {
    users: NameTable<NameUser>,
    /// For the index of an entry, a number: the candidates of its name that end in smaller numbers are used. Past the end it
    /// is 0.
    numbers: Vec<usize>,
    /// The symbols that have names, and maybe others.
    owners: IndexSet<SymbolId, BuildHasherDefault<IdHasher>>,
}

impl Model for UsedNames {
    ghost use Rattle.std.specs.Prelude.{List, map};
    ghost use Rattle.rl_used_names.specs.NameSearch.{IsSearched};
    ghost use Rattle.rl_used_names.specs.UsedName.{UsedName, used_name_of};

    ghost Value = { List UsedName };

    ghost view = { λ used. map used_name_of used.users };

    ghost invariant = { λ used. IsSearched (map used_name_of used.users) used.numbers.items used.owners.keys };
}

/// Number of slots for a name. With so many, about one name in five shares its slot, and is copied into a tree.
const SLOTS: usize = 4;

/// The most names for which a map has slots: 1 MiB of them.
const MOST_SLOTTED: usize = 16_384;

impl UsedNames {
    /// The empty map. It allocates nothing.
    pub fn new(alloc: Global) -> UsedNames
        ensures { result ≡ [] }
    {
        UsedNames {
            users: NameTable::new(alloc),
            numbers: Vec::new(alloc),
            owners: IndexSet::with_hasher(alloc, BuildHasherDefault::new()),
        }
    }

    /// The empty map, with room for `names` names. On `OutOfMemory` an allocation failed, or no memory has room for so many.
    pub fn with_room(alloc: Global, names: usize) -> Result<UsedNames, OutOfMemory>
        ensures { IfOk result (λ used. used ≡ []) }
    {
        let slots = (SLOTS * names.min(MOST_SLOTTED)).next_power_of_two();
        let users = NameTable::with_slots(alloc, slots)?;
        let owners = IndexSet::with_capacity_and_hasher(alloc, names, BuildHasherDefault::new())?;
        Ok(UsedNames {
            users,
            numbers: Vec::new(alloc),
            owners,
        })
    }

    /// A copy in memory of its own. On `OutOfMemory` an allocation failed.
    pub fn copy(&self, alloc: Global) -> Result<UsedNames, OutOfMemory>
        ensures { IfOk result (λ copy. copy ≡ self.now) }
    {
        let users = copy_users(alloc, &self.users)?;
        let numbers = Vec::from_slice(alloc, self.numbers.as_slice())?;
        let owners = self.owners.clone()?;
        Ok(UsedNames {
            users,
            numbers,
            owners,
        })
    }

    /// The first of `name`, `name_0`, `name_1` .. that no other symbol has, which is given to `symbol`. (Of one candidate more
    /// than there are used names one is free.) On `OutOfMemory` an allocation failed, and the entries are unspecified.
    pub fn claim(
        &mut self,
        alloc: Global,
        name: &str,
        symbol: SymbolId,
    ) -> Result<Text, OutOfMemory>
        ensures chosen { IfOk result (λ text. text ≡ chosen self.old symbol.0 name.now) }
        ensures free { IfOk result (λ text. IsFree self.old symbol.0 text) }
        ensures used { IfOk result (λ text. self.new ≡ with_user self.old text symbol.0) }
    {
        let is_nameless = self.owners.insert(symbol)?;
        let own = Text::from_str(alloc, name)?;
        let (entry, is_own) = claim_candidate(alloc, &mut self.users, own.copy(alloc)?, symbol)?;
        if is_own {
            return Ok(own);
        }
        let first = first_number(self.numbers.as_slice(), entry, is_nameless);
        let (number, text) = claim_numbered(alloc, &mut self.users, name, symbol, first)?;
        raise_number(&mut self.numbers, entry, number + 1)?;
        Ok(text)
    }

    /// Adds the names that are not used yet, each with its symbol, in the order of `child`. On `OutOfMemory` an allocation
    /// failed, and the entries are unspecified.
    pub fn merge(&mut self, alloc: Global, child: &UsedNames) -> Result<(), OutOfMemory>
        ensures { OnOk result (self.new ≡ merged_names self.old child.now) }
    {
        let users = child.users.as_slice();
        let entries = merge_users(alloc, &mut self.users, &mut self.owners, users)?;
        merge_numbers(
            &mut self.numbers,
            entries.as_slice(),
            child.numbers.as_slice(),
        )?;
        Ok(())
    }
}

/// A copy of a table, in memory of its own. On `OutOfMemory` an allocation failed.
fn copy_users(
    alloc: Global,
    users: &NameTable<NameUser>,
) -> Result<NameTable<NameUser>, OutOfMemory>
    ensures { IfOk result (λ copy. copy ≡ users.now) }
{
    let mut copies = Vec::with_capacity(alloc, users.len())?;
    for user in users.as_slice() {
        copies.push(NameUser {
            name: user.name.copy(alloc)?,
            symbol: user.symbol,
        })?;
    }
    users.with_items(alloc, copies)
}

/// Gives the name `candidate` to `symbol`, unless another symbol has it. Returns the index of the name's entry, and true if it is
/// the symbol's. On `OutOfMemory` an allocation failed, and nothing has changed.
fn claim_candidate(
    alloc: Global,
    users: &mut NameTable<NameUser>,
    candidate: Text,
    symbol: SymbolId,
) -> Result<(usize, bool), OutOfMemory>
    ensures free { IfOk result (λ found. found.1 ≡ is_free (map used_name_of users.old) symbol.0 candidate) }
    ensures used { IfOk result (λ found. map used_name_of users.new ≡ (if found.1 then with_user (map used_name_of users.old) candidate symbol.0 else map used_name_of users.old)) }
    ensures named { IfOk result (λ found. name_at (map used_name_of users.new) found.0 ≡ Some candidate) }
    ensures within { IfOk result (λ found. found.0 < length users.new) }
    ensures err { OnErr result (users.new ≡ users.old) }
{
    let user = NameUser {
        name: candidate,
        symbol,
    };
    let (entry, is_new) = users.find_or_insert(alloc, user)?;
    Ok((
        entry,
        is_new || users.as_slice()[entry].symbol.0 == symbol.0,
    ))
}

/// Gives `symbol` the first free candidate of a name, if the name is used and all candidates that end in numbers below `first`
/// are. Returns the number that it ends in, and the candidate. On `OutOfMemory` an allocation failed, and nothing has changed.
fn claim_numbered(
    alloc: Global,
    users: &mut NameTable<NameUser>,
    name: &str,
    symbol: SymbolId,
    first: usize,
) -> Result<(usize, Text), OutOfMemory>
    requires { AllTaken (map used_name_of users.old) symbol.0 name.now (first + 1) }
    ensures first { IfOk result (λ found. IsFirstFree (map used_name_of users.old) symbol.0 name.now (found.0 + 1)) }
    ensures text { IfOk result (λ found. found.1 ≡ candidate name.now (found.0 + 1)) }
    ensures chosen { IfOk result (λ found. found.1 ≡ chosen (map used_name_of users.old) symbol.0 name.now) }
    ensures used { IfOk result (λ found. map used_name_of users.new ≡ with_user (map used_name_of users.old) found.1 symbol.0) }
    ensures small { IfOk result (λ found. found.0 + 1 < 2 ^ 64) }
    ensures err { OnErr result (map used_name_of users.new ≡ map used_name_of users.old) }
{
    for number in first..users.len() {
        let candidate = Text::new(format!(in alloc; "{name}_{number}")?);
        let text = candidate.copy(alloc)?;
        let (_, is_claimed) = claim_candidate(alloc, users, candidate, symbol)?;
        if is_claimed {
            return Ok((number, text));
        }
    }
    // Not reached: of one candidate more than there are used names one is free.
    Err(OutOfMemory)
}

/// The number at the index of an entry. 0 past the end.
fn number_at(numbers: &[usize], entry: usize) -> usize
    ensures { result ≡ get_or numbers.now entry 0 }
{
    match numbers.get(entry) {
        Some(number) => *number,
        None => 0,
    }
}

/// The number from which a search for a free candidate goes on: from the start for a symbol that may have a name.
fn first_number(numbers: &[usize], entry: usize, is_nameless: bool) -> usize
    ensures { result ≡ (if is_nameless then get_or numbers.now entry 0 else 0) }
{
    if is_nameless {
        number_at(numbers, entry)
    } else {
        0
    }
}

/// Makes room for the number of an entry. On `OutOfMemory` an allocation failed, or no memory has room for so many numbers, and
/// nothing has changed.
fn reach(numbers: &mut Vec<usize>, entry: usize) -> Result<(), OutOfMemory>
    ensures within { OnOk result (entry < length numbers.new.items) }
    ensures same { OnOk result ((other : ℕ) → get_or numbers.new.items other 0 ≡ get_or numbers.old.items other 0) }
    ensures err { OnErr result (numbers.new.items ≡ numbers.old.items) }
{
    if entry < numbers.len() {
        return Ok(());
    }
    let Some(count) = entry.checked_add(1) else {
        return Err(OutOfMemory);
    };
    numbers.resize(count, 0)?;
    Ok(())
}

/// Raises the number of an entry to `number`, if it is smaller. On `OutOfMemory` an allocation failed, and nothing has changed.
fn raise_number(numbers: &mut Vec<usize>, entry: usize, number: usize) -> Result<(), OutOfMemory>
    ensures raised { OnOk result ((other : ℕ) → get_or numbers.new.items other 0 ≡ (if nat_eq other entry then max number (get_or numbers.old.items entry 0) else get_or numbers.old.items other 0)) }
    ensures err { OnErr result (numbers.new.items ≡ numbers.old.items) }
{
    if number <= number_at(numbers.as_slice(), entry) {
        return Ok(());
    }
    reach(numbers, entry)?;
    numbers[entry] = number;
    Ok(())
}

/// Adds a user, unless its name is used. Returns the index of the entry of its name. On `OutOfMemory` an allocation failed.
fn merge_user(
    alloc: Global,
    users: &mut NameTable<NameUser>,
    owners: &mut IndexSet<SymbolId, BuildHasherDefault<IdHasher>>,
    user: &NameUser,
) -> Result<usize, OutOfMemory>
    ensures merged { OnOk result (map used_name_of users.new ≡ with_missing_name (map used_name_of users.old) (used_name_of user.now)) }
    ensures entry { IfOk result (λ entry. name_at (map used_name_of users.new) entry ≡ Some user.now.name) }
    ensures searched { KeepsSearched (map used_name_of users.old) owners.old.keys (map used_name_of users.new) owners.new.keys }
{
    if let Some(entry) = users.find(user.name.as_str()) {
        return Ok(entry);
    }
    let name = user.name.copy(alloc)?;
    owners.insert(user.symbol)?;
    let copy = NameUser {
        name,
        symbol: user.symbol,
    };
    let (entry, _) = users.find_or_insert(alloc, copy)?;
    Ok(entry)
}

/// Adds the users whose names are not used yet. Returns for each user the index of the entry of its name. On `OutOfMemory` an
/// allocation failed.
fn merge_users(
    alloc: Global,
    users: &mut NameTable<NameUser>,
    owners: &mut IndexSet<SymbolId, BuildHasherDefault<IdHasher>>,
    child: &[NameUser],
) -> Result<Vec<usize>, OutOfMemory>
    ensures merged { OnOk result (map used_name_of users.new ≡ merged_names (map used_name_of users.old) (map used_name_of child.now)) }
    ensures entries { IfOk result (λ entries. AreEntries (map used_name_of users.new) entries.items (map used_name_of child.now)) }
    ensures searched { KeepsSearched (map used_name_of users.old) owners.old.keys (map used_name_of users.new) owners.new.keys }
{
    let mut entries = Vec::with_capacity(alloc, child.len())?;
    for user in child {
        let entry = merge_user(alloc, users, owners, user)?;
        entries.push(entry)?;
    }
    Ok(entries)
}

/// Raises the number of each entry to that of the entry of its name in another map, `child`. On `OutOfMemory` an allocation
/// failed.
fn merge_numbers(
    numbers: &mut Vec<usize>,
    entries: &[usize],
    child: &[usize],
) -> Result<(), OutOfMemory>
    ensures { KeepsTried numbers.old.items numbers.new.items entries.now child.now }
{
    for index in 0..entries.len() {
        raise_number(numbers, entries[index], number_at(child, index))?;
    }
    Ok(())
}

/// True if an identifier is named `word` by the source; false past the end of the table.
pub fn is_named(identifiers: &[Identifier], identifier: IdentifierId, word: &str) -> bool
    ensures { result ≡ is_named (name_of identifiers.now identifier.0) word.now }
{
    let Some(identifier) = identifiers.get(identifier.0 as usize) else {
        return false;
    };
    match &identifier.name {
        Some(IdentifierName::Named(text)) => text.as_str() == word,
        Some(IdentifierName::Promoted(_)) => false,
        None => false,
    }
}

/// True if `known`, the identifier of a symbol, is none or still named `fbt`.
pub fn is_fbt(identifiers: &[Identifier], known: Option<IdentifierId>) -> bool
    ensures { result ≡ is_fbt (option_map (λ identifier. identifier.0) known) identifiers.now }
{
    match known {
        Some(identifier) => is_named(identifiers, identifier, "fbt"),
        None => true,
    }
}

/// The diagnostic of row F40, with the span of the declaration of a local named `fbt` as its label. On `OutOfMemory` an
/// allocation failed.
pub fn fbt_diagnostic(alloc: Global, declaration: Span) -> Result<Diagnostic, OutOfMemory>
    ensures { IfOk result (λ d. d ≡ fbt_diagnostic declaration) }
{
    Diagnostic::at(alloc, Row::F40, "", declaration)
}

/// The diagnostic of row S1, with a reserved name as its word and a span, that of the name's declaration, as its label
/// (`reserved_identifier_diagnostic`). On `OutOfMemory` an allocation failed.
pub fn reserved_identifier_diagnostic(
    alloc: Global,
    name: &Text,
    span: Span,
) -> Result<Diagnostic, OutOfMemory>
    ensures { IfOk result (λ d. d ≡ reserved_diagnostic name.now span) }
{
    Diagnostic::at(alloc, Row::S1, name.as_str(), span)
}
