//! Reserved words.

ghost use Rattle.std.specs.Prelude.{◌≡◌, ◌<◌, length, map};
ghost use Rattle.rl_base.specs.Reserved.{is_reserved};
ghost use Rattle.rl_used_names.specs.ReservedSlots.{is_at, slot_of};

/// Number of slots.
const COUNT: usize = 64;

/// Weight of a word's second byte in its slot. With these three weights no two reserved words have one slot.
const SECOND: usize = 5;

/// Weight of the last byte.
const LAST: usize = 50;

/// Weight of the length.
const LENGTH: usize = 37;

/// The reserved words of ECMA-262 (section Keywords and Reserved Words) that no mode allows as a name, all but `await` and
/// `yield`: each at its slot, and `break` at the slots of none.
static SLOTS: [&str; COUNT] = [
    "break",
    "break",
    "break",
    "export",
    "for",
    "return",
    "this",
    "do",
    "default",
    "debugger",
    "break",
    "break",
    "break",
    "break",
    "var",
    "else",
    "import",
    "catch",
    "break",
    "function",
    "new",
    "in",
    "case",
    "break",
    "finally",
    "break",
    "break",
    "typeof",
    "break",
    "if",
    "break",
    "break",
    "break",
    "break",
    "break",
    "null",
    "break",
    "break",
    "break",
    "break",
    "with",
    "enum",
    "break",
    "break",
    "break",
    "instanceof",
    "class",
    "const",
    "continue",
    "break",
    "while",
    "throw",
    "switch",
    "delete",
    "extends",
    "break",
    "break",
    "super",
    "break",
    "break",
    "true",
    "void",
    "false",
    "try",
];

/// The slot of the one reserved word that `word` may be, from its first, its second and its last byte and its length.
fn slot_of(word: &[u8]) -> usize
    ensures value { result ≡ slot_of word.now }
    ensures below { result < COUNT }
{
    if word.len() < 2 {
        return 0;
    }
    let first = usize::from(word[0]);
    let second = usize::from(word[1]);
    let last = usize::from(word[word.len() - 1]);
    let length = word.len() % 32;
    (first + SECOND * second + LAST * last + LENGTH * length) % COUNT
}

/// True if `word` is the one at an index of `words`.
fn is_at(words: &[&str], index: usize, word: &str) -> bool
    requires { index < length words.now }
    ensures { result ≡ is_at (map (λ w. w.now) words.now) index word.now }
{
    words[index] == word
}

/// True if no JavaScript program, strict or not, may name a variable so (`isReservedWord`).
pub fn is_always_reserved_word(word: &str) -> bool
    ensures { result ≡ is_reserved word.now }
{
    is_at(&SLOTS, slot_of(word.as_bytes()), word)
}
