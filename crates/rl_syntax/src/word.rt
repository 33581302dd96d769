//! Words of nodes. Written by tools/syntax.py from tools/grammar.txt.

ghost use Rattle.std.specs.Prelude.{◌≡◌, ◌<◌, MatchOption};
ghost use Rattle.rl_syntax.specs.Words.{word_text, makes_scope};
ghost use Rattle.rl_syntax.specs.WordIndex.{word_index};

use crate::word_table::TABLE;

/// The word of a node, one for each spelling of a kind of node in the grammar.
#[derive(Clone, Copy, Debug, PartialEq, Eq)]
pub enum Word {
    /// `unit`
    Unit,
    /// `entity`
    Entity,
    /// `program`
    Program,
    /// `empty`
    Empty,
    /// `debugger`
    Debugger,
    /// `expr`
    Expr,
    /// `return`
    Return,
    /// `throw`
    Throw,
    /// `if`
    If,
    /// `for`
    For,
    /// `while`
    While,
    /// `dowhile`
    Dowhile,
    /// `forin`
    Forin,
    /// `forof`
    Forof,
    /// `switch`
    Switch,
    /// `try`
    Try,
    /// `break`
    Break,
    /// `continue`
    Continue,
    /// `labeled`
    Labeled,
    /// `with`
    With,
    /// `classdecl`
    Classdecl,
    /// `typealias`
    Typealias,
    /// `interface`
    Interface,
    /// `enum`
    Enum,
    /// `namespace`
    Namespace,
    /// `import`
    Import,
    /// `export`
    Export,
    /// `exportdefault`
    Exportdefault,
    /// `exportlist`
    Exportlist,
    /// `exportfrom`
    Exportfrom,
    /// `block`
    Block,
    /// `case`
    Case,
    /// `catch`
    Catch,
    /// `var`
    Var,
    /// `declarator`
    Declarator,
    /// `method`
    Method,
    /// `field`
    Field,
    /// `static`
    Static,
    /// `default`
    Default,
    /// `named`
    Named,
    /// `arrow`
    Arrow,
    /// `fundecl`
    Fundecl,
    /// `funexpr`
    Funexpr,
    /// `params`
    Params,
    /// `param`
    Param,
    /// `rest`
    Rest,
    /// `body`
    Body,
    /// `bind`
    Bind,
    /// `type`
    Type,
    /// `id`
    Id,
    /// `arraypat`
    Arraypat,
    /// `objectpat`
    Objectpat,
    /// `defaultpat`
    Defaultpat,
    /// `hole`
    Hole,
    /// `keyedpat`
    Keyedpat,
    /// `name`
    Name,
    /// `private`
    Private,
    /// `null`
    Null,
    /// `bool`
    Bool,
    /// `num`
    Num,
    /// `str`
    Str,
    /// `bigint`
    Bigint,
    /// `regexp`
    Regexp,
    /// `tagged`
    Tagged,
    /// `array`
    Array,
    /// `object`
    Object,
    /// `unary`
    Unary,
    /// `update`
    Update,
    /// `binary`
    Binary,
    /// `privatein`
    Privatein,
    /// `logical`
    Logical,
    /// `cond`
    Cond,
    /// `assign`
    Assign,
    /// `seq`
    Seq,
    /// `new`
    New,
    /// `await`
    Await,
    /// `yield`
    Yield,
    /// `importmeta`
    Importmeta,
    /// `newtarget`
    Newtarget,
    /// `super`
    Super,
    /// `this`
    This,
    /// `importcall`
    Importcall,
    /// `paren`
    Paren,
    /// `as`
    As,
    /// `satisfies`
    Satisfies,
    /// `assert`
    Assert,
    /// `nonnull`
    Nonnull,
    /// `instantiate`
    Instantiate,
    /// `classexpr`
    Classexpr,
    /// `member`
    Member,
    /// `index`
    Index,
    /// `privatemember`
    Privatemember,
    /// `call`
    Call,
    /// `chain`
    Chain,
    /// `template`
    Template,
    /// `quasi`
    Quasi,
    /// `spread`
    Spread,
    /// `prop`
    Prop,
    /// `get`
    Get,
    /// `set`
    Set,
    /// `arraytarget`
    Arraytarget,
    /// `objecttarget`
    Objecttarget,
    /// `short`
    Short,
    /// `keyed`
    Keyed,
    /// `element`
    Element,
    /// `fragment`
    Fragment,
    /// `opening`
    Opening,
    /// `closing`
    Closing,
    /// `tag`
    Tag,
    /// `tagmember`
    Tagmember,
    /// `tagns`
    Tagns,
    /// `attr`
    Attr,
    /// `attrspread`
    Attrspread,
    /// `attrname`
    Attrname,
    /// `attrns`
    Attrns,
    /// `container`
    Container,
    /// `text`
    Text,
    /// `spreadchild`
    Spreadchild,
}

/// Number of entries of `TABLE`.
pub(crate) const ENTRIES: usize = 512;

/// Weight of a word's last byte in its index into `TABLE`. With these three weights no two words have one index.
const LAST: usize = 42;

/// Weight of the byte in the middle.
const MIDDLE: usize = 117;

/// Weight of the length.
const LENGTH: usize = 3;

/// Index into `TABLE` of the one word that may be spelled `text`, from the first, the middle and the last byte of `text` and
/// its length.
fn index_of(text: &[u8]) -> usize
    ensures value { result ≡ word_index text.now }
    ensures below { result < ENTRIES }
{
    if text.is_empty() {
        return 0;
    }
    let first = usize::from(text[0]);
    let middle = usize::from(text[text.len() / 2]);
    let last = usize::from(text[text.len() - 1]);
    let length = text.len() % 32;
    (first + LAST * last + MIDDLE * middle + LENGTH * length) % ENTRIES
}

impl Word {
    /// The word that `text` spells, by one look-up in `TABLE`. `None` if it spells none.
    pub fn from_text(text: &[u8]) -> Option<Word>
        ensures { MatchOption result ((w : Word) → word_text w ≡ text.now → ⊥) (λ w. word_text w ≡ text.now) }
    {
        let Some(word) = TABLE[index_of(text)] else {
            return None;
        };
        if word.text().as_bytes() == text {
            Some(word)
        } else {
            None
        }
    }

    /// The spelling of the word, in letters a to z.
    pub fn text(self) -> &'static str
        ensures { result.now ≡ word_text self }
    {
        match self {
            Word::Unit => "unit",
            Word::Entity => "entity",
            Word::Program => "program",
            Word::Empty => "empty",
            Word::Debugger => "debugger",
            Word::Expr => "expr",
            Word::Return => "return",
            Word::Throw => "throw",
            Word::If => "if",
            Word::For => "for",
            Word::While => "while",
            Word::Dowhile => "dowhile",
            Word::Forin => "forin",
            Word::Forof => "forof",
            Word::Switch => "switch",
            Word::Try => "try",
            Word::Break => "break",
            Word::Continue => "continue",
            Word::Labeled => "labeled",
            Word::With => "with",
            Word::Classdecl => "classdecl",
            Word::Typealias => "typealias",
            Word::Interface => "interface",
            Word::Enum => "enum",
            Word::Namespace => "namespace",
            Word::Import => "import",
            Word::Export => "export",
            Word::Exportdefault => "exportdefault",
            Word::Exportlist => "exportlist",
            Word::Exportfrom => "exportfrom",
            Word::Block => "block",
            Word::Case => "case",
            Word::Catch => "catch",
            Word::Var => "var",
            Word::Declarator => "declarator",
            Word::Method => "method",
            Word::Field => "field",
            Word::Static => "static",
            Word::Default => "default",
            Word::Named => "named",
            Word::Arrow => "arrow",
            Word::Fundecl => "fundecl",
            Word::Funexpr => "funexpr",
            Word::Params => "params",
            Word::Param => "param",
            Word::Rest => "rest",
            Word::Body => "body",
            Word::Bind => "bind",
            Word::Type => "type",
            Word::Id => "id",
            Word::Arraypat => "arraypat",
            Word::Objectpat => "objectpat",
            Word::Defaultpat => "defaultpat",
            Word::Hole => "hole",
            Word::Keyedpat => "keyedpat",
            Word::Name => "name",
            Word::Private => "private",
            Word::Null => "null",
            Word::Bool => "bool",
            Word::Num => "num",
            Word::Str => "str",
            Word::Bigint => "bigint",
            Word::Regexp => "regexp",
            Word::Tagged => "tagged",
            Word::Array => "array",
            Word::Object => "object",
            Word::Unary => "unary",
            Word::Update => "update",
            Word::Binary => "binary",
            Word::Privatein => "privatein",
            Word::Logical => "logical",
            Word::Cond => "cond",
            Word::Assign => "assign",
            Word::Seq => "seq",
            Word::New => "new",
            Word::Await => "await",
            Word::Yield => "yield",
            Word::Importmeta => "importmeta",
            Word::Newtarget => "newtarget",
            Word::Super => "super",
            Word::This => "this",
            Word::Importcall => "importcall",
            Word::Paren => "paren",
            Word::As => "as",
            Word::Satisfies => "satisfies",
            Word::Assert => "assert",
            Word::Nonnull => "nonnull",
            Word::Instantiate => "instantiate",
            Word::Classexpr => "classexpr",
            Word::Member => "member",
            Word::Index => "index",
            Word::Privatemember => "privatemember",
            Word::Call => "call",
            Word::Chain => "chain",
            Word::Template => "template",
            Word::Quasi => "quasi",
            Word::Spread => "spread",
            Word::Prop => "prop",
            Word::Get => "get",
            Word::Set => "set",
            Word::Arraytarget => "arraytarget",
            Word::Objecttarget => "objecttarget",
            Word::Short => "short",
            Word::Keyed => "keyed",
            Word::Element => "element",
            Word::Fragment => "fragment",
            Word::Opening => "opening",
            Word::Closing => "closing",
            Word::Tag => "tag",
            Word::Tagmember => "tagmember",
            Word::Tagns => "tagns",
            Word::Attr => "attr",
            Word::Attrspread => "attrspread",
            Word::Attrname => "attrname",
            Word::Attrns => "attrns",
            Word::Container => "container",
            Word::Text => "text",
            Word::Spreadchild => "spreadchild",
        }
    }

    /// True if a node of the word makes a scope.
    pub fn makes_scope(self) -> bool
        ensures { result ≡ makes_scope self }
    {
        match self {
            Word::Program => true,
            Word::Arrow => true,
            Word::Fundecl => true,
            Word::Funexpr => true,
            Word::Block => true,
            Word::For => true,
            Word::Forin => true,
            Word::Forof => true,
            Word::Switch => true,
            Word::Catch => true,
            Word::Classdecl => true,
            Word::Classexpr => true,
            Word::Static => true,
            _ => false,
        }
    }

    /// Number of parts for which the reader makes room in a node of the word: as many as the grammar gives it.
    pub(crate) fn usual_parts(self) -> usize {
        match self {
            Word::Empty
            | Word::Debugger
            | Word::Hole
            | Word::Null
            | Word::Importmeta
            | Word::Newtarget
            | Word::Super
            | Word::This
            | Word::Closing => 0,
            Word::Program
            | Word::Expr
            | Word::Return
            | Word::Throw
            | Word::Break
            | Word::Continue
            | Word::Interface
            | Word::Enum
            | Word::Namespace
            | Word::Export
            | Word::Exportdefault
            | Word::Exportlist
            | Word::Exportfrom
            | Word::Block
            | Word::Field
            | Word::Static
            | Word::Rest
            | Word::Id
            | Word::Name
            | Word::Private
            | Word::Bool
            | Word::Num
            | Word::Str
            | Word::Bigint
            | Word::Array
            | Word::Object
            | Word::Seq
            | Word::Await
            | Word::Paren
            | Word::Nonnull
            | Word::Chain
            | Word::Spread
            | Word::Fragment
            | Word::Tag
            | Word::Attrspread
            | Word::Attrname
            | Word::Container
            | Word::Text
            | Word::Spreadchild => 1,
            Word::If
            | Word::Forin
            | Word::Try
            | Word::Classdecl
            | Word::Method
            | Word::Keyedpat
            | Word::Update
            | Word::Binary
            | Word::Logical
            | Word::Cond
            | Word::Assign
            | Word::Classexpr
            | Word::Member
            | Word::Index
            | Word::Privatemember
            | Word::Call
            | Word::Prop
            | Word::Get
            | Word::Set
            | Word::Keyed
            | Word::Element => 3,
            Word::For | Word::Forof | Word::Arrow => 4,
            Word::Fundecl | Word::Funexpr => 6,
            _ => 2,
        }
    }
}
