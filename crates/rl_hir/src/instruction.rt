//! Instructions: the operations of a graph, and the places that they read and write.

ghost use Rattle.std.specs.Prelude.{◌≡◌};
ghost use Rattle.rl_hir.specs.Instructions.{argument_shape, argument_place};

use rl_base::boxed::Boxed;
use rl_base::ids::{EvaluationOrder, IdentifierId, NodeId, TypeId};
use rl_base::list::List;
use rl_base::number::WholeNumber;
use rl_base::operator::{BinaryOperator, UnaryOperator, UpdateOperator};
use rl_base::span::Span;
use rl_base::text::Text;

/// A use of an identifier.
#[derive(Clone, Copy, Debug, PartialEq, Eq)]
pub struct Place {
    /// The variable or temporary that is used; an index into the unit's table of identifiers.
    pub identifier: IdentifierId,
    /// The span of the node that uses it; `None` where no node stands for the use.
    pub span: Option<Span>,
}

/// An entry of a function's instruction table.
#[derive(Drop)]
pub struct Instruction {
    /// Its evaluation order, from 1 in block order; 0 where no block lists it.
    pub order: EvaluationOrder,
    /// The place that takes its value.
    pub lvalue: Place,
    /// The operation, whose value `lvalue` takes.
    pub value: InstructionValue,
    /// The span of the node that it evaluates; `None` where no node stands for it.
    pub span: Option<Span>,
}

/// The operation of an instruction, by the names of the compiler. Rare, large values stand in boxes, so that an operation takes
/// at most 48 bytes.
#[derive(Drop)]
pub enum InstructionValue {
    /// A constant.
    Primitive(PrimitiveValue),
    /// The text of a JSX child.
    JsxText(Text),
    /// Reads a local variable or a temporary.
    LoadLocal(Place),
    /// Reads a variable that an inner function shares.
    LoadContext(Place),
    /// A value under a type that is asserted of it.
    TypeCastExpression {
        value: Place,
        cast: HirType,
        /// The span of the type; `None` where no node stands for it.
        span: Option<Span>,
    },
    /// Declares a local variable that has no value yet.
    DeclareLocal {
        kind: InstructionKind,
        place: Place,
    },
    /// Declares a variable that an inner function shares.
    DeclareContext {
        kind: InstructionKind,
        place: Place,
    },
    /// Writes `value` to a local variable.
    StoreLocal {
        kind: InstructionKind,
        place: Place,
        value: Place,
    },
    /// Writes `value` to a variable that an inner function shares.
    StoreContext {
        kind: InstructionKind,
        place: Place,
        value: Place,
    },
    /// Reads a name that no local variable has.
    LoadGlobal(NonLocalBinding),
    /// Writes `value` to a name that no local variable has.
    StoreGlobal {
        name: Text,
        value: Place,
    },
    /// Takes a value apart.
    Destructure(Boxed<Destructure>),
    /// Applies an operator to two values.
    BinaryExpression {
        operator: BinaryOperator,
        left: Place,
        right: Place,
    },
    /// Applies an operator to a value.
    UnaryExpression {
        operator: UnaryOperator,
        value: Place,
    },
    /// `++x` or `--x`: `place` takes the new value, computed from `value`.
    PrefixUpdate {
        operator: UpdateOperator,
        place: Place,
        value: Place,
    },
    /// `x++` or `x--`: as `PrefixUpdate`, but the result is the value before.
    PostfixUpdate {
        operator: UpdateOperator,
        place: Place,
        value: Place,
    },
    /// A regular expression.
    RegExpLiteral(Boxed<RegExpLiteral>),
    /// A template without a tag.
    TemplateLiteral(Boxed<TemplateLiteral>),
    /// A template with a tag, which is called.
    TaggedTemplateExpression {
        tag: Place,
        template: Boxed<TemplateLiteral>,
    },
    /// An array literal.
    ArrayExpression(List<ArrayElement>),
    /// An object literal.
    ObjectExpression(List<ObjectProperty>),
    /// `import.meta`.
    MetaProperty,
    /// A `debugger` statement.
    Debugger,
    /// A function, by its node.
    FunctionExpression(NodeId),
    /// A method of an object literal, by the node of its function.
    ObjectMethod(NodeId),
    /// Calls a function, with `arguments` from left to right.
    CallExpression {
        callee: Place,
        arguments: List<PlaceOrSpread>,
    },
    /// Calls a constructor with `new`.
    NewExpression {
        callee: Place,
        arguments: List<PlaceOrSpread>,
    },
    /// Calls `property`, a value that was read from `receiver`, as a method of `receiver`.
    MethodCall(Boxed<MethodCall>),
    /// Reads a property by a fixed key.
    PropertyLoad {
        object: Place,
        property: Boxed<PropertyLiteral>,
    },
    /// Writes a property by a fixed key.
    PropertyStore {
        object: Place,
        property: Boxed<PropertyLiteral>,
        value: Place,
    },
    /// Deletes a property by a fixed key.
    PropertyDelete {
        object: Place,
        property: Boxed<PropertyLiteral>,
    },
    /// Reads a property by a computed key.
    ComputedLoad {
        object: Place,
        property: Place,
    },
    /// Writes a property by a computed key.
    ComputedStore(Boxed<ComputedStore>),
    /// Deletes a property by a computed key.
    ComputedDelete {
        object: Place,
        property: Place,
    },
    /// A JSX element.
    JsxExpression(Boxed<JsxExpression>),
    /// A JSX fragment, with its children.
    JsxFragment(List<Place>),
    /// Awaits a value.
    Await(Place),
    /// Opens an iterator of a collection.
    GetIterator(Place),
    /// Asks an iterator of a collection for its next value.
    IteratorNext {
        iterator: Place,
        collection: Place,
    },
    /// Asks an object for its next property.
    NextPropertyOf(Place),
}

/// The kind of a store or a declaration.
#[derive(Clone, Copy, Debug, PartialEq, Eq)]
pub enum InstructionKind {
    /// A declaration by `const`, or of a temporary.
    Const,
    /// A declaration by `let` or `var`.
    Let,
    /// A store to a variable that is declared.
    Reassign,
    /// The parameter of a `catch`.
    Catch,
    /// A function declaration.
    Function,
    /// The marker of a `const` or `var` that is used before it is declared.
    HoistedConst,
    /// The marker of a `let` that is used before it is declared.
    HoistedLet,
    /// The marker of a function that is used before it is declared.
    HoistedFunction,
}

/// The type that a cast asserts.
#[derive(Clone, Copy)]
pub enum HirType {
    /// Any other type, as a type variable.
    Var(TypeId),
    /// A primitive type.
    Primitive,
    /// An array.
    Array,
}

/// The fixed key of a property.
#[derive(Drop)]
pub enum PropertyLiteral {
    /// A name.
    String(Text),
    /// A whole number up to 2^53.
    Number(WholeNumber),
}

/// Takes the value apart by the pattern, whose places take the parts.
#[derive(Drop)]
pub struct Destructure {
    /// The kind of the places.
    pub kind: InstructionKind,
    /// The places, and the part that each takes.
    pub pattern: Pattern,
    /// The value that is taken apart.
    pub value: Place,
}

/// A pattern of one level.
#[derive(Drop)]
pub enum Pattern {
    /// Takes the items of an array.
    Array(List<ArrayElement>),
    /// Takes the properties of an object.
    Object(List<ObjectPatternProperty>),
}

/// An element of an array literal, or of an array pattern.
#[derive(Clone, Copy)]
pub enum ArrayElement {
    /// An item.
    Place(Place),
    /// All items of an array; in a pattern, all that are left.
    Spread(Place),
    /// No item.
    Hole,
}

/// A property of an object pattern.
#[derive(Drop)]
pub enum ObjectPatternProperty {
    /// The property with this key.
    Property { key: Text, place: Place },
    /// All properties that are left, as an object.
    Spread(Place),
}

/// A property of an object literal.
#[derive(Drop)]
pub enum ObjectProperty {
    /// A property with a fixed key.
    Property { key: Text, place: Place },
    /// A property with a computed key.
    Computed { key: Place, place: Place },
    /// All properties of an object.
    Spread(Place),
}

/// The texts of a regular expression, as in the source.
#[derive(Drop)]
pub struct RegExpLiteral {
    /// The pattern, without its slashes.
    pub pattern: Text,
    /// The flags.
    pub flags: Text,
}

/// A piece of text in a template.
#[derive(Drop)]
pub struct TemplateQuasi {
    /// The text as the source writes it.
    pub raw: Text,
    /// The text that it stands for; `None` where it stands for none, as in a tagged template that has an escape which is no escape.
    pub cooked: Option<Text>,
}

/// The texts and the values of a template, which take turns, a text first.
#[derive(Drop)]
pub struct TemplateLiteral {
    /// The texts.
    pub quasis: List<TemplateQuasi>,
    /// The values.
    pub subexpressions: List<Place>,
}

/// Calls `property` as a method of `receiver`, with `arguments` from left to right.
#[derive(Drop)]
pub struct MethodCall {
    /// The value whose method is called.
    pub receiver: Place,
    /// The method, which was read from the receiver.
    pub property: Place,
    /// The arguments.
    pub arguments: List<PlaceOrSpread>,
}

/// Writes `value` to a property of `object`.
#[derive(Clone, Copy)]
pub struct ComputedStore {
    /// The object.
    pub object: Place,
    /// The key of the property.
    pub property: Place,
    /// The value.
    pub value: Place,
}

/// A JSX element.
#[derive(Drop)]
pub struct JsxExpression {
    /// The tag.
    pub tag: JsxTag,
    /// The attributes, in order.
    pub props: List<JsxAttribute>,
    /// The children, in order.
    pub children: List<Place>,
}

/// The tag of a JSX element.
#[derive(Drop)]
pub enum JsxTag {
    /// A component.
    Place(Place),
    /// The name of a builtin element.
    Builtin(Text),
}

/// An attribute of a JSX element.
#[derive(Drop)]
pub enum JsxAttribute {
    /// A name and its value.
    Attribute { name: Text, place: Place },
    /// All properties of an object.
    SpreadAttribute(Place),
}

/// The binding of a name that no local variable has (`NonLocalBinding` of the compiler). What only imports have stands in
/// boxes, so that it takes no room in other instructions.
#[derive(Drop)]
pub enum NonLocalBinding {
    /// A name that nothing in the module declares.
    Global {
        name: Text,
    },
    /// A declaration of the module, at its top level, that is no import.
    ModuleLocal {
        name: Text,
    },
    /// An import of the default export of `module`.
    ImportDefault {
        name: Text,
        module: Boxed<Text>,
    },
    /// An import of all exports of `module`, as one object.
    ImportNamespace {
        name: Text,
        module: Boxed<Text>,
    },
    /// An import of one export of a module by its name.
    ImportSpecifier {
        name: Text,
        import: Boxed<ImportSpecifier>,
    },
}

/// The export that an import names.
#[derive(Drop)]
pub struct ImportSpecifier {
    /// The module.
    pub module: Text,
    /// The name of the export in the module.
    pub imported: Text,
}

/// An argument of a call.
#[derive(Clone, Copy)]
pub enum PlaceOrSpread {
    /// An argument that is one value.
    Place(Place),
    /// A spread argument: the values that this one yields.
    Spread(Place),
}

impl PlaceOrSpread {
    /// The text that stands for the argument's shape in a listing: `place` or `spread`.
    pub fn shape(self) -> &'static str
        ensures { result.now ≡ argument_shape self }
    {
        match self {
            PlaceOrSpread::Place(_) => "place",
            PlaceOrSpread::Spread(_) => "spread",
        }
    }

    /// The place of the value, or of the value that is spread.
    pub fn place(self) -> Place
        ensures { result ≡ argument_place self }
    {
        match self {
            PlaceOrSpread::Place(place) => place,
            PlaceOrSpread::Spread(place) => place,
        }
    }
}

/// The value of a literal, or undefined.
#[derive(Drop)]
pub enum PrimitiveValue {
    /// The undefined value, which no literal writes.
    Undefined,
    /// The value of `null`.
    Null,
    /// The value of `true` or `false`.
    Boolean(bool),
    /// A whole number up to 2^53.
    Number(WholeNumber),
    /// A text, in UTF-8.
    String(Text),
}
