//! The types of expressions in diagnostics.

ghost use Rattle.std.specs.Prelude.{◌≡◌};
ghost use Rattle.rl_promises.specs.Moved as spec;

use rl_syntax::word::Word;

/// The type of an expression, as row F29 names it, by the expression's word. Empty where an expression of the word always may move.
pub fn type_name(word: Word) -> &'static str
    ensures { result.now ≡ spec.type_name word }
{
    match word {
        Word::Member => "MemberExpression",
        Word::Index => "MemberExpression",
        Word::Privatemember => "MemberExpression",
        Word::Chain => "OptionalMemberExpression",
        Word::Binary => "BinaryExpression",
        Word::Privatein => "BinaryExpression",
        Word::Importcall => "Import",
        Word::Importmeta => "MetaProperty",
        Word::Newtarget => "MetaProperty",
        Word::Cond => "ConditionalExpression",
        Word::Seq => "SequenceExpression",
        Word::Assign => "AssignmentExpression",
        Word::Template => "TemplateLiteral",
        Word::Tagged => "TaggedTemplateExpression",
        Word::Arrow => "ArrowFunctionExpression",
        Word::Funexpr => "FunctionExpression",
        Word::Classexpr => "ClassExpression",
        Word::Super => "Super",
        Word::This => "ThisExpression",
        Word::Paren => "ParenthesizedExpression",
        Word::Element => "JSXElement",
        Word::Fragment => "JSXFragment",
        Word::As => "TSAsExpression",
        Word::Satisfies => "TSSatisfiesExpression",
        Word::Assert => "TSTypeAssertion",
        Word::Nonnull => "TSNonNullExpression",
        Word::Instantiate => "TSInstantiationExpression",
        Word::Call => "CallExpression",
        Word::New => "NewExpression",
        Word::Array => "ArrayExpression",
        Word::Object => "ObjectExpression",
        Word::Unary => "UnaryExpression",
        Word::Update => "UpdateExpression",
        Word::Logical => "LogicalExpression",
        Word::Await => "AwaitExpression",
        Word::Yield => "YieldExpression",
        _ => "",
    }
}
