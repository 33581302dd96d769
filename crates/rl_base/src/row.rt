ghost use Rattle.std.specs.Prelude.{◌≡◌};
ghost use Rattle.std.specs.Option.{option_copied};
ghost use Rattle.rl_base.specs.Rows.{category_of, row_name, category_name, continue_message, message_template, help_template};

/// The category of a row: `ErrorCategory` of the original, as far as rows have it.
#[derive(Clone, Copy, Debug, PartialEq, Eq)]
pub enum Category {
    /// The syntax is not supported yet.
    Todo,
    /// A rule of the language is broken.
    Syntax,
    /// The syntax is not to be supported.
    UnsupportedSyntax,
    /// The original takes the state for impossible, and throws.
    Invariant,
}

impl Category {
    /// The variant's own name.
    pub fn as_str(self) -> &'static str
        ensures { result.now ≡ category_name self }
    {
        match self {
            Category::Todo => "Todo",
            Category::Syntax => "Syntax",
            Category::UnsupportedSyntax => "UnsupportedSyntax",
            Category::Invariant => "Invariant",
        }
    }
}

/// The kind of a diagnostic: a row of the table of refusals in docs/NOTATION.md. An `F` row refuses a node, and lowering
/// goes on; an `S` row ends it at once.
#[derive(Clone, Copy, Debug, PartialEq, Eq)]
pub enum Row {
    /// The name of a class declaration that would be hoisted. The word is the name.
    F1,
    /// A read of `eval` where the unit declares no variable of that name.
    F2,
    /// A private member, as `a.#b`, that is read, called, updated or deleted.
    F3,
    /// A dynamic import, `import(source)`.
    F4,
    /// A private name outside a member that is read: `#a in b`, or an assignment to `b.#a`.
    F5,
    /// An assignment to a local constant: by `=`, a compound operator, an update, a pattern or a loop head. The word is the
    /// name of the constant.
    F6,
    /// The declaration of a constant that is a context variable: one that inner functions capture, and that is assigned.
    F7,
    /// A computed key in an object pattern.
    F8,
    /// A key of an object literal that is not computed, and is no name, text or number.
    F9,
    /// A rest element of an object pattern that is no plain name. The word is the kind of its target, as `ArrayPattern`.
    F10,
    /// A private member that a pattern or a loop head assigns.
    F11,
    /// `delete` of an expression that is no member.
    F12,
    /// A tagged template with a part whose cooked text differs from its raw text.
    F13,
    /// `yield`.
    F14,
    /// `new.target`.
    F15,
    /// A class expression.
    F16,
    /// `super`.
    F17,
    /// `this` as an expression.
    F18,
    /// An update, `++` or `--`, of a context variable: one that inner functions capture, and that is assigned.
    F19,
    /// An update of a global: of a name that the unit does not declare as a variable.
    F20,
    /// An update of a variable of the unit that is not local to the function.
    F21,
    /// An update of a target in a type or non-null assertion, as `a!++`.
    F22,
    /// An assignment by `||=`, `&&=` or `??=`.
    F23,
    /// A compound assignment, as `+=`, to a pattern.
    F24,
    /// A colon in the name of a JSX attribute. The word is the name.
    F25,
    /// An `fbt` or `fbs` element that holds the tag `enum`, `plural` or `pronoun` twice. The word is that tag with its
    /// namespace, as `fbt:enum`; the labels are the tags.
    F26,
    /// A JSX tag with a namespace, where a colon stands in the namespace or in the name. The word is both, each in
    /// backticks, with ` : ` between them.
    F27,
    /// A getter or a setter in an object literal. The word is `get` or `set`.
    F28,
    /// A default value or a `case` test whose evaluation may not be moved. The word is the kind of the expression, as
    /// `CallExpression`.
    F29,
    /// `throw` in the block of a `try`.
    F30,
    /// A `for` whose initialiser is an expression, or is missing.
    F31,
    /// A `for` without a test.
    F32,
    /// A `for await` loop.
    F33,
    /// A `try` without a `catch` clause.
    F34,
    /// A `try` with a `catch` clause and a `finally` block.
    F35,
    /// `with`.
    F36,
    /// A class declaration in the function.
    F37,
    /// An import or an export in the function.
    F38,
    /// A `var` declaration outside the head of a `for`-`in` or `for`-`of` loop.
    F39,
    /// A local variable named `fbt`.
    F40,
    /// An inner function in code that is not reachable.
    F41,
    /// A BigInt literal. A limit of this port.
    F42,
    /// A number literal that is no whole number up to 2^53. A limit of this port.
    F43,
    /// A non-null assertion in an optional chain, as `a?.b!.c`. A limit of this port.
    F44,
    /// A loop head that assigns a target in a type or non-null assertion. A limit of this port.
    F45,
    /// A spread child of a JSX element. A limit of this port.
    F46,
    /// A local variable whose name is a reserved word. The word is the name.
    S1,
    /// A parameter named `this`. The word is `this`.
    S2,
    /// An assignment to a target in a type or non-null assertion, also inside a pattern. The word is its kind, as
    /// `TSAsExpression`.
    S3,
    /// A `catch` clause whose parameter is a pattern.
    S4,
    /// An `fbt` or `fbs` tag whose name is bound in the function. The word is the name.
    S5,
    /// A `break` that no loop and no `switch` encloses.
    S6,
    /// A `continue` that no loop encloses, or whose label names no loop: then the word is `label`.
    S7,
}

impl Row {
    /// The category that a line prints.
    pub fn category(&self) -> Category
        ensures { result ≡ category_of self.now }
    {
        match self {
            Row::F1 => Category::Todo,
            Row::F2 => Category::UnsupportedSyntax,
            Row::F3 => Category::Todo,
            Row::F4 => Category::Todo,
            Row::F5 => Category::Todo,
            Row::F6 => Category::Syntax,
            Row::F7 => Category::Syntax,
            Row::F8 => Category::Todo,
            Row::F9 => Category::Todo,
            Row::F10 => Category::Todo,
            Row::F11 => Category::Todo,
            Row::F12 => Category::Syntax,
            Row::F13 => Category::Todo,
            Row::F14 => Category::Todo,
            Row::F15 => Category::Todo,
            Row::F16 => Category::Todo,
            Row::F17 => Category::Todo,
            Row::F18 => Category::Todo,
            Row::F19 => Category::Todo,
            Row::F20 => Category::Todo,
            Row::F21 => Category::Todo,
            Row::F22 => Category::Todo,
            Row::F23 => Category::Todo,
            Row::F24 => Category::Todo,
            Row::F25 => Category::Todo,
            Row::F26 => Category::Todo,
            Row::F27 => Category::Syntax,
            Row::F28 => Category::Todo,
            Row::F29 => Category::Todo,
            Row::F30 => Category::Todo,
            Row::F31 => Category::Todo,
            Row::F32 => Category::Todo,
            Row::F33 => Category::Todo,
            Row::F34 => Category::Todo,
            Row::F35 => Category::Todo,
            Row::F36 => Category::UnsupportedSyntax,
            Row::F37 => Category::UnsupportedSyntax,
            Row::F38 => Category::Syntax,
            Row::F39 => Category::Todo,
            Row::F40 => Category::Todo,
            Row::F41 => Category::Todo,
            Row::F42 => Category::Todo,
            Row::F43 => Category::Todo,
            Row::F44 => Category::Todo,
            Row::F45 => Category::Todo,
            Row::F46 => Category::Todo,
            Row::S1 => Category::Syntax,
            Row::S2 => Category::Syntax,
            Row::S3 => Category::Todo,
            Row::S4 => Category::Invariant,
            Row::S5 => Category::Invariant,
            Row::S6 => Category::Invariant,
            Row::S7 => Category::Invariant,
        }
    }

    /// The variant's own name.
    pub fn name(&self) -> &'static str
        ensures { result.now ≡ row_name self.now }
    {
        match self {
            Row::F1 => "F1",
            Row::F2 => "F2",
            Row::F3 => "F3",
            Row::F4 => "F4",
            Row::F5 => "F5",
            Row::F6 => "F6",
            Row::F7 => "F7",
            Row::F8 => "F8",
            Row::F9 => "F9",
            Row::F10 => "F10",
            Row::F11 => "F11",
            Row::F12 => "F12",
            Row::F13 => "F13",
            Row::F14 => "F14",
            Row::F15 => "F15",
            Row::F16 => "F16",
            Row::F17 => "F17",
            Row::F18 => "F18",
            Row::F19 => "F19",
            Row::F20 => "F20",
            Row::F21 => "F21",
            Row::F22 => "F22",
            Row::F23 => "F23",
            Row::F24 => "F24",
            Row::F25 => "F25",
            Row::F26 => "F26",
            Row::F27 => "F27",
            Row::F28 => "F28",
            Row::F29 => "F29",
            Row::F30 => "F30",
            Row::F31 => "F31",
            Row::F32 => "F32",
            Row::F33 => "F33",
            Row::F34 => "F34",
            Row::F35 => "F35",
            Row::F36 => "F36",
            Row::F37 => "F37",
            Row::F38 => "F38",
            Row::F39 => "F39",
            Row::F40 => "F40",
            Row::F41 => "F41",
            Row::F42 => "F42",
            Row::F43 => "F43",
            Row::F44 => "F44",
            Row::F45 => "F45",
            Row::F46 => "F46",
            Row::S1 => "S1",
            Row::S2 => "S2",
            Row::S3 => "S3",
            Row::S4 => "S4",
            Row::S5 => "S5",
            Row::S6 => "S6",
            Row::S7 => "S7",
        }
    }

    /// The message, with a `%` in each place of the word.
    pub(crate) fn message_template(&self, word: &str) -> &'static str
        ensures { result.now ≡ message_template self.now word.now }
    {
        match self {
            Row::F1 => "Unsupported declaration type for hoisting",
            Row::F2 => "The 'eval' function is not supported",
            Row::F3 => "(BuildHIR::lowerMemberExpression) Handle private field property",
            Row::F4 => "(BuildHIR::lowerExpression) Handle Import expressions",
            Row::F5 => "(BuildHIR::lowerExpression) Handle PrivateName expressions",
            Row::F6 => "Cannot reassign a `const` variable",
            Row::F7 => "Expected `const` declaration not to be reassigned",
            Row::F8 => "(BuildHIR::lowerAssignment) Handle computed properties in ObjectPattern",
            Row::F9 => "Unsupported key type in ObjectExpression",
            Row::F10 => "(BuildHIR::lowerAssignment) Handle % rest element in ObjectPattern",
            Row::F11 =>
                "(BuildHIR::lowerAssignment) Handle PrivateName properties in MemberExpression",
            Row::F12 => "Only object properties can be deleted",
            Row::F13 =>
                "(BuildHIR::lowerExpression) Handle tagged template where cooked value is different from raw value",
            Row::F14 => "(BuildHIR::lowerExpression) Handle YieldExpression expressions",
            Row::F15 =>
                "(BuildHIR::lowerExpression) Handle MetaProperty expressions other than import.meta",
            Row::F16 => "(BuildHIR::lowerExpression) Handle ClassExpression expressions",
            Row::F17 => "(BuildHIR::lowerExpression) Handle Super expressions",
            Row::F18 => "(BuildHIR::lowerExpression) Handle ThisExpression expressions",
            Row::F19 =>
                "(BuildHIR::lowerExpression) Handle UpdateExpression to variables captured within lambdas.",
            Row::F20 => "UpdateExpression where argument is a global is not yet supported",
            Row::F21 =>
                "(BuildHIR::lowerExpression) Support UpdateExpression where argument is a global",
            Row::F22 => "UpdateExpression with unsupported argument type",
            Row::F23 => "Logical assignment operators (||=, &&=, ??=) are not yet supported",
            Row::F24 => "Compound assignment to complex pattern is not yet supported",
            Row::F25 => "(BuildHIR::lowerExpression) Unexpected colon in attribute name `%`",
            Row::F26 => "Support duplicate fbt tags",
            Row::F27 => "Expected JSXNamespacedName to have no colons in the namespace or name",
            Row::F28 => "(BuildHIR::lowerExpression) Handle % functions in ObjectExpression",
            Row::F29 =>
                "(BuildHIR::node.lowerReorderableExpression) Expression type `%` cannot be safely reordered",
            Row::F30 => "(BuildHIR::lowerStatement) Support ThrowStatement inside of try/catch",
            Row::F31 =>
                "(BuildHIR::lowerStatement) Handle non-variable initialization in ForStatement",
            Row::F32 => "(BuildHIR::lowerStatement) Handle empty test in ForStatement",
            Row::F33 => "(BuildHIR::lowerStatement) Handle for-await loops",
            Row::F34 => "(BuildHIR::lowerStatement) Handle TryStatement without a catch clause",
            Row::F35 =>
                "(BuildHIR::lowerStatement) Handle TryStatement with a finalizer ('finally') clause",
            Row::F36 => "JavaScript 'with' syntax is not supported",
            Row::F37 => "Inline `class` declarations are not supported",
            Row::F38 =>
                "JavaScript `import` and `export` statements may only appear at the top level of a module",
            Row::F39 => "(BuildHIR::lowerStatement) Handle var kinds in VariableDeclaration",
            Row::F40 => "Support local variables named `fbt`",
            Row::F41 =>
                "Support functions with unreachable code that may contain hoisted declarations",
            Row::F42 => "(BuildHIR::lowerExpression) Handle BigIntLiteral expressions",
            Row::F43 => "Only whole numbers up to 2^53 are supported",
            Row::F44 => "Non-null assertion inside an optional chain",
            Row::F45 => "Wrapped target in a loop head",
            Row::F46 => "JSX spread child",
            Row::S1 => "Expected a non-reserved identifier name",
            Row::S2 => "Expected a non-reserved identifier name",
            Row::S3 =>
                "[FindContextIdentifiers] Cannot handle Object destructuring assignment target %",
            Row::S4 => "(BuildHIR::lowerAssignment) Could not find binding for declaration.",
            Row::S5 => "<%> tags should be module-level imports",
            Row::S6 => "Expected a loop or switch to be in scope for break",
            Row::S7 => continue_message(word),
        }
    }

    /// The help text of the rows that have one, with a `%` in each place of the word and a `#` in each place of its tag.
    pub(crate) fn help_template(&self) -> Option<&'static str>
        ensures { option_copied result ≡ help_template self.now }
    {
        match self {
            Row::F1 => Some("variable \"%\" declared with ClassDeclaration"),
            Row::F2 => Some(
                "Eval is an anti-pattern in JavaScript, and the code executed cannot be evaluated by React Compiler",
            ),
            Row::F3 => None,
            Row::F4 => None,
            Row::F5 => None,
            Row::F6 => Some("`%` is declared as const"),
            Row::F7 => None,
            Row::F8 => None,
            Row::F9 => None,
            Row::F10 => None,
            Row::F11 => None,
            Row::F12 => None,
            Row::F13 => None,
            Row::F14 => None,
            Row::F15 => None,
            Row::F16 => None,
            Row::F17 => None,
            Row::F18 => None,
            Row::F19 => None,
            Row::F20 => None,
            Row::F21 => None,
            Row::F22 => None,
            Row::F23 => None,
            Row::F24 => None,
            Row::F25 => None,
            Row::F26 => Some("Support `<#>` tags with multiple `<%>` values"),
            Row::F27 => Some("Got %"),
            Row::F28 => None,
            Row::F29 => None,
            Row::F30 => None,
            Row::F31 => None,
            Row::F32 => None,
            Row::F33 => None,
            Row::F34 => None,
            Row::F35 => None,
            Row::F36 => Some(
                "'with' syntax is considered deprecated and removed from JavaScript standards, consider alternatives",
            ),
            Row::F37 => Some("Move class declarations outside of components/hooks"),
            Row::F38 => None,
            Row::F39 => None,
            Row::F40 => Some(
                "Local variables named `fbt` may conflict with the fbt plugin and are not yet supported",
            ),
            Row::F41 => None,
            Row::F42 => None,
            Row::F43 => None,
            Row::F44 => None,
            Row::F45 => None,
            Row::F46 => None,
            Row::S1 => Some(
                "`%` is a reserved word in JavaScript and cannot be used as an identifier name",
            ),
            Row::S2 => Some(
                "`%` is a reserved word in JavaScript and cannot be used as an identifier name",
            ),
            Row::S3 => None,
            Row::S4 => None,
            Row::S5 => None,
            Row::S6 => None,
            Row::S7 => None,
        }
    }
}

/// The message of `S7`, which its word chooses.
fn continue_message(word: &str) -> &'static str
    ensures { result.now ≡ continue_message word.now }
{
    if word == "label" {
        "Continue may only refer to a labeled loop"
    } else {
        "Expected a loop to be in scope for continue"
    }
}
