//! The table of terminals, from which the functions over all kinds of terminals are written.

/// The table of terminals, handed to the macro `write` behind `given`: of each kind the word and the fields of its listing, in
/// order, each by what it tells (`Field` in specs/Terminals.antt). A field `leads` to a block, or it `may_lead` to one; it `chooses`
/// a case; it `follows` the construct that the terminal opens; it `names` another block, or it `may_name` one; it `reads` a place,
/// or it `may_bind` one; it `says` a text, or it `holds` a flag.
macro_rules! with_terminals {
    ($write:ident $given:tt) => {
        $write! {
            $given
            Goto "goto" (leads block, says variant)
            If "if" (reads test, leads consequent, leads alternate, follows fallthrough)
            Branch "branch" (reads test, leads consequent, leads alternate, follows fallthrough)
            Switch "switch" (reads test, chooses cases, follows fallthrough)
            Logical "logical" (says operator, leads test, follows fallthrough)
            Ternary "ternary" (leads test, follows fallthrough)
            Optional "optional" (holds optional, leads test, follows fallthrough)
            Sequence "sequence" (leads block, follows fallthrough)
            Label "label" (leads block, follows fallthrough)
            Try "try" (leads block, may_bind handler_binding, names handler, follows fallthrough)
            While "while" (leads test, names loop_block, follows fallthrough)
            DoWhile "dowhile" (leads loop_block, names test, follows fallthrough)
            For "for" (leads init, names test, may_name update, names loop_block, follows fallthrough)
            ForIn "forin" (leads init, names loop_block, follows fallthrough)
            ForOf "forof" (leads init, names test, names loop_block, follows fallthrough)
            MaybeThrow "maybethrow" (leads continuation, may_lead handler)
            Return "return" (says variant, reads value)
            Throw "throw" (reads value)
            Unreachable "unreachable" ()
        }
    };
}

pub(crate) use with_terminals;
