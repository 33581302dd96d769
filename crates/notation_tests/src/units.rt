//! The reader and the writer of units: ids and spans of nodes, their table, and a unit that is read and written back.

use rl_ast::binding::{BindingPattern, binding_identifier_view, binding_pattern_view};
use rl_ast::function::{
    Arrow, ArrowBody, arrow_body_view, formal_parameter_view, formal_parameters_view,
    function_body_view,
};
use rl_ast::function_node::FunctionNode;
use rl_ast::program::program_view;
use rl_ast::read::read_tree;
use rl_ast::statement::{Statement, statement_view};
use rl_ast::unit::Unit;
use rl_ast::write::write_tree;
use rl_base::ids::NodeId;
use rl_grammar::sort::StatementTree;
use rl_syntax::numbered::At;
use rl_syntax::word::Word;
use std::test::Fail;

/// A unit whose function has a parameter, two directives and three statements.
const BODY: &[u8] =
    b"(unit [] (program [(expr (arrow y y (params [(param (bind \"p\" -) -)] -) (body [\"use strict\" \"use memo\"] [(expr (str \"x\")) (return (call n (id \"f\") [(binary \"<<\" (null) (id \"p\")) (num \"0x1F\")])) (return -)])))]))";

/// A node's id, the id behind its subtree, and the start and end of its span.
fn numbers(at: At) -> (u32, u32, u32, u32) {
    (at.id.0, at.end.0, at.span.start, at.span.end)
}

/// The marked function, if it is an arrow function.
fn arrow_of(unit: &Unit) -> Option<Arrow<'_>> {
    match unit.marked_function()? {
        FunctionNode::Arrow(arrow) => Some(arrow),
        FunctionNode::Function(_) => None,
    }
}

/// As `numbers`, of a unit, its program, its function, the parameter list, the first parameter and its name.
fn function_numbers(unit: &Unit) -> Option<[(u32, u32, u32, u32); 6]> {
    let function = arrow_of(unit)?;
    let params = formal_parameters_view(function.params);
    let (param, _rest) = params.items.split_first()?;
    let param = formal_parameter_view(param);
    let BindingPattern::Identifier(name) = binding_pattern_view(param.pattern) else {
        return None;
    };
    Some([
        numbers(unit.view().at),
        numbers(program_view(unit.view().program).at),
        numbers(function.at),
        numbers(params.at),
        numbers(param.at),
        numbers(binding_identifier_view(name).at),
    ])
}

#[test]
fn reads_a_function(rt: HostRuntime) -> Result<(), Fail> {
    let unit = read_tree(rt.alloc(), BODY)?;
    assert_eq!(rt;
        function_numbers(&unit),
        Some([
            (0, 18, 0, 211),
            (1, 18, 9, 210),
            (3, 18, 25, 207),
            (4, 7, 36, 71),
            (5, 7, 45, 67),
            (6, 7, 52, 64)
        ])
    );
    Ok(())
}

/// As `numbers`, of an expression statement or a `return`.
fn statement_numbers(statement: StatementTree<'_>) -> Option<(u32, u32, u32, u32)> {
    match statement_view(statement) {
        Statement::Expression { at, expression: _ } => Some(numbers(at)),
        Statement::Return { at, argument: _ } => Some(numbers(at)),
        _ => None,
    }
}

/// As `numbers`, of a body of statements and of the first two of them.
fn body_numbers(unit: &Unit) -> Option<[(u32, u32, u32, u32); 3]> {
    let ArrowBody::Body(body) = arrow_body_view(arrow_of(unit)?.body) else {
        return None;
    };
    let body = function_body_view(body);
    let (first, rest) = body.statements.split_first()?;
    let (second, _rest) = rest.split_first()?;
    Some([
        numbers(body.at),
        statement_numbers(first)?,
        statement_numbers(second)?,
    ])
}

#[test]
fn reads_a_body(rt: HostRuntime) -> Result<(), Fail> {
    let unit = read_tree(rt.alloc(), BODY)?;
    assert_eq!(rt;
        body_numbers(&unit),
        Some([(7, 18, 72, 206), (8, 10, 105, 121), (10, 17, 122, 193)])
    );
    Ok(())
}

#[test]
fn lists_nodes(rt: HostRuntime) -> Result<(), Fail> {
    let unit = read_tree(rt.alloc(), BODY)?;
    assert_eq!(rt; unit.nodes.len(), 18);
    let wanted = [
        (0, Word::Unit, None),
        (5, Word::Param, Some(4)),
        (11, Word::Call, Some(10)),
        (13, Word::Binary, Some(11)),
        (17, Word::Return, Some(7)),
    ];
    for (id, word, parent) in wanted {
        let entry = unit.nodes.get(id).copied();
        assert_eq!(rt; entry.map(|node| node.word), Some(word));
        assert_eq!(rt; entry.map(|node| node.at.id), Some(NodeId(id as u32)));
        assert_eq!(rt; entry.and_then(|node| node.parent), parent.map(NodeId));
    }
    Ok(())
}

/// A text with each of the 118 words of nodes.
const WORDS: &str =
    "(unit [(entity \"x\" 38)] (program [(empty) (debugger) (expr (null)) (return -) (throw (null)) \
     (if (null) (empty) -) (for - - - (empty)) (while (null) (empty)) (dowhile (empty) (null)) \
     (forin (id \"x\") (null) (empty)) (forof n (id \"x\") (null) (empty)) (try (block []) - -) (break -) \
     (continue -) (labeled \"x\" (empty)) (with (null) (empty)) (typealias (bind \"x\" -) (type \"other\" [])) \
     (interface (bind \"x\" -)) (enum (bind \"x\" -)) (namespace (bind \"x\" -)) (import \"x\" []) (export (empty)) \
     (exportdefault (null)) (exportlist []) (exportfrom \"x\") (switch (null) [(case - [])]) \
     (try (block []) (catch - (block [])) -) (var \"let\" []) \
     (classdecl - - [(method (funexpr n n n - (params [] -) (body [] [])))]) (classdecl - - [(field -)]) \
     (classdecl - - [(static [])]) (import \"x\" [(default (bind \"x\" -))]) \
     (import \"x\" [(named \"x\" (bind \"x\" -))]) (expr (arrow n n (params [] -) (null))) \
     (fundecl n n n - (params [(param (bind \"x\" -) -)] -) -) (fundecl n n n - (params [] -) (body [] [])) \
     (var \"let\" [(declarator (arraypat [] -) -)]) \
     (var \"let\" [(declarator (arraypat [(defaultpat (bind \"x\" -) (null))] -) -)]) \
     (var \"let\" [(declarator (objectpat [(keyedpat n (null) (bind \"x\" -))] -) -)]) \
     (expr (object [(prop n (name \"x\") (null))])) (expr (object [(prop n (private \"x\") (null))])) \
     (expr (bool n)) (expr (num \"x\")) (expr (bigint \"x\")) (expr (regexp \"x\" \"x\")) \
     (expr (tagged (null) (template [] []))) (expr (unary \"!\" (null))) (expr (binary \"+\" (null) (null))) \
     (expr (privatein \"x\" (null))) (expr (logical \"&&\" (null) (null))) (expr (cond (null) (null) (null))) \
     (expr (assign \"=\" (id \"x\") (null))) (expr (seq [])) (expr (await (null))) (expr (yield n -)) \
     (expr (importmeta)) (expr (newtarget)) (expr (super)) (expr (importcall (null) -)) (expr (paren (null))) \
     (expr (satisfies (null) (type \"other\" []))) (expr (assert (type \"other\" []) (null))) \
     (expr (nonnull (null))) (expr (instantiate (null) [])) (expr (classexpr - - [])) (expr (member n (null) \"x\")) \
     (expr (index n (null) (null))) (expr (privatemember n (null) \"x\")) (expr (call n (null) [])) \
     (expr (chain (null))) (expr (template [(quasi \"x\" -)] [])) (expr (array [(hole)])) \
     (expr (new (null) [(spread (null))])) \
     (expr (object [(get n (null) (funexpr n n n - (params [] -) (body [] [])))])) \
     (expr (object [(set n (null) (funexpr n n n - (params [] -) (body [] [])))])) \
     (expr (update \"++\" n (as (id \"x\") (type \"other\" [])))) \
     (expr (update \"++\" n (objecttarget [(short (id \"x\") -)] -))) \
     (expr (update \"++\" n (objecttarget [(keyed n (null) (id \"x\"))] -))) \
     (expr (update \"++\" n (arraytarget [] (rest (id \"x\"))))) (expr (element (opening (this) []) [] (closing))) \
     (expr (element (opening (tag \"x\") []) [] -)) (expr (element (opening (tagmember (this) \"x\") []) [] -)) \
     (expr (element (opening (tagns \"x\" \"x\") []) [] -)) \
     (expr (element (opening (this) [(attrspread (null))]) [] -)) \
     (expr (element (opening (this) [(attr (attrns \"x\" \"x\") -)]) [] -)) \
     (expr (element (opening (this) [(attr (attrname \"x\") (str \"x\"))]) [] -)) (expr (fragment [(text \"x\")])) \
     (expr (fragment [(container -)])) (expr (fragment [(spreadchild (null))]))]))";

#[test]
fn reads_and_writes_each_word(rt: HostRuntime) -> Result<(), Fail> {
    let unit = read_tree(rt.alloc(), WORDS.as_bytes())?;
    let written = write_tree(rt.alloc(), &unit)?;
    assert_eq!(rt; written.as_slice(), WORDS.as_bytes());
    Ok(())
}

/// A unit with each of the thirteen kinds of nodes that make a scope, and a reference between any two.
const SCOPES: &[u8] =
    b"(unit [] (program [(expr (id \"a\")) (expr (arrow y n (params [] -) (id \"b\"))) (fundecl n n n (bind \"f\" -) (params [] -) (body [] [(expr (id \"c\"))])) (expr (funexpr n n n - (params [] -) (body [] [(return (id \"d\"))]))) (block [(expr (id \"e\"))]) (for - - - (expr (id \"f\"))) (forin (id \"g\") (null) (empty)) (forof n (id \"h\") (null) (empty)) (switch (id \"i\") []) (try (block [(expr (id \"j\"))]) (catch - (block [(expr (id \"k\"))])) -) (classdecl (bind \"C\" -) - [(static [(expr (id \"l\"))])]) (expr (classexpr - - []))]))";

#[test]
fn numbers_scopes_and_references(rt: HostRuntime) -> Result<(), Fail> {
    let unit = read_tree(rt.alloc(), SCOPES)?;
    let mut scopes: u32 = 0;
    let mut references: u32 = 0;
    for node in unit.nodes.as_slice() {
        assert_eq!(rt; node.at.scope.0, scopes, "{node:?}");
        assert_eq!(rt; node.at.reference.0, references, "{node:?}");
        if node.word.makes_scope() {
            scopes = u32::saturating_add(scopes, 1);
        }
        if node.word == Word::Id {
            references = u32::saturating_add(references, 1);
        }
    }
    assert_eq!(rt; scopes, 15);
    assert_eq!(rt; references, 12);
    Ok(())
}
