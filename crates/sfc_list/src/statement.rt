//! The text of statements (3.3.2), each on lines of its own.

ghost use Rattle.std.specs.Prelude.{◌+◌, codes};
ghost use Rattle.sfc_expr.specs.Trees.{NoBranch, expression_of, tried_before, body_of, branches_of};
ghost use Rattle.sfc_list.specs.Statements as text;
ghost use Rattle.sfc_list.specs.Private.Parts.{statement_text};
ghost use Rattle.sfc_list.specs.Private.Sinking.{Puts};

use crate::expression::put_expression;
use crate::layout::{put_indent, put_line};
use crate::sink::Sink;
use sfc_base::references::Variable;
use sfc_expr::expr::Expr;
use sfc_expr::statement::{Branch, Statement};
use sfc_plant::names::Names;
use std::io::Write;

/// The context of a body: the program type, the action in whose body it lies, and the level of its lines.
#[derive(Drop)]
pub struct BodyContext<'a> {
    pub names: &'a Names<'a>,
    pub own: &'a [u8],
    pub level: usize,
}

// Writes an assignment.
#[tactic(auto, using(crate::proofs::Sunk::puts_then))]
fn put_assignment<W: Write>(at: &BodyContext, target: Variable, value: &Expr, out: &mut Sink<'_, W>)
    ensures { Puts W.contents out.old out.new
        (text.assignment_text at.now.names.now at.now.own.now target (expression_of value.now)) }
{
    out.put(at.names.variable(target));
    out.put(b" := ");
    put_expression(at.names, at.own, value, out);
    out.put(b";");
}

// Writes a condition behind the word of its branch.
#[tactic(auto, using(crate::proofs::Sunk::puts_then))]
fn put_branch_head<W: Write>(at: &BodyContext, word: &[u8], condition: &Expr, out: &mut Sink<'_, W>)
    ensures { Puts W.contents out.old out.new
        (text.branch_head at.now.names.now at.now.own.now word.now (expression_of condition.now)) }
{
    out.put(word);
    put_expression(at.names, at.own, condition, out);
    out.put(b" THEN");
}

// Writes a branch behind this word.
#[cycle(statement)]
#[tactic(auto, using(crate::proofs::Bodies::when_text, crate::proofs::Bodies::otherwise_text, crate::proofs::Sunk::puts_then))]
fn put_branch<W: Write>(at: &BodyContext, word: &[u8], branch: &Branch, out: &mut Sink<'_, W>)
    ensures { let b : _ = tried_before branch.now NoBranch in
        Puts W.contents out.old out.new (text.branches_text at.now.names.now at.now.own.now at.now.level word.now b) }
{
    match branch {
        Branch::When(condition, body) => {
            put_indent(at.level, out);
            put_branch_head(at, word, condition, out);
            out.put(b"\n");
            put_inside(at, body, out);
        }
        Branch::Otherwise(body) => {
            put_line(at.level, &[b"ELSE"], out);
            put_inside(at, body, out);
        }
    }
}

// Writes the statements of a branch, a level deeper. No memory holds a tree deeper than a level can count.
#[cycle(statement)]
fn put_inside<W: Write>(at: &BodyContext, body: &[Statement], out: &mut Sink<'_, W>)
    ensures { Puts W.contents out.old out.new
        (text.body_text at.now.names.now at.now.own.now (at.now.level + 1) (body_of body.now)) }
{
    let Some(level) = at.level.checked_add(1) else {
        out.stop();
        return;
    };
    let inside = BodyContext {
        names: at.names,
        own: at.own,
        level,
    };
    put_statements(&inside, body, out);
}

// Writes the branches of an IF.
#[cycle(statement)]
fn put_branches<W: Write>(at: &BodyContext, branches: &[Branch], out: &mut Sink<'_, W>)
    ensures { Puts W.contents out.old out.new
        (text.branches_text at.now.names.now at.now.own.now at.now.level (codes "IF ") (branches_of branches.now)) }
{
    let mut word: &[u8] = b"IF ";
    for branch in branches {
        put_branch(at, word, branch, out);
        word = b"ELSIF ";
    }
}

// Writes one statement.
#[cycle(statement)]
#[tactic(auto, using(crate::proofs::Bodies::if_text, crate::proofs::Bodies::assign_text, crate::proofs::Sunk::puts_then))]
fn put_statement<W: Write>(at: &BodyContext, statement: &Statement, out: &mut Sink<'_, W>)
    ensures { Puts W.contents out.old out.new
        (statement_text at.now.names.now at.now.own.now at.now.level statement.now) }
{
    match statement {
        Statement::Assign { target, value } => {
            put_indent(at.level, out);
            put_assignment(at, *target, value, out);
            out.put(b"\n");
        }
        Statement::If(branches) => {
            put_branches(at, branches, out);
            put_line(at.level, &[b"END_IF;"], out);
        }
    }
}

/// Writes statements, each on lines of its own.
#[cycle(statement)]
#[tactic(auto, using(crate::proofs::Bodies::body_lines, crate::proofs::Sunk::puts_nothing))]
pub fn put_statements<W: Write>(at: &BodyContext, statements: &[Statement], out: &mut Sink<'_, W>)
    ensures { Puts W.contents out.old out.new
        (text.body_text at.now.names.now at.now.own.now at.now.level (body_of statements.now)) }
{
    for statement in statements {
        put_statement(at, statement, out);
    }
}
