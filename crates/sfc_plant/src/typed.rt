//! Conditions and bodies that contracts compare by their trees (3.3).

use sfc_expr::expr::Expr;
use sfc_expr::statement::Statement;
use std::alloc::{AllocError, Global};
use std::marker::Model;

/// The condition of a transition (2.6.3). Contracts see its typed tree.
#[derive(Debug)]
pub struct Condition {
    expr: Expr,
}

// By hand, so that a caller that drops one proves one call.
impl Drop for Condition {
    fn drop(self) {
        let Condition { expr: _ } = self;
    }
}

impl Model for Condition {
    ghost use Rattle.sfc_expr.specs.Trees.{Expression, expression_of};
    ghost use Rattle.std.specs.Prelude.{List};
    ghost use Rattle.std.specs.Coded.{codes, code_by};
    ghost use Rattle.sfc_plant.specs.Codes.Postfix.{Node, postfix, from_postfix, from_postfix_back};

    ghost Value = { Expression };

    ghost coded = { code_by (List Node) (Prim.hlevel codes) postfix from_postfix from_postfix_back };

    ghost view = { λ condition. expression_of condition.expr };
}

/// The statements of an action (2.6.4.1). Contracts see their typed trees.
#[derive(Debug)]
pub struct Statements {
    statements: Vec<Statement>,
}

// By hand, so that a caller that drops one proves one call.
impl Drop for Statements {
    fn drop(self) {
        let Statements { statements: _ } = self;
    }
}

impl Model for Statements {
    ghost use Rattle.sfc_expr.specs.Trees.{Body, body_of};
    ghost use Rattle.std.specs.Prelude.{List};
    ghost use Rattle.std.specs.Coded.{codes, code_by};
    ghost use Rattle.sfc_plant.specs.Codes.Bodies.{Mark, marks, from_marks, from_marks_back};

    ghost Value = { Body };

    ghost coded = { code_by (List Mark) (Prim.hlevel codes) marks from_marks from_marks_back };

    ghost view = { λ body. body_of body.statements.items };
}

ghost use Rattle.std.specs.Prelude.{◌≡◌, IfOk};
ghost use Rattle.sfc_expr.specs.Trees.{expression_of, body_of};

impl Condition {
    /// The expression as a condition.
    pub fn new(expr: Expr) -> Condition
        ensures { result ≡ expression_of expr }
    {
        Condition { expr }
    }

    /// The expression that it is.
    pub fn expr(&self) -> &Expr
        ensures { expression_of result.now ≡ self.now }
    {
        &self.expr
    }

    /// The same condition once more. The one error is that memory was refused.
    pub fn copy(&self, alloc: Global) -> Result<Condition, AllocError>
        ensures { IfOk result (λ copy. copy ≡ self.now) }
    {
        Ok(Condition {
            expr: self.expr.copy(alloc)?,
        })
    }
}

impl Statements {
    /// The statements as a body.
    pub fn new(statements: Vec<Statement>) -> Statements
        ensures { result ≡ body_of statements.items }
    {
        Statements { statements }
    }

    /// The statements, in text order.
    pub fn as_slice(&self) -> &[Statement]
        ensures { body_of result.now ≡ self.now }
    {
        self.statements.as_slice()
    }
}
