//! Expressions of any type, over a program instance.

use crate::own::view_of;
use crate::sfc_check::check::check;
use crate::sfc_check::scope::Scope;
use crate::sfc_check::type_error::TypeError;
use crate::sfc_instance::scan_fault::ScanFault;
use crate::sfc_load::scope::scope_of;
use crate::shown::{reading_text, type_word, variable_text};
use sfc_base::ids::ProgId;
use sfc_base::ticks::Ticks;
use sfc_base::var_type::VarType;
use sfc_events::read_error::ReadErrorKind;
use sfc_expr::eval::eval;
use sfc_expr::expr::Expr;
use sfc_page::append::append;
use sfc_session::session::Session;
use sfc_text::expression::Expression;
use sfc_text::read_expr::read_expr;
use std::alloc::{AllocError, Global};

/// What an expression is now.
pub enum Evaluated {
    /// Its value as text, and its type.
    Value(Vec<u8>, &'static str),
    /// It is none, or has no value: why.
    Faulty(Vec<u8>),
}

// By hand, so that a caller that drops one proves one call.
impl Drop for Evaluated {
    fn drop(self) {
        match self {
            Evaluated::Value(_, _) | Evaluated::Faulty(_) => {}
        }
    }
}

// That it is none, for this reason.
fn faulty(alloc: Global, reason: &[u8]) -> Result<Evaluated, AllocError> {
    let mut text = Vec::new(alloc);
    append(&mut text, b"no value: ")?;
    append(&mut text, reason)?;
    Ok(Evaluated::Faulty(text))
}

// The name of what an expression is refused for. The error is that memory was refused.
fn type_reason(error: TypeError) -> Result<&'static str, AllocError> {
    match error {
        TypeError::Unknown => Ok("Unknown"),
        TypeError::WrongType => Ok("WrongType"),
        TypeError::LiteralRange => Ok("LiteralRange"),
        TypeError::NotAssignable => Ok("NotAssignable"),
        TypeError::Memory => Err(AllocError),
    }
}

// The value of a typed expression.
fn of_expr(
    alloc: Global,
    session: &Session,
    program: ProgId,
    expr: &Expr,
) -> Result<Evaluated, AllocError> {
    let Some(view) = view_of(session.debugger().resource(), program) else {
        return faulty(alloc, b"UnknownProgram");
    };
    let mut ticks = Ticks::new();
    match eval(expr, &view, &mut ticks) {
        Ok(value) => Ok(Evaluated::Value(
            reading_text(alloc, value, false)?,
            type_word(value.var_type()),
        )),
        Err(fault) => faulty(alloc, ScanFault::Expression(fault).name()),
    }
}

// The types that an expression may have, in the order in which they are tried: a number without a type is a DINT.
const TYPES: [VarType; 4] = [VarType::Dint, VarType::Int, VarType::Bool, VarType::Time];

// The typed expression, of the first type that it may have; else why it has none: what isn't only another type.
fn typed<S: Scope>(
    alloc: Global,
    expression: &Expression,
    scope: &S,
) -> Result<Result<Expr, &'static str>, AllocError> {
    let mut reason = "WrongType";
    for wanted in &TYPES {
        match check(alloc, expression, scope, *wanted) {
            Ok(expr) => return Ok(Ok(expr)),
            Err(error) if error.error() == TypeError::WrongType => {}
            Err(error) => reason = type_reason(error.error())?,
        }
    }
    Ok(Err(reason))
}

// The value of an expression that was read.
fn of_tree(
    alloc: Global,
    session: &Session,
    program: ProgId,
    expression: &Expression,
) -> Result<Evaluated, AllocError> {
    let plant = session.plant();
    if usize::from(program.0) >= plant.instances().len() {
        return faulty(alloc, b"UnknownProgram");
    }
    match typed(alloc, expression, &scope_of(plant, program))? {
        Ok(expr) => of_expr(alloc, session, program, &expr),
        Err(reason) => faulty(alloc, reason.as_bytes()),
    }
}

// The value of a text that is an expression.
fn of_text(
    alloc: Global,
    session: &Session,
    program: ProgId,
    text: &[u8],
) -> Result<Evaluated, AllocError> {
    match read_expr(alloc, text) {
        Ok(expression) => of_tree(alloc, session, program, &expression),
        Err(error) if error.kind == ReadErrorKind::Memory => Err(AllocError),
        Err(error) => faulty(alloc, error.kind.name().as_bytes()),
    }
}

/// What a text is over a program instance after the commands so far: a variable as scripts name it, with whether it is forced, or an
/// expression of any type, with the names of a condition of the instance (3.3). The one error is that memory was refused.
pub fn evaluate(
    alloc: Global,
    session: &Session,
    program: ProgId,
    text: &[u8],
) -> Result<Evaluated, AllocError> {
    let plant = session.plant();
    match plant.find_variable(text) {
        Some(id) => {
            let kind = match plant.variable(id) {
                Some(variable) => type_word(variable.var_type),
                None => "",
            };
            Ok(Evaluated::Value(variable_text(alloc, session, id)?, kind))
        }
        None => of_text(alloc, session, program, text),
    }
}
