//! What is found of a row, in the form in which a table has it.

use crate::ending::Ending;
use crate::names::FixedScope;
use crate::row::{Kind, Row};
use crate::tree;
use crate::values::Values;
use anyhow::{Context, Result};
use sfc_base::ticks::Ticks;
use sfc_base::value::Value;
use sfc_base::var_type::VarType;
use sfc_check::check::check;
use sfc_check::check_body::check_body;
use sfc_check::scope::Scope;
use sfc_expr::eval::eval;
use sfc_expr::exec::exec;
use sfc_expr::view::View;
use sfc_page::time_text::put_time;
use std::alloc::Global;
use std::io::Write;

// The value of an expression that is wanted of a type.
fn value(alloc: Global, text: &str, wanted: VarType) -> Result<Value, Ending> {
    let source = tree::with_condition(alloc, text)?;
    let expression = check(alloc, tree::condition(&source)?, &FixedScope, wanted)?;
    let values = Values::new(alloc)?;
    Ok(eval(&expression, &values, &mut Ticks::new())?)
}

// Executes statements.
fn execute(alloc: Global, text: &str, values: &mut Values) -> Result<(), Ending> {
    let source = tree::with_body(alloc, text)?;
    let statements = check_body(alloc, tree::body(&source)?, &FixedScope)?;
    Ok(exec(&statements, values, &mut Ticks::new())?)
}

// Adds the text of a value.
fn put_value(value: Value, text: &mut Vec<u8>) -> Result<()> {
    match value {
        Value::Bool(true) => write!(text, "TRUE")?,
        Value::Bool(false) => write!(text, "FALSE")?,
        Value::Int(number) => write!(text, "{number}")?,
        Value::Dint(number) => write!(text, "{number}")?,
        Value::Time(micros) => put_time(micros, text)?,
    }
    Ok(())
}

// Adds the value of a variable, `NAME = VALUE`.
fn put_variable(name: &str, values: &Values, text: &mut Vec<u8>) -> Result<()> {
    let (variable, _) = FixedScope
        .variable(name.as_bytes())
        .context(format_args!("there is no variable {name}"))?;
    write!(text, "{name} = ")?;
    put_value(values.value_at(variable), text)
}

// Adds a comma where something stands before it.
fn put_comma(text: &mut Vec<u8>) -> Result<()> {
    if !text.is_empty() {
        write!(text, ", ")?;
    }
    Ok(())
}

// What is found of a body: why it ended early, and the variables that are named in what is wanted.
fn body_found(alloc: Global, row: &Row) -> Result<Vec<u8>> {
    let mut values = Values::new(alloc)?;
    let mut text = Vec::new(alloc);
    if let Err(ending) = execute(alloc, row.text, &mut values) {
        write!(text, "{ending}")?;
    }
    for part in row.wanted.split(", ") {
        if let Some((name, _)) = part.split_once(" = ") {
            put_comma(&mut text)?;
            put_variable(name, &values, &mut text)?;
        }
    }
    Ok(text)
}

/// What is found of a row: a value, a fault or a refusal. Of a body it also has the variables that are named in what is
/// wanted.
pub fn found(alloc: Global, row: &Row) -> Result<Vec<u8>> {
    let wanted = match row.kind {
        Kind::Expression(wanted) => wanted,
        Kind::Body => return body_found(alloc, row),
    };
    let mut text = Vec::new(alloc);
    match value(alloc, row.text, wanted) {
        Ok(value) => put_value(value, &mut text)?,
        Err(ending) => write!(text, "{ending}")?,
    }
    Ok(text)
}
