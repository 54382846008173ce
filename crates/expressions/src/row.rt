//! A line of a table.

use anyhow::{Context, Result, bail};
use sfc_base::var_type::VarType;

/// What the text of a row is.
#[derive(Clone, Copy)]
pub enum Kind {
    /// An expression that is wanted of a type.
    Expression(VarType),
    /// Statements.
    Body,
}

/// A row: a text, and what is wanted of it.
#[derive(Clone, Copy)]
pub struct Row<'a> {
    pub kind: Kind,
    pub text: &'a str,
    pub wanted: &'a str,
}

// What the first field says.
fn kind_of(word: &str) -> Result<Kind> {
    Ok(match word {
        "BOOL" => Kind::Expression(VarType::Bool),
        "INT" => Kind::Expression(VarType::Int),
        "DINT" => Kind::Expression(VarType::Dint),
        "TIME" => Kind::Expression(VarType::Time),
        "body" => Kind::Body,
        _ => bail!("there is no type {word}"),
    })
}

impl Row<'_> {
    /// The row of a line; none of an empty line and of one that begins with `#`.
    pub fn of_line(line: &str) -> Result<Option<Row<'_>>> {
        if line.is_empty() || line.starts_with('#') {
            return Ok(None);
        }
        let (word, rest) = line.split_once(" | ").context("a row has three fields")?;
        let (text, wanted) = rest.split_once(" | ").context("a row has three fields")?;
        Ok(Some(Row {
            kind: kind_of(word.trim())?,
            text: text.trim(),
            wanted: wanted.trim(),
        }))
    }
}
