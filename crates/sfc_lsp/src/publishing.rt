//! Faults and warnings, as they are published.

use crate::documents::Document;
use crate::values::{range_value, text_value};
use serde_json::{Value, json};
use sfc_names::diagnostic::{Diagnostic, Severity};
use std::alloc::{AllocError, Global};

// The number of the protocol for how bad it is.
fn severity_number(severity: Severity) -> u32 {
    match severity {
        Severity::Error => 1,
        Severity::Warning => 2,
    }
}

// A fault or a warning.
fn diagnostic_value(
    alloc: Global,
    document: &Document,
    diagnostic: &Diagnostic,
) -> Result<Value, AllocError> {
    let range = range_value(alloc, document, diagnostic.span)?;
    let code = text_value(alloc, &diagnostic.code)?;
    let message = text_value(alloc, &diagnostic.message)?;
    let tags = if diagnostic.is_unused {
        json!(in alloc; [1])?
    } else {
        json!(in alloc; [])?
    };
    json!(in alloc; {
        "code": code,
        "message": message,
        "range": range,
        "severity": (severity_number(diagnostic.severity)),
        "source": (diagnostic.origin.name()),
        "tags": tags
    })
}

// Faults and warnings.
fn list_value(
    alloc: Global,
    document: &Document,
    diagnostics: &[Diagnostic],
) -> Result<Value, AllocError> {
    let mut list = Vec::new(alloc);
    for diagnostic in diagnostics {
        list.push(diagnostic_value(alloc, document, diagnostic)?)?;
    }
    Ok(Value::Array(list))
}

/// What is published of a document. The one error is that memory was refused.
pub fn published_value(
    alloc: Global,
    uri: &str,
    document: &Document,
    diagnostics: &[Diagnostic],
) -> Result<Value, AllocError> {
    let list = list_value(alloc, document, diagnostics)?;
    match document.heading.version {
        Some(version) => json!(in alloc; {"diagnostics": list, "uri": uri, "version": version}),
        None => json!(in alloc; {"diagnostics": list, "uri": uri}),
    }
}

/// That there is nothing to tell of a document. The one error is that memory was refused.
pub fn cleared_value(alloc: Global, uri: &str) -> Result<Value, AllocError> {
    json!(in alloc; {"diagnostics": [], "uri": uri})
}
