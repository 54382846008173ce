//! Faults and warnings as editors show them.

use sfc_places::span::Span;

/// How bad it is.
#[derive(Clone, Copy, Debug, PartialEq, Eq)]
pub enum Severity {
    Error,
    Warning,
}

/// What tells of a fault or of a warning.
#[derive(Clone, Copy, Debug, PartialEq, Eq)]
pub enum Origin {
    /// What reads and loads texts.
    Reading,
    Lint,
}

impl Origin {
    /// Its name.
    pub fn name(self) -> &'static str {
        match self {
            Origin::Reading => "sfcmon",
            Origin::Lint => "sfcmon lint",
        }
    }
}

/// A fault or a warning of a text.
pub struct Diagnostic {
    /// The bytes of the text that it is told of.
    pub span: Span,
    pub severity: Severity,
    /// Its number and its name.
    pub code: Vec<u8>,
    /// What tells it.
    pub origin: Origin,
    /// What is wrong, in lines.
    pub message: Vec<u8>,
    /// Whether it is told of what could be left out.
    pub is_unused: bool,
}

// By hand, so that a caller that drops one proves one call.
impl Drop for Diagnostic {
    fn drop(self) {
        let Diagnostic {
            span: _,
            severity: _,
            code: _,
            origin: _,
            message: _,
            is_unused: _,
        } = self;
    }
}
