//! What a client can show.

use crate::params::{is_set, member};
use serde_json::Value;

/// What a client can show.
#[derive(Clone, Copy, Debug, PartialEq, Eq)]
pub struct Client {
    /// Texts as markdown.
    pub has_markdown: bool,
    /// Symbols that hold others.
    pub has_inner_symbols: bool,
}

// Whether one of the texts of a list is `markdown`.
fn names_markdown(formats: Option<&Value>) -> bool {
    let Some(Value::Array(formats)) = formats else {
        return false;
    };
    formats
        .iter()
        .any(|format| format.as_str() == Some("markdown"))
}

impl Client {
    /// One that said nothing of itself.
    pub fn plain() -> Client {
        Client {
            has_markdown: false,
            has_inner_symbols: false,
        }
    }

    /// As it says in the parameters of `initialize`.
    pub fn of_params(params: Option<&Value>) -> Client {
        let document = member(member(params, "capabilities"), "textDocument");
        let symbols = member(document, "documentSymbol");
        Client {
            has_markdown: names_markdown(member(member(document, "hover"), "contentFormat")),
            has_inner_symbols: is_set(symbols, "hierarchicalDocumentSymbolSupport"),
        }
    }
}
