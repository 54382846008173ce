//! What may be asked for of a document.

/// What may be asked for of a document.
#[derive(Clone, Copy, Debug, PartialEq, Eq)]
pub enum Method {
    Hover,
    Definition,
    References,
    Highlight,
    Symbols,
    Folding,
    Completion,
    Actions,
    Lenses,
    PrepareRename,
    Rename,
    Formatting,
    Tokens,
}

impl Method {
    /// By its name in the protocol.
    pub fn of_word(word: &str) -> Option<Method> {
        match word {
            "textDocument/hover" => Some(Method::Hover),
            "textDocument/definition" => Some(Method::Definition),
            "textDocument/references" => Some(Method::References),
            "textDocument/documentHighlight" => Some(Method::Highlight),
            "textDocument/documentSymbol" => Some(Method::Symbols),
            "textDocument/foldingRange" => Some(Method::Folding),
            "textDocument/completion" => Some(Method::Completion),
            "textDocument/codeAction" => Some(Method::Actions),
            "textDocument/codeLens" => Some(Method::Lenses),
            "textDocument/prepareRename" => Some(Method::PrepareRename),
            "textDocument/rename" => Some(Method::Rename),
            "textDocument/formatting" => Some(Method::Formatting),
            "textDocument/semanticTokens/full" => Some(Method::Tokens),
            _ => None,
        }
    }
}
