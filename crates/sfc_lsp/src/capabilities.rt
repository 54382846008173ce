//! What the server can do.

use serde_json::{Value, json};
use std::alloc::{AllocError, Global};

// How texts are kept the same: each change as it is sent.
fn sync_value(alloc: Global) -> Result<Value, AllocError> {
    json!(in alloc; {"change": 2, "openClose": true, "save": true})
}

// The words for kinds of words, in the order of their numbers.
fn legend_value(alloc: Global) -> Result<Value, AllocError> {
    let types = json!(in alloc; [
        "keyword", "number", "operator", "comment", "variable", "property", "event", "function",
        "class", "namespace"
    ])?;
    json!(in alloc; {"tokenModifiers": [], "tokenTypes": types})
}

// What is known of kinds of words.
fn tokens_value(alloc: Global) -> Result<Value, AllocError> {
    let legend = legend_value(alloc)?;
    json!(in alloc; {"full": true, "legend": legend, "range": false})
}

// What is known of completion, of actions and of names.
fn helps_value(alloc: Global) -> Result<Value, AllocError> {
    json!(in alloc; {
        "codeActionProvider": {"codeActionKinds": ["quickfix"]},
        "codeLensProvider": {"resolveProvider": false},
        "completionProvider": {"triggerCharacters": [".", "("]},
        "documentFormattingProvider": true,
        "foldingRangeProvider": true,
        "renameProvider": {"prepareProvider": true}
    })
}

// What is known of places.
fn places_value(alloc: Global) -> Result<Value, AllocError> {
    json!(in alloc; {
        "definitionProvider": true,
        "documentHighlightProvider": true,
        "documentSymbolProvider": true,
        "hoverProvider": true,
        "referencesProvider": true,
        "workspaceSymbolProvider": true
    })
}

// Puts the members of one object into another one.
fn merge(into: &mut Value, from: Value) -> Result<(), AllocError> {
    let (Some(members), Value::Object(more)) = (into.as_object_mut(), from) else {
        return Ok(());
    };
    for (name, value) in more {
        members.insert(name, value)?;
    }
    Ok(())
}

/// What the server can do, for the response to `initialize`. The one error is that memory was refused.
pub fn capabilities_value(alloc: Global) -> Result<Value, AllocError> {
    let sync = sync_value(alloc)?;
    let tokens = tokens_value(alloc)?;
    let mut all = json!(in alloc; {
        "positionEncoding": "utf-16",
        "semanticTokensProvider": tokens,
        "textDocumentSync": sync
    })?;
    merge(&mut all, helps_value(alloc)?)?;
    merge(&mut all, places_value(alloc)?)?;
    json!(in alloc; {"capabilities": all, "serverInfo": {"name": "sfcmon"}})
}
