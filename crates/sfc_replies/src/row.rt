//! An object of texts, numbers and flags.

ghost use Rattle.std.specs.Prelude.{◌≤◌, IfOk};
ghost use Rattle.serde_json.specs.Data.{depth, members_depth};
ghost use Rattle.serde_json.specs.View.{members_view, view};

use serde_json::{Map, Value, json, put};
use std::alloc::{AllocError, Global};

/// An object of texts, numbers and flags, and maybe of objects of these.
pub struct Row {
    alloc: Global,
    members: Map<String, Value>,
    ghost shallow: { members_depth (members_view members.entries) ≤ 1 },
}

// By hand, so that a caller that drops one proves one call.
impl Drop for Row {
    fn drop(self) {
        let Row {
            alloc: _,
            members: _,
        } = self;
    }
}

// A file, by its name and its path.
fn source(alloc: Global, name: &str, path: &str) -> Result<Value, AllocError>
    ensures { IfOk result (λ value. depth (view value) ≤ 1) }
{
    json!(in alloc; {"name": name, "path": path})
}

impl Row {
    ghost use Rattle.std.specs.Prelude.{◌≤◌};
    ghost use Rattle.serde_json.specs.Data.{depth, members_depth};
    ghost use Rattle.serde_json.specs.View.{members_view, view};

    /// An object without members.
    pub fn new(alloc: Global) -> Row {
        Row {
            alloc,
            members: Map::new(alloc),
        }
    }

    // With one member more.
    #[tactic(auto, using(crate::proofs::Depths::deep_member))]
    fn with(self, name: &str, value: Value) -> Result<Row, AllocError>
        requires { depth (view value) ≤ 1 }
    {
        let Row { alloc, mut members } = self;
        put(&mut members, alloc, name, value)?;
        Ok(Row { alloc, members })
    }

    /// With a text under this name. The one error is that memory was refused; so it is of each call below.
    pub fn text(self, name: &str, text: &str) -> Result<Row, AllocError> {
        let text = String::from_str(self.alloc, text)?;
        self.with(name, Value::String(text))
    }

    /// With bytes as a text under this name; what is no UTF-8 in them is shown as U+FFFD.
    pub fn bytes(self, name: &str, bytes: &[u8]) -> Result<Row, AllocError> {
        let text = String::from_utf8_lossy(self.alloc, bytes)?;
        self.with(name, Value::String(text))
    }

    /// With a number under this name.
    pub fn number(self, name: &str, number: u64) -> Result<Row, AllocError> {
        self.with(name, Value::from(number))
    }

    /// With a flag under this name.
    pub fn flag(self, name: &str, flag: bool) -> Result<Row, AllocError> {
        self.with(name, Value::Bool(flag))
    }

    /// With nothing under this name.
    pub fn null(self, name: &str) -> Result<Row, AllocError> {
        self.with(name, Value::Null)
    }

    /// With a file, by its name and its path, under `source`.
    pub fn source(self, name: &str, path: &str) -> Result<Row, AllocError> {
        let value = source(self.alloc, name, path)?;
        self.with("source", value)
    }

    /// The object.
    pub fn value(self) -> Value
        ensures { depth (view result) ≤ 2 }
    {
        let Row { alloc: _, members } = self;
        Value::Object(members)
    }
}
