//! The body of a response or an event.

ghost use Rattle.std.specs.Prelude.{◌≤◌};
ghost use Rattle.serde_json.specs.Data.{depth, members_depth};
ghost use Rattle.serde_json.specs.View.{members_view, view};

use crate::row::Row;
use crate::rows::Rows;
use serde_json::{Map, Value, put};
use std::alloc::{AllocError, Global};

/// The body of a response or an event: an object of texts, numbers and flags, and of lists of such objects.
pub struct Body {
    alloc: Global,
    members: Map<String, Value>,
    ghost shallow: { members_depth (members_view members.entries) ≤ 90 },
}

// By hand, so that a caller that drops one proves one call.
impl Drop for Body {
    fn drop(self) {
        let Body {
            alloc: _,
            members: _,
        } = self;
    }
}

impl Body {
    ghost use Rattle.std.specs.Prelude.{◌≤◌};
    ghost use Rattle.serde_json.specs.Data.{depth, members_depth};
    ghost use Rattle.serde_json.specs.View.{members_view, view};

    /// An object without members.
    pub fn new(alloc: Global) -> Body {
        Body {
            alloc,
            members: Map::new(alloc),
        }
    }

    // With one member more.
    #[tactic(auto, using(crate::proofs::Depths::deep_member))]
    fn with(self, name: &str, value: Value) -> Result<Body, AllocError>
        requires { depth (view value) ≤ 90 }
    {
        let Body { alloc, mut members } = self;
        put(&mut members, alloc, name, value)?;
        Ok(Body { alloc, members })
    }

    /// With a list under this name. The one error is that memory was refused; so it is of each call below.
    pub fn rows(self, name: &str, rows: Rows) -> Result<Body, AllocError> {
        self.with(name, rows.value())
    }

    /// With an object under this name.
    pub fn row(self, name: &str, row: Row) -> Result<Body, AllocError> {
        self.with(name, row.value())
    }

    /// With a text under this name.
    pub fn text(self, name: &str, text: &str) -> Result<Body, AllocError> {
        let text = String::from_str(self.alloc, text)?;
        self.with(name, Value::String(text))
    }

    /// With bytes as a text under this name; what is no UTF-8 in them is shown as U+FFFD.
    pub fn bytes(self, name: &str, bytes: &[u8]) -> Result<Body, AllocError> {
        let text = String::from_utf8_lossy(self.alloc, bytes)?;
        self.with(name, Value::String(text))
    }

    /// With a number under this name.
    pub fn number(self, name: &str, number: u64) -> Result<Body, AllocError> {
        self.with(name, Value::from(number))
    }

    /// With a flag under this name.
    pub fn flag(self, name: &str, flag: bool) -> Result<Body, AllocError> {
        self.with(name, Value::Bool(flag))
    }

    /// With nothing under this name.
    pub fn null(self, name: &str) -> Result<Body, AllocError> {
        self.with(name, Value::Null)
    }

    /// The object.
    pub fn value(self) -> Value
        ensures { depth (view result) ≤ 100 }
    {
        let Body { alloc: _, members } = self;
        Value::Object(members)
    }
}
