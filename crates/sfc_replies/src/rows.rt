//! A list of objects, or of texts and numbers.

ghost use Rattle.std.specs.Prelude.{◌≤◌};
ghost use Rattle.serde_json.specs.Data.{depth, items_depth};
ghost use Rattle.serde_json.specs.View.{items_view, view};

use crate::row::Row;
use serde_json::{Value, push};
use std::alloc::{AllocError, Global};

/// A list of objects, or of texts and numbers.
pub struct Rows {
    alloc: Global,
    items: Vec<Value>,
    ghost shallow: { items_depth (items_view items.items) ≤ 2 },
}

// By hand, so that a caller that drops one proves one call.
impl Drop for Rows {
    fn drop(self) {
        let Rows { alloc: _, items: _ } = self;
    }
}

impl Rows {
    ghost use Rattle.std.specs.Prelude.{◌≤◌};
    ghost use Rattle.serde_json.specs.Data.{depth, items_depth};
    ghost use Rattle.serde_json.specs.View.{items_view, view};

    /// An empty list.
    pub fn new(alloc: Global) -> Rows {
        Rows {
            alloc,
            items: Vec::new(alloc),
        }
    }

    // With one item more.
    #[tactic(auto, using(crate::proofs::Depths::deep_item))]
    fn with(self, value: Value) -> Result<Rows, AllocError>
        requires { depth (view value) ≤ 2 }
    {
        let Rows { alloc, mut items } = self;
        push(&mut items, value)?;
        Ok(Rows { alloc, items })
    }

    /// With an object more. The one error is that memory was refused; so it is of each call below.
    pub fn row(self, row: Row) -> Result<Rows, AllocError> {
        self.with(row.value())
    }

    /// With a number more.
    pub fn number(self, number: u64) -> Result<Rows, AllocError> {
        self.with(Value::from(number))
    }

    /// With a text more.
    pub fn text(self, text: &str) -> Result<Rows, AllocError> {
        let text = String::from_str(self.alloc, text)?;
        self.with(Value::String(text))
    }

    /// The list.
    pub fn value(self) -> Value
        ensures { depth (view result) ≤ 3 }
    {
        let Rows { alloc: _, items } = self;
        Value::Array(items)
    }
}
