//! What a request is answered.

use serde_json::Value;
use sfc_responses::symbol::{Group, Located};
use sfc_wire::error_code::ErrorCode;

/// What a request is answered.
#[derive(Drop)]
pub enum Answer {
    /// It was done: what it gave.
    Done(Value),
    /// It was done: what the document declares.
    Symbols(Vec<Group>),
    /// It was done: what documents declare.
    List(Vec<Located>),
    /// It was done: numbers under the name `data`.
    Data(Vec<usize>),
    /// It was not, for a reason.
    Refused(ErrorCode, &'static str),
}

impl Answer {
    /// There is nothing to answer.
    pub fn nothing() -> Answer {
        Answer::Done(Value::Null)
    }

    /// The parameters are not those of the method.
    pub fn wrong() -> Answer {
        Answer::Refused(
            ErrorCode::InvalidParams,
            "these are no parameters of this method",
        )
    }
}
