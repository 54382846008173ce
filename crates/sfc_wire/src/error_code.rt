//! The errors of JSON-RPC, and those of the Language Server Protocol that a server here answers.

ghost use Rattle.std.specs.Prelude.{◌≡◌};
ghost use Rattle.sfc_wire.specs.Errors.{number_of};

/// Why a request was not done.
#[derive(Clone, Copy, Debug, PartialEq, Eq)]
pub enum ErrorCode {
    /// The message is no JSON.
    ParseError,
    /// The message is no request of the protocol.
    InvalidRequest,
    /// There is no such method.
    MethodNotFound,
    /// The parameters are not those of the method.
    InvalidParams,
    /// The server could not do it.
    InternalError,
    /// A request came before the first `initialize`.
    ServerNotInitialized,
    /// The client cancelled it.
    RequestCancelled,
}

impl ErrorCode {
    /// The number that a response has.
    pub fn number(self) -> i32
        ensures { result ≡ number_of self }
    {
        match self {
            ErrorCode::ParseError => -32700,
            ErrorCode::InvalidRequest => -32600,
            ErrorCode::MethodNotFound => -32601,
            ErrorCode::InvalidParams => -32602,
            ErrorCode::InternalError => -32603,
            ErrorCode::ServerNotInitialized => -32002,
            ErrorCode::RequestCancelled => -32800,
        }
    }
}
