//! Responses, notifications and requests of JSON-RPC. The one error of each call is that memory was refused.

ghost use Rattle.std.specs.Prelude.{◌≡◌, IfOk};
ghost use Rattle.serde_json.specs.View.{view};
ghost use Rattle.sfc_wire.specs.RpcAnswers as answers;

use crate::error_code::ErrorCode;
use serde_json::{Value, json};
use std::alloc::{AllocError, Global};

/// The response to the request with this id that was done.
pub fn success(alloc: Global, id: &Value, value: Value) -> Result<Value, AllocError>
    ensures { IfOk result (λ message. view message ≡ answers.success_of (view id.now) (view value)) }
{
    json!(in alloc; {"id": id, "jsonrpc": "2.0", "result": value})
}

/// The response to the request with this id that was not done, for a reason. The id is null where it isn't known.
pub fn failure(
    alloc: Global,
    id: &Value,
    code: ErrorCode,
    reason: &str,
) -> Result<Value, AllocError>
    ensures { IfOk result (λ message. view message ≡ answers.failure_of (view id.now) code reason.now) }
{
    json!(in alloc; {
        "error": {"code": (code.number()), "message": reason},
        "id": id,
        "jsonrpc": "2.0"
    })
}

/// What is told to a client.
pub fn notification(alloc: Global, method: &str, params: Value) -> Result<Value, AllocError>
    ensures { IfOk result (λ message. view message ≡ answers.notification_of method.now (view params)) }
{
    json!(in alloc; {"jsonrpc": "2.0", "method": method, "params": params})
}

/// What a client is asked for, under this id.
pub fn request(alloc: Global, id: u64, method: &str, params: Value) -> Result<Value, AllocError>
    ensures { IfOk result (λ message. view message ≡ answers.request_of id method.now (view params)) }
{
    json!(in alloc; {"id": id, "jsonrpc": "2.0", "method": method, "params": params})
}
