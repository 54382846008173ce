//! Responses and events of the Debug Adapter Protocol. The one error of each call is that memory was refused.

ghost use Rattle.std.specs.Prelude.{◌≡◌, IfOk};
ghost use Rattle.serde_json.specs.View.{view};
ghost use Rattle.sfc_wire.specs.Dap as dap;

use crate::dap_request::Request;
use serde_json::{Value, json};
use std::alloc::{AllocError, Global};

/// The response, with this number, to a request that was done, with this body.
pub fn success(
    alloc: Global,
    seq: u64,
    request: Request<'_>,
    value: Value,
) -> Result<Value, AllocError>
    ensures { IfOk result (λ message. view message ≡ dap.success_of seq request.entry.seq request.entry.command.now (view value)) }
{
    json!(in alloc; {
        "body": value,
        "command": request.command,
        "request_seq": request.seq,
        "seq": seq,
        "success": true,
        "type": "response"
    })
}

/// The response, with this number, to a request that was not done, for a reason.
pub fn failure(
    alloc: Global,
    seq: u64,
    request: Request<'_>,
    reason: &str,
) -> Result<Value, AllocError>
    ensures { IfOk result (λ message. view message ≡ dap.failure_of seq request.entry.seq request.entry.command.now reason.now) }
{
    json!(in alloc; {
        "body": {"error": {"format": "{reason}", "id": 1, "variables": {"reason": reason}}},
        "command": request.command,
        "message": reason,
        "request_seq": request.seq,
        "seq": seq,
        "success": false,
        "type": "response"
    })
}

/// An event, with this number.
pub fn event(alloc: Global, seq: u64, event: &str, value: Value) -> Result<Value, AllocError>
    ensures { IfOk result (λ message. view message ≡ dap.event_of seq event.now (view value)) }
{
    json!(in alloc; {"body": value, "event": event, "seq": seq, "type": "event"})
}
