//! Responses, notifications and requests of JSON-RPC, put behind what a client is to be told. The one error of each call is
//! that memory was refused; then nothing was put.

ghost use Rattle.std.specs.Prelude.{◌≡◌, ◌≤◌, OnErr, OnOk};
ghost use Rattle.serde_json.specs.Data.{depth};
ghost use Rattle.serde_json.specs.View.{view};
ghost use Rattle.sfc_frames.specs.Serving.{Puts};
ghost use Rattle.sfc_wire.specs.Rpc.{IsId};
ghost use Rattle.sfc_wire.specs.RpcAnswered.{AreCalls, Responds};
ghost use Rattle.sfc_wire.specs.RpcAnswers as answers;
ghost use Rattle.sfc_wire.specs.Texts.{PutsMessage};

use crate::error_code::ErrorCode;
use crate::rpc_answer::{failure, notification, request, success};
use crate::texts::put;
use serde_json::Value;
use sfc_frames::outbox::Outbox;
use std::alloc::{AllocError, Global};

/// Puts the response to what was asked for under this id and done, with what it gave.
pub fn respond(
    alloc: Global,
    id: &Value,
    value: Value,
    outbox: &mut Outbox,
) -> Result<(), AllocError>
    requires id { IsId (view id.now) }
    requires depth { depth (view value) ≤ 100 }
    ensures put { OnOk result (PutsMessage outbox.old outbox.new (answers.success_of (view id.now) (view value))) }
    ensures responds { OnOk result (Puts outbox.old outbox.new (Responds (view id.now))) }
    ensures unchanged { OnErr result (outbox.new ≡ outbox.old) }
{
    let message = success(alloc, id, value)?;
    put(alloc, &message, outbox)?;
    Ok(())
}

/// Puts the response to what was asked for under this id and not done, for a reason.
pub fn refuse(
    alloc: Global,
    id: &Value,
    code: ErrorCode,
    reason: &str,
    outbox: &mut Outbox,
) -> Result<(), AllocError>
    requires { IsId (view id.now) }
    ensures put { OnOk result (PutsMessage outbox.old outbox.new (answers.failure_of (view id.now) code reason.now)) }
    ensures responds { OnOk result (Puts outbox.old outbox.new (Responds (view id.now))) }
    ensures unchanged { OnErr result (outbox.new ≡ outbox.old) }
{
    let message = failure(alloc, id, code, reason)?;
    put(alloc, &message, outbox)?;
    Ok(())
}

/// Puts a notification.
pub fn tell(
    alloc: Global,
    method: &str,
    params: Value,
    outbox: &mut Outbox,
) -> Result<(), AllocError>
    requires { depth (view params) ≤ 100 }
    ensures put { OnOk result (PutsMessage outbox.old outbox.new (answers.notification_of method.now (view params))) }
    ensures calls { OnOk result (Puts outbox.old outbox.new AreCalls) }
    ensures unchanged { OnErr result (outbox.new ≡ outbox.old) }
{
    let message = notification(alloc, method, params)?;
    put(alloc, &message, outbox)?;
    Ok(())
}

/// Puts a request, under this id.
pub fn ask(
    alloc: Global,
    id: u64,
    method: &str,
    params: Value,
    outbox: &mut Outbox,
) -> Result<(), AllocError>
    requires { depth (view params) ≤ 100 }
    ensures put { OnOk result (PutsMessage outbox.old outbox.new (answers.request_of id method.now (view params))) }
    ensures calls { OnOk result (Puts outbox.old outbox.new AreCalls) }
    ensures unchanged { OnErr result (outbox.new ≡ outbox.old) }
{
    let message = request(alloc, id, method, params)?;
    put(alloc, &message, outbox)?;
    Ok(())
}
