//! Texts of messages, put behind what a client is to be told.

ghost use Rattle.std.specs.Prelude.{◌≡◌, ◌≤◌, OnErr, OnOk};
ghost use Rattle.serde_json.specs.Data.{depth};
ghost use Rattle.serde_json.specs.View.{view};
ghost use Rattle.sfc_wire.specs.Texts.{PutsMessage};

use serde_json::Value;
use sfc_frames::outbox::Outbox;
use std::alloc::{AllocError, Global};

/// Puts the text of a message. The one error is that memory was refused; then nothing was put.
pub fn put(alloc: Global, message: &Value, outbox: &mut Outbox) -> Result<(), AllocError>
    requires { depth (view message.now) ≤ 127 }
    ensures put { OnOk result (PutsMessage outbox.old outbox.new (view message.now)) }
    ensures unchanged { OnErr result (outbox.new ≡ outbox.old) }
{
    let text = message.to_vec(alloc)?;
    outbox.put(text)
}
