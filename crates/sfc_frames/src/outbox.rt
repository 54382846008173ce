//! Messages for a client, in the order in which they go out.

ghost use Rattle.std.specs.Prelude.{◌≡◌, [], ◌∷◌, ◌++◌, ℕ, List, OnErr, OnOk};
ghost use Rattle.std.specs.List.{flat_map};
ghost use Rattle.sfc_base.specs.Writing.{Writes};
ghost use Rattle.sfc_frames.specs.Frames.{frame};
ghost use Rattle.sfc_frames.specs.Private.Texts.{texts};

use crate::frame_fault::PutFault;
use crate::outgoing::put_message;
use std::alloc::{AllocError, Global};
use std::io::Write;
use std::marker::Model;

// Writes messages as frames, one after the other.
fn put_messages<W: Write>(writer: &mut W, messages: &[Vec<u8>]) -> Result<(), PutFault>
    ensures { Writes (W.contents writer.old) (W.contents writer.new) result (flat_map frame (texts messages.now)) }
{
    let mut rest = messages;
    'messages: while let Some((message, behind)) = rest.split_first() {
        put_message(writer, message)?;
        rest = behind;
    }
    Ok(())
}

/// Messages for a client, in the order in which they go out.
pub struct Outbox {
    messages: Vec<Vec<u8>>,
}

// By hand, so that a caller that drops one proves one call.
impl Drop for Outbox {
    fn drop(self) {
        let Outbox { messages: _ } = self;
    }
}

impl Model for Outbox {
    ghost Value = { List (List ℕ) };

    ghost view = { λ outbox. texts outbox.messages.items };
}

impl Outbox {
    /// There are none.
    pub fn new(alloc: Global) -> Outbox
        ensures { result ≡ [] }
    {
        Outbox {
            messages: Vec::new(alloc),
        }
    }

    /// Puts a message at the end. The one error is that memory was refused.
    pub fn put(&mut self, message: Vec<u8>) -> Result<(), AllocError>
        ensures put { OnOk result (self.new ≡ self.old ++ message.items ∷ []) }
        ensures unchanged { OnErr result (self.new ≡ self.old) }
    {
        self.messages.push(message)?;
        Ok(())
    }

    /// Writes all of them as frames, and none is left. After a fault a front of these frames was written, and all are left.
    pub fn send<W: Write>(&mut self, writer: &mut W) -> Result<(), PutFault>
        ensures written { Writes (W.contents writer.old) (W.contents writer.new) result (flat_map frame self.old) }
        ensures none { OnOk result (self.new ≡ []) }
        ensures unchanged { OnErr result (self.new ≡ self.old) }
    {
        put_messages(writer, &self.messages)?;
        self.messages.clear();
        Ok(())
    }
}
