//! A client of JSON-RPC, from its first message to its last.

use crate::drip::Drip;
use crate::sfc_frames::incoming::Incoming;
use crate::sfc_frames::outbox::Outbox;
use crate::sfc_frames::outgoing::put_message;
use crate::sfc_frames::serving::{Flow, ServeFault, serve};
use serde_json::Value;
use sfc_wire::error_code::ErrorCode;
use sfc_wire::rpc_message::Call;
use sfc_wire::rpc_outbox::{refuse, respond};
use sfc_wire::rpc_server::{RpcClient, RpcServer};
use std::alloc::{AllocError, Global};
use std::test::Fail;

// It shuts down, and nothing else.
#[derive(Drop)]
struct Shutting {
    alloc: Global,
}

impl RpcServer for Shutting {
    fn request(
        &mut self,
        id: &Value,
        call: Call<'_>,
        outbox: &mut Outbox,
    ) -> Result<(), AllocError> {
        if call.method == "shutdown" {
            return respond(self.alloc, id, Value::Null, outbox);
        }
        refuse(
            self.alloc,
            id,
            ErrorCode::MethodNotFound,
            "no such method",
            outbox,
        )
    }

    fn notification(&mut self, call: Call<'_>, _outbox: &mut Outbox) -> Result<Flow, AllocError> {
        if call.method == "exit" {
            Ok(Flow::Ends)
        } else {
            Ok(Flow::GoesOn)
        }
    }
}

// What a client writes, and what it is told.
const ASKED: [&[u8]; 8] = [
    b"{\"method\":\"shutdown\",\"params\":null,\"jsonrpc\":\"2.0\",\"id\":1,\"trace\":\"off\"}",
    b"{\"jsonrpc\":\"2.0\",\"id\":\"two\",\"method\":\"fly\"}",
    b"{\"jsonrpc\":\"2.0\",\"method\":\"fly\"}",
    b"{\"jsonrpc\":\"2.0\",\"method\":1,\"id\":3}",
    b"{\"jsonrpc\":\"2.0\",\"method\":",
    b"{\"id\":4,\"method\":\"shutdown\"}",
    b"{\"jsonrpc\":\"2.0\",\"id\":5,\"result\":{}}",
    b"{\"jsonrpc\":\"2.0\",\"method\":\"exit\"}",
];

const TOLD: [&[u8]; 5] = [
    b"{\"id\":1,\"jsonrpc\":\"2.0\",\"result\":null}",
    b"{\"error\":{\"code\":-32601,\"message\":\"no such method\"},\"id\":\"two\",\"jsonrpc\":\"2.0\"}",
    b"{\"error\":{\"code\":-32600,\"message\":\"this is no message of JSON-RPC\"},\"id\":3,\"jsonrpc\":\"2.0\"}",
    b"{\"error\":{\"code\":-32700,\"message\":\"this is no JSON\"},\"id\":null,\"jsonrpc\":\"2.0\"}",
    b"{\"error\":{\"code\":-32600,\"message\":\"this is no message of JSON-RPC\"},\"id\":4,\"jsonrpc\":\"2.0\"}",
];

// The frames of messages.
fn frames(alloc: Global, messages: &[&[u8]]) -> Result<Vec<u8>, Fail> {
    let mut bytes = Vec::new(alloc);
    for message in messages {
        put_message(&mut bytes, message)?;
    }
    Ok(bytes)
}

// How a client is left that writes these bytes, at most so many at a time; what it is told goes to `told`.
fn talk(alloc: Global, asked: &[u8], most: usize, told: &mut Vec<u8>) -> Result<Flow, ServeFault> {
    let mut client = RpcClient::new(alloc, Shutting { alloc });
    let mut incoming = Incoming::new(alloc);
    let mut reader = Drip::new(asked, most);
    serve(alloc, &mut client, &mut incoming, &mut reader, told)
}

#[test]
fn each_request_has_its_response(rt: HostRuntime) -> Result<(), Fail> {
    let asked = frames(rt.alloc(), &ASKED)?;
    let wanted = frames(rt.alloc(), &TOLD)?;
    for most in [1, 7, 4096] {
        let mut told = Vec::new(rt.alloc());
        assert_eq!(rt; talk(rt.alloc(), &asked, most, &mut told), Ok(Flow::Ends));
        assert_eq!(rt; told.as_slice(), wanted.as_slice(), "{most}");
    }
    Ok(())
}

#[test]
fn a_client_may_leave_without_a_word(rt: HostRuntime) -> Result<(), Fail> {
    let asked = frames(rt.alloc(), &ASKED[..1])?;
    let wanted = frames(rt.alloc(), &TOLD[..1])?;
    let mut told = Vec::new(rt.alloc());
    assert_eq!(rt; talk(rt.alloc(), &asked, 4096, &mut told), Ok(Flow::GoesOn));
    assert_eq!(rt; told.as_slice(), wanted.as_slice());
    Ok(())
}
