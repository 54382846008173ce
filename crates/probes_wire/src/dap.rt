//! Messages of the Debug Adapter Protocol.

use serde_json::Value;
use sfc_wire::dap_answer::{event, failure, success};
use sfc_wire::dap_request::request_of;
use std::alloc::Global;
use std::process::Abort;
use std::test::Fail;

#[test]
fn a_request_is_read_whatever_the_order(rt: HostRuntime) -> Result<(), Fail> {
    let text =
        "{\"arguments\":{\"threadId\":3},\"command\":\"next\",\"other\":[],\"type\":\"request\",\"seq\":153}";
    let message = Value::from_str(rt.alloc(), text)?;
    let request = request_of(&message).ok_or("no request")?;
    assert_eq!(rt; request.seq, 153);
    assert!(rt; request.command == "next");
    let thread = request
        .arguments
        .and_then(|arguments| arguments.get("threadId"));
    assert_eq!(rt; thread.and_then(Value::as_u64), Some(3));
    Ok(())
}

#[test]
fn other_messages_are_no_requests(rt: HostRuntime) -> Result<(), Fail> {
    let texts = [
        "{\"seq\":1,\"type\":\"event\",\"event\":\"stopped\"}",
        "{\"seq\":1,\"type\":\"request\"}",
        "{\"seq\":-1,\"type\":\"request\",\"command\":\"next\"}",
        "{\"seq\":\"1\",\"type\":\"request\",\"command\":\"next\"}",
        "[]",
        "1",
    ];
    for text in texts {
        let message = Value::from_str(rt.alloc(), text)?;
        assert!(rt; request_of(&message).is_none(), "{text}");
    }
    Ok(())
}

// Whether two texts say the same.
fn says(rt: &impl Abort, alloc: Global, message: &Value, text: &str) -> Result<(), Fail> {
    let wanted = Value::from_str(alloc, text)?;
    assert!(rt; *message == wanted, "{text}");
    Ok(())
}

#[test]
fn responses_and_events_are_those_of_the_protocol(rt: HostRuntime) -> Result<(), Fail> {
    let alloc = rt.alloc();
    let asked = Value::from_str(
        alloc,
        "{\"seq\":7,\"type\":\"request\",\"command\":\"threads\"}",
    )?;
    let request = request_of(&asked).ok_or("no request")?;
    let done = success(alloc, 2, request, Value::Bool(true))?;
    says(
        &rt,
        alloc,
        &done,
        "{\"seq\":2,\"type\":\"response\",\"request_seq\":7,\"success\":true,\"command\":\"threads\",\"body\":true}",
    )?;
    let refused = failure(alloc, 3, request, "not now")?;
    says(
        &rt,
        alloc,
        &refused,
        "{\"seq\":3,\"type\":\"response\",\"request_seq\":7,\"success\":false,\"command\":\"threads\",\"message\":\"not now\",\"body\":{\"error\":{\"id\":1,\"format\":\"{reason}\",\"variables\":{\"reason\":\"not now\"}}}}",
    )?;
    let told = event(alloc, 4, "initialized", Value::Null)?;
    says(
        &rt,
        alloc,
        &told,
        "{\"seq\":4,\"type\":\"event\",\"event\":\"initialized\",\"body\":null}",
    )?;
    Ok(())
}
