//! Frames: in pieces, with other fields, with each fault, and behind a read that failed.

use crate::drip::Drip;
use crate::sfc_frames::frame_fault::{FrameFault, Malformed};
use crate::sfc_frames::incoming::Incoming;
use crate::sfc_frames::outgoing::put_message;
use std::alloc::Global;
use std::test::Fail;

// Two messages, the first with a field of another name.
const TWO: &[u8] =
    b"Content-Length: 2\r\nContent-Type: application/vscode-jsonrpc; charset=utf-8\r\n\r\n{}content-length:2\r\n\r\n[]";

// What is read of a stream: whether a first message, a second one, and its end came as they should.
fn reads_two(alloc: Global, reader: &mut Drip<'_>) -> Result<bool, FrameFault> {
    let mut incoming = Incoming::new(alloc);
    let first = incoming.next_message(reader)?;
    let second = incoming.next_message(reader)?;
    let third = incoming.next_message(reader)?;
    let is_first = first.is_some_and(|message| message.as_slice() == b"{}".as_slice());
    let is_second = second.is_some_and(|message| message.as_slice() == b"[]".as_slice());
    Ok(is_first && is_second && third.is_none())
}

#[test]
fn messages_come_in_any_pieces(rt: HostRuntime) -> Result<(), Fail> {
    for most in 1..=TWO.len() {
        let mut reader = Drip::new(TWO, most);
        assert!(rt; reads_two(rt.alloc(), &mut reader)?, "{most}");
    }
    Ok(())
}

// The fault of the first message, and of the call behind it.
fn faults_of(alloc: Global, bytes: &[u8]) -> (Option<FrameFault>, Option<FrameFault>) {
    let mut incoming = Incoming::new(alloc);
    let mut reader = Drip::new(bytes, usize::MAX);
    let first = incoming.next_message(&mut reader).err();
    let again = incoming.next_message(&mut reader).err();
    (first, again)
}

#[test]
fn each_fault_is_named_and_stays(rt: HostRuntime) -> Result<(), Fail> {
    let line = [b'a'; 1025];
    let head = [b'a', b'\n'].repeat(rt.alloc(), 17)?;
    let cases: [(&[u8], FrameFault); 12] = [
        (b"\r\n", FrameFault::Malformed(Malformed::NoLength)),
        (b"\n", FrameFault::Malformed(Malformed::NoLength)),
        (
            b"Content-Type: text\r\n\r\n",
            FrameFault::Malformed(Malformed::NoLength),
        ),
        (
            b"Content-Length:\r\n\r\n",
            FrameFault::Malformed(Malformed::NotANumber),
        ),
        (
            b"Content-Length: two\r\n\r\n{}",
            FrameFault::Malformed(Malformed::NotANumber),
        ),
        (
            b"Content-Length: -2\r\n\r\n{}",
            FrameFault::Malformed(Malformed::NotANumber),
        ),
        (
            b"Content-Length: 16777217\r\n\r\n",
            FrameFault::Malformed(Malformed::MessageTooLong),
        ),
        (
            b"Content-Length: 99999999999999999999999\r\n\r\n",
            FrameFault::Malformed(Malformed::MessageTooLong),
        ),
        (&line, FrameFault::Malformed(Malformed::HeadTooLong)),
        (&head, FrameFault::Malformed(Malformed::HeadTooLong)),
        (b"Content-Length: 3\r\n\r\n{}", FrameFault::EndsWithin),
        (b"Content-Le", FrameFault::EndsWithin),
    ];
    for (bytes, fault) in cases {
        let (first, again) = faults_of(rt.alloc(), bytes);
        assert_eq!(rt; first, Some(fault));
        assert_eq!(rt; again, Some(fault));
    }
    Ok(())
}

// Whether a read that fails at this call of the reader is told, and the same stream is read whole behind it.
fn goes_on(alloc: Global, call: usize) -> Result<bool, FrameFault> {
    let mut incoming = Incoming::new(alloc);
    let mut reader = Drip::new(TWO, 7);
    reader.fails_in = Some(call);
    let mut faults = 0u32;
    let mut messages = 0u32;
    for _ in 0..4 {
        match incoming.next_message(&mut reader) {
            Ok(Some(message)) => messages = messages.saturating_add(u32::from(message.len() == 2)),
            Ok(None) => {}
            Err(FrameFault::Read) => faults = faults.saturating_add(1),
            Err(fault) => return Err(fault),
        }
    }
    Ok(faults == 1 && messages == 2)
}

#[test]
fn a_read_that_fails_loses_nothing(rt: HostRuntime) -> Result<(), Fail> {
    for call in 0..TWO.len() / 7 {
        assert!(rt; goes_on(rt.alloc(), call)?, "{call}");
    }
    Ok(())
}

#[test]
fn a_message_is_written_as_a_frame(rt: HostRuntime) -> Result<(), Fail> {
    let mut bytes = Vec::new(rt.alloc());
    put_message(&mut bytes, b"{\"seq\":1}")?;
    assert_eq!(rt;
        bytes.as_slice(),
        b"Content-Length: 9\r\n\r\n{\"seq\":1}".as_slice()
    );
    Ok(())
}
