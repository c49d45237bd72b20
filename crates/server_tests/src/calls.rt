// Public calls that no program makes, each once.
use crate::servers::{expect_heard, fresh_machine};
use bencode_wire::{Ben, Decoder, Dictionary};
use bytes::Bytes;
use repl_replies::{Origin, RequestOrReply, describe_reply, reply_bytes, request_of};
use repl_sessions::{IdStream, Sessions};
use repl_values::{Fault, Value, print_into};
use server_rules::Actor;
use std::alloc::{AllocError, Global};
use std::process::Abort;
use std::sync::ArcStr;
use std::test::Fail;

#[test]
fn tenant_with_work_is_ready(rt: HostRuntime) -> Result<(), Fail> {
    let mut machine = fresh_machine(rt.alloc())?;
    assert!(rt; machine.tenant(0).is_none(), "nobody came");
    expect_heard(&rt, rt.alloc(), &mut machine, &[])?;
    assert!(rt; machine.tenant(0).is_some(), "somebody came");
    assert_eq!(rt; machine.ready(0), None, "nothing to begin");
    let request = Bytes::copy_from_slice(rt.alloc(), b"d4:code1:12:op4:evale")?;
    assert!(rt; machine.hear(0, &request).is_ok(), "heard");
    assert_eq!(rt; machine.ready(0), Some(Actor::Bare), "a request to begin");
    Ok(())
}

// The first ids of tenant 0 under a seed of zeros.
const FIRST: &str = "76b8e0ad-a0f1-4d90-805d-6ae55386bd28";

const SECOND: &str = "bdd219b8-a08d-4d1a-a836-efcc8b770dc7";

// Two sessions: the first has a value, the second a fault and another namespace.
fn two_sessions(alloc: Global) -> Result<Sessions, AllocError> {
    let mut sessions = Sessions::new(alloc, IdStream::new([0; 32], 0));
    let first = sessions.clone_of(alloc, None)?;
    sessions.note_value(first, Value::Int(1));
    let second = sessions.clone_of(alloc, None)?;
    let fault = Fault {
        class: ArcStr::from_str(alloc, "C")?,
        text: ArcStr::from_str(alloc, "t")?,
    };
    sessions.note_fault(second, fault);
    sessions.enter(second, ArcStr::from_str(alloc, "app")?);
    Ok(sessions)
}

// The namespace, `*1` and `*e` of a session.
fn state_told(alloc: Global, sessions: &Sessions, number: u64) -> Result<String, AllocError> {
    let Some(state) = sessions.state(number) else {
        return String::from_str(alloc, "not open");
    };
    let mut told = String::from_str(alloc, state.namespace.as_str())?;
    told.push_str(" ")?;
    print_into(alloc, &state.one, &mut told)?;
    told.push_str(" ")?;
    print_into(alloc, &state.fault, &mut told)?;
    Ok(told)
}

fn expect_states(
    rt: &impl Abort,
    alloc: Global,
    sessions: &Sessions,
    states: &[&str],
) -> Result<(), Fail> {
    let mut number = 0u64;
    for wanted in states {
        let told = state_told(alloc, sessions, number)?;
        assert_eq!(rt; told.as_str(), *wanted, "{number}");
        number = number.saturating_add(1);
    }
    Ok(())
}

const AFTER_THE_CLOSE: &[&str] = &["not open", "app nil #error{C: t}"];

const OF_THE_COPY: &[&str] = &["user 1 nil", "app nil #error{C: t}"];

#[test]
fn sessions_are_found_and_copied(rt: HostRuntime) -> Result<(), Fail> {
    let mut sessions = two_sessions(rt.alloc())?;
    let copied = sessions.copy()?;
    sessions.close(0);
    expect_states(&rt, rt.alloc(), &sessions, AFTER_THE_CLOSE)?;
    expect_states(&rt, rt.alloc(), &copied, OF_THE_COPY)?;
    assert_eq!(rt; sessions.number(FIRST.as_bytes()), None);
    assert_eq!(rt; sessions.number(SECOND.as_bytes()), Some(1));
    assert!(rt; !sessions.is_open(0) && sessions.is_open(1));
    assert_eq!(rt; sessions.id_text(0).as_slice(), FIRST.as_bytes());
    let mut listed = Vec::new(rt.alloc());
    for id in &copied.list(rt.alloc())? {
        listed.extend_from_slice(id)?;
    }
    assert!(rt; listed.starts_with(FIRST.as_bytes()) && listed.ends_with(SECOND.as_bytes()));
    assert_eq!(rt; listed.len(), 72);
    Ok(())
}

// The fields of the one message that these bytes are.
fn fields_of(rt: &impl Abort, alloc: Global, message: &[u8]) -> Result<Dictionary, Fail> {
    let piece = Bytes::copy_from_slice(alloc, message)?;
    let mut decoder = Decoder::new(alloc, message.len());
    decoder.feed(&piece)?;
    match decoder.next() {
        Some(Ben::Dictionary(fields)) => Ok(fields),
        _ => panic!(rt; "no message"),
    }
}

// The code that waits, or the bytes of the reply, where there are no sessions.
fn waiting_or_answered(alloc: Global, fields: Dictionary) -> Result<Vec<u8>, AllocError> {
    match request_of(fields) {
        RequestOrReply::Waits(request) => Vec::from_slice(alloc, request.code.as_bytes()),
        RequestOrReply::Answered(reply) => reply_bytes(alloc, &reply),
    }
}

const MESSAGES: &[(&[u8], &[u8])] = &[
    (b"d4:code7:(+ 1 2)2:id1:72:op4:evale", b"(+ 1 2)"),
    (
        b"d2:id1:52:op4:evale",
        b"d2:id1:56:statusl5:error7:no-code4:doneee",
    ),
    (
        b"d4:code1:12:op4:eval7:session3:adae",
        b"d7:session3:ada6:statusl5:error15:unknown-session4:doneee",
    ),
    (
        b"d2:id1:12:op5:clonee",
        b"d2:id1:12:op5:clone6:statusl5:error10:unknown-op4:doneee",
    ),
];

const DESCRIPTION: &[u8] = b"d3:auxde3:opsd5:clonede5:closede8:describede4:evalde\
9:load-filede11:ls-sessionsdee6:statusl4:donee8:versionsd6:serverd5:majori1e5:minori0eeee";

#[test]
fn messages_without_sessions_are_read(rt: HostRuntime) -> Result<(), Fail> {
    for &(message, wanted) in MESSAGES {
        let fields = fields_of(&rt, rt.alloc(), message)?;
        let told = waiting_or_answered(rt.alloc(), fields)?;
        assert_eq!(rt; told.as_slice(), wanted);
    }
    let described = reply_bytes(rt.alloc(), &describe_reply(Origin::none()))?;
    assert_eq!(rt; described.as_slice(), DESCRIPTION);
    Ok(())
}
