//! The client of a dump, response by response.
use dump_client::Conversation;
use std::alloc::Global;
use std::test::Fail;
use wire_core::Blob;

// The requests, each with the response to it: of a thread with two frames, one of which shows no variables, and of one
// whose frames are refused.
const TURNS: [(&str, &str); 13] = [
    (
        r#"{"arguments":{"adapterID":"dump","supportsVariableType":true},"command":"initialize","seq":1,"type":"request"}"#,
        r#"{"body":{},"success":true,"type":"response"}"#,
    ),
    (
        r#"{"arguments":{"sourceRoots":["/"]},"command":"attach","seq":2,"type":"request"}"#,
        r#"{"success":true,"type":"response"}"#,
    ),
    (
        r#"{"arguments":{},"command":"configurationDone","seq":3,"type":"request"}"#,
        r#"{"success":true,"type":"response"}"#,
    ),
    (
        r#"{"arguments":{},"command":"threads","seq":4,"type":"request"}"#,
        r#"{"body":{"threads":[{"id":2,"name":"main"}]},"success":true,"type":"response"}"#,
    ),
    (
        r#"{"arguments":{"threadId":2},"command":"pause","seq":5,"type":"request"}"#,
        r#"{"success":true,"type":"response"}"#,
    ),
    (
        r#"{"arguments":{},"command":"threads","seq":6,"type":"request"}"#,
        r#"{"body":{"threads":[{"id":2,"name":"main"},{"id":3,"name":"a \"b\""}]},"success":true,"type":"response"}"#,
    ),
    (
        r#"{"arguments":{"levels":10000,"threadId":2},"command":"stackTrace","seq":7,"type":"request"}"#,
        r#"{"body":{"stackFrames":[{"id":7,"line":3,"name":"a.B.c"},{"id":8,"line":0,"name":"a.B.d"}]},"success":true,"type":"response"}"#,
    ),
    (
        r#"{"arguments":{"frameId":7},"command":"scopes","seq":8,"type":"request"}"#,
        r#"{"body":{"scopes":[{"name":"Locals","variablesReference":9}]},"success":true,"type":"response"}"#,
    ),
    (
        r#"{"arguments":{"variablesReference":9},"command":"variables","seq":9,"type":"request"}"#,
        r#"{"body":{"variables":[{"name":"n","type":"int","value":"-5"}]},"success":true,"type":"response"}"#,
    ),
    (
        r#"{"arguments":{"frameId":8},"command":"scopes","seq":10,"type":"request"}"#,
        r#"{"body":{"error":{"format":"targetError 99","id":9}},"success":false,"type":"response"}"#,
    ),
    (
        r#"{"arguments":{"levels":10000,"threadId":3},"command":"stackTrace","seq":11,"type":"request"}"#,
        r#"{"body":{"error":{"format":"unknownThread","id":8}},"success":false,"type":"response"}"#,
    ),
    (
        r#"{"arguments":{"threadId":2},"command":"continue","seq":12,"type":"request"}"#,
        r#"{"body":{"allThreadsContinued":true},"success":true,"type":"response"}"#,
    ),
    (
        r#"{"arguments":{},"command":"disconnect","seq":13,"type":"request"}"#,
        r#"{"success":true,"type":"response"}"#,
    ),
];

const TEXT: &str = r#"thread 2 "main"
  #0 a.B.c:3
    n: int = -5
  #1 a.B.d:0
    failed 9
thread 3 "a \"b\""
  failed 8
end 2
"#;

// An event, which is passed over.
const EVENT: &str = r#"{"event":"initialized","type":"event"}"#;

// The frame of a body.
fn framed(alloc: Global, body: &str) -> Result<Blob, Fail> {
    let length = body.len();
    let frame = format!(in alloc; "Content-Length: {length}\r\n\r\n{body}")?;
    Ok(Blob::from_slice(alloc, frame.as_bytes())?)
}

// Makes the request that is due, hears an event and the response, and says whether the request was this one.
fn turn(alloc: Global, talk: &mut Conversation, due: &str, said: &str) -> Result<bool, Fail> {
    let Some(frame) = talk.request(alloc)? else {
        return Err("nothing is asked".into());
    };
    talk.ask();
    if talk.request(alloc)?.is_some() {
        return Err("a request before its turn".into());
    }
    talk.hear(alloc, framed(alloc, EVENT)?.as_slice())?;
    talk.hear(alloc, framed(alloc, said)?.as_slice())?;
    Ok(frame.as_slice() == framed(alloc, due)?.as_slice())
}

#[test]
fn a_conversation_comes_to_its_text(rt: HostRuntime) -> Result<(), Fail> {
    let alloc = rt.alloc();
    let mut talk = Conversation::new(alloc);
    for (due, said) in TURNS {
        if talk.is_over() || !turn(alloc, &mut talk, due, said)? {
            return Err(format!(in alloc; "another request than {due}")?.into());
        }
    }
    if !talk.is_over() || talk.is_gone() || talk.request(alloc)?.is_some() {
        return Err("it isn't over".into());
    }
    if talk.into_text().as_slice() != TEXT.as_bytes() {
        return Err("another text".into());
    }
    Ok(())
}
