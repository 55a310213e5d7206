use crate::rows::{check, shown};
use script_text::{Run, ScriptTrouble, SessionLog, print_log, read_log};
use std::alloc::Global;
use std::test::Fail;
use wire_core::{Blob, Entry, List, Side};

const AGAIN: &str = r#"
print ["log",2]␊["limits",1099511627776,43200000,65536]␊["in","client","436f6e74656e742d4c656e6774683a2036340d0a0d0a7b22617267756d656e7473223a7b7d2c22636f6d6d616e64223a22646973636f6e6e656374222c22736571223a312c2274797065223a2272657175657374227d"]␊["out","client","436f6e74656e742d4c656e6774683a2038310d0a0d0a7b22636f6d6d616e64223a22646973636f6e6e656374222c22726571756573745f736571223a312c22736571223a312c2273756363657373223a747275652c2274797065223a22726573706f6e7365227d"]␊["ending",0]␊["end"]␊ => ["log",2]␊["limits",1099511627776,43200000,65536]␊["in","client","436f6e74656e742d4c656e6774683a2036340d0a0d0a7b22617267756d656e7473223a7b7d2c22636f6d6d616e64223a22646973636f6e6e656374222c22736571223a312c2274797065223a2272657175657374227d"]␊["out","client","436f6e74656e742d4c656e6774683a2038310d0a0d0a7b22636f6d6d616e64223a22646973636f6e6e656374222c22726571756573745f736571223a312c22736571223a312c2273756363657373223a747275652c2274797065223a22726573706f6e7365227d"]␊["ending",0]␊["end"]␊
print ["log",2]␊["limits",1099511627776,43200000,65536]␊["end"]␊ => ["log",2]␊["limits",1099511627776,43200000,65536]␊["end"]␊
print ["log",2]␊["limits",1,1,1]␊["quiet",1]␊["end"]␊ => ["log",2]␊["limits",1,1,1]␊["quiet",1]␊["end"]␊
print ["log",2]␊["limits",1099511627776,9223372036854775807,4294967295]␊["quiet",4611686018427387904]␊["ending",12]␊["end"]␊ => ["log",2]␊["limits",1099511627776,9223372036854775807,4294967295]␊["quiet",4611686018427387904]␊["ending",12]␊["end"]␊
print ["log",2]␊["limits",7,8,9]␊["quiet",3]␊["in","target","4a"]␊["shut","client"]␊["out","client","0af0"]␊["quiet",1]␊["failed","target"]␊["quiet",20]␊["ending",255]␊["end"]␊ => ["log",2]␊["limits",7,8,9]␊["quiet",3]␊["in","target","4a"]␊["shut","client"]␊["out","client","0af0"]␊["quiet",1]␊["failed","target"]␊["quiet",20]␊["ending",255]␊["end"]␊
print ␠[ "lo\u0067" , 2 ]␍␊[ "limits",␉1,2,3]␊["i\u006e","target","\u0030a"]␊["qu\u0069et", 5 ]␊␉["end"] ␊ => ["log",2]␊["limits",1,2,3]␊["in","target","0a"]␊["quiet",5]␊["end"]␊
# Texts of version 1.
print ["log",1]␊["in","client","436f6e74656e742d4c656e6774683a2036340d0a0d0a7b22617267756d656e7473223a7b7d2c22636f6d6d616e64223a22646973636f6e6e656374222c22736571223a312c2274797065223a2272657175657374227d"]␊["out","client","436f6e74656e742d4c656e6774683a2038310d0a0d0a7b22636f6d6d616e64223a22646973636f6e6e656374222c22726571756573745f736571223a312c22736571223a312c2273756363657373223a747275652c2274797065223a22726573706f6e7365227d"]␊["ending",0]␊["end"]␊ => ["log",2]␊["limits",1099511627776,43200000,65536]␊["in","client","436f6e74656e742d4c656e6774683a2036340d0a0d0a7b22617267756d656e7473223a7b7d2c22636f6d6d616e64223a22646973636f6e6e656374222c22736571223a312c2274797065223a2272657175657374227d"]␊["out","client","436f6e74656e742d4c656e6774683a2038310d0a0d0a7b22636f6d6d616e64223a22646973636f6e6e656374222c22726571756573745f736571223a312c22736571223a312c2273756363657373223a747275652c2274797065223a22726573706f6e7365227d"]␊["ending",0]␊["end"]␊
print ["log",1]␊["end"]␊ => ["log",2]␊["limits",1099511627776,43200000,65536]␊["end"]␊
print ["log",1]␊["quiet"]␊["quiet"]␊["in","target","4a"]␊["shut","client"]␊["out","client","0af0"]␊["quiet"]␊["failed","target"]␊["quiet"]␊["quiet"]␊["quiet"]␊["ending",255]␊["end"]␊ => ["log",2]␊["limits",1099511627776,43200000,65536]␊["quiet",2]␊["in","target","4a"]␊["shut","client"]␊["out","client","0af0"]␊["quiet",1]␊["failed","target"]␊["quiet",3]␊["ending",255]␊["end"]␊
print ␠[ "lo\u0067" , 1 ]␍␊["i\u006e","target","\u0030a"]␊["quiet"]␊␉["end"] ␊ => ["log",2]␊["limits",1099511627776,43200000,65536]␊["in","target","0a"]␊["quiet",1]␊["end"]␊
"#;

#[test]
fn what_is_read_is_printed_again(rt: HostRuntime) -> Result<(), Fail> {
    check(rt.alloc(), AGAIN)
}

// The number of the first line that is refused, and its fault.
const FAULTY: &str = r#"
read => 1 NoEnd
read ["log",1]␊⁇␊["end" => 2 NotUtf8
read ["log",1]␊["end"␊ => 2 NotJson
read ["log",1]␊␊ => 2 NotJson
read ["log",1]␊{}␊ => 2 BadShape
read ["log",1]␊["in","client","0A"]␊ => 2 BadShape
read ["log",1]␊["in","client",""]␊ => 2 BadShape
read ["log",1]␊["in","client","012"]␊ => 2 BadShape
read ["log",1]␊["ending",256]␊ => 2 BadShape
read ["log",1]␊["quiet","client"]␊ => 2 BadShape
read ["script",1]␊ => 1 BadShape
read ["log",3]␊ => 1 BadVersion
read ["log",-1]␊ => 1 BadVersion
read ["log",1.0]␊ => 1 BadShape
read ["end"]␊ => 1 BadOrder
read ["log",1]␊["log",2]␊ => 2 BadOrder
read ["log",1]␊["shut","client"]␊["in","client","00"]␊ => 3 BadOrder
read ["log",1]␊["shut","client"]␊["failed","client"]␊ => 3 BadOrder
read ["log",1]␊["ending",0]␊["quiet"]␊ => 3 BadOrder
read ["log",1]␊["end"] => 3 NoEnd
read ["log",1]␊["quiet"]␊ => 3 NoEnd
read ["log",1]␊["end"]␊["end"]␊ => 3 AfterEnd
read ["log",1]␊["end"]␊7␊ => 3 BadShape
read ["log",2]␊["end"]␊ => 2 BadOrder
read ["log",2]␊["quiet",1]␊ => 2 BadOrder
read ["log",2]␊["quiet"]␊ => 2 BadShape
read ["log",2]␊["limits",0,1,1]␊ => 2 BadShape
read ["log",2]␊["limits",1099511627777,1,1]␊ => 2 BadShape
read ["log",2]␊["limits",1,9223372036854775808,1]␊ => 2 BadShape
read ["log",2]␊["limits",1,1,4294967296]␊ => 2 BadShape
read ["log",2]␊["limits",1,1]␊ => 2 BadShape
read ["log",2]␊["limits",1,1,1,1]␊ => 2 BadShape
read ["log",2]␊["limits",1,1,1]␊["limits",1,1,1]␊ => 3 BadOrder
read ["log",2]␊["limits",1,1,1]␊["quiet"]␊ => 3 BadShape
read ["log",2]␊["limits",1,1,1]␊["quiet",0]␊ => 3 BadShape
read ["log",2]␊["limits",1,1,1]␊["quiet",4611686018427387905]␊ => 3 BadShape
read ["log",2]␊["limits",1,1,1]␊["quiet",1]␊["quiet",1]␊ => 4 BadOrder
read ["log",2]␊["limits",1,1,1]␊["quiet",4611686018427387904]␊["quiet",1]␊ => 4 BadShape
read ["log",2]␊["limits",1,1,1]␊["quiet",4611686018427387903]␊["shut","client"]␊["quiet",2]␊ => 5 BadShape
read ["log",2]␊["limits",1,1,1]␊["quiet",4611686018427387903]␊["shut","client"]␊["quiet",1]␊["end"]␊ => read
read ["log",2]␊["limits",1,1,1]␊["ending",0]␊["quiet",1]␊ => 4 BadOrder
read ["log",2]␊["limits",1,1,1]␊["end"]␊["quiet"]␊ => 4 BadShape
read ["log",2]␊["limits",1,1,1]␊["end"]␊["quiet",1]␊ => 4 AfterEnd
read ["log",2]␊["limits",1,1,1]␊["shut","client"]␊["in","client","00"]␊ => 4 BadOrder
read ["log",2]␊["limits",1,1,1]␊["quiet",1]␊ => 4 NoEnd
read ["log",1]␊["quiet",1]␊ => 2 BadShape
read ["log",1]␊["limits",1,1,1]␊ => 2 BadShape
read ["quiet",1]␊ => 1 BadOrder
read ["limits",1,1,1]␊ => 1 BadOrder
"#;

#[test]
fn the_first_faulty_line_is_told(rt: HostRuntime) -> Result<(), Fail> {
    check(rt.alloc(), FAULTY)
}

const ONE_REQUEST: &str = r#"
one-request => ["log",2]␊["limits",1099511627776,43200000,65536]␊["in","client","436f6e74656e742d4c656e6774683a2036340d0a0d0a7b22617267756d656e7473223a7b7d2c22636f6d6d616e64223a22646973636f6e6e656374222c22736571223a312c2274797065223a2272657175657374227d"]␊["out","client","436f6e74656e742d4c656e6774683a2038310d0a0d0a7b22636f6d6d616e64223a22646973636f6e6e656374222c22726571756573745f736571223a312c22736571223a312c2273756363657373223a747275652c2274797065223a22726573706f6e7365227d"]␊["ending",0]␊["end"]␊
"#;

#[test]
fn a_session_of_one_request_is_six_lines(rt: HostRuntime) -> Result<(), Fail> {
    check(rt.alloc(), ONE_REQUEST)
}

pub(crate) fn one_request_told(alloc: Global) -> Result<String, Fail> {
    shown(alloc, print_log(alloc, &one_request(alloc)?)?.as_slice())
}

fn one_request(alloc: Global) -> Result<SessionLog, Fail> {
    let request = concat!(
        "Content-Length: 64\r\n\r\n",
        "{\"arguments\":{},\"command\":\"disconnect\",\"seq\":1,\"type\":\"request\"}",
    );
    let response = concat!(
        "Content-Length: 81\r\n\r\n",
        "{\"command\":\"disconnect\",\"request_seq\":1,\"seq\":1,\"success\":true,\"type\":\"response\"}",
    );
    let request = Entry::In(Side::Client, Blob::from_slice(alloc, request.as_bytes())?);
    let response = Entry::Out(Side::Client, Blob::from_slice(alloc, response.as_bytes())?);
    let mut runs = List::new(alloc);
    runs.push(Run::One(request))?;
    runs.push(Run::One(response))?;
    Ok(SessionLog {
        turns: 1_099_511_627_776,
        quiet: 43_200_000,
        waiting: 65_536,
        runs,
        ending: Some(0),
    })
}

// What a text is read as, printed again.
pub(crate) fn printed_again(alloc: Global, text: &[u8]) -> Result<String, Fail> {
    match read_log(alloc, text) {
        Ok(log) => shown(alloc, print_log(alloc, &log)?.as_slice()),
        Err(trouble) => trouble_text(alloc, trouble),
    }
}

pub(crate) fn fault_told(alloc: Global, text: &[u8]) -> Result<String, Fail> {
    match read_log(alloc, text) {
        Ok(_) => Ok("read".to_string(alloc)?),
        Err(trouble) => trouble_text(alloc, trouble),
    }
}

fn trouble_text(alloc: Global, trouble: ScriptTrouble) -> Result<String, Fail> {
    match trouble {
        ScriptTrouble::At { line, kind } => Ok(format!(in alloc; "{line} {kind:?}")?),
        ScriptTrouble::NoMemory => Err("no memory".into()),
    }
}
