use crate::courses::check;
use crate::messages::head;
use std::alloc::Global;
use std::test::Fail;

// A session in the order of its log: that of examples/played/worked.sessions.
const WORKED: &str = r#"
client {"arguments":{"adapterID":"jdwp","clientID":"vscode","linesStartAt1":true,"locale":"en","pathFormat":"path","supportsVariableType":true},"command":"initialize","seq":1,"type":"request"}
told {"body":{"exceptionBreakpointFilters":[{"filter":"caught","label":"Caught exceptions"},{"filter":"uncaught","label":"Uncaught exceptions"}],"supportTerminateDebuggee":true,"supportsConfigurationDoneRequest":true,"supportsEvaluateForHovers":true,"supportsExceptionInfoRequest":true,"supportsFunctionBreakpoints":true,"supportsSetVariable":true},"command":"initialize","request_seq":1,"seq":1,"success":true,"type":"response"}
client {"arguments":{"sourceRoots":["/p/src"]},"command":"attach","seq":2,"type":"request"}
sent "JDWP-Handshake"
target "JDWP-Handshake"
sent command 1 1.7
target reply 1 00000008 00000008 00000008 00000008 00000008
sent command 2 15.1 06 00 00000000
target reply 2 00000001
sent command 3 15.1 07 00 00000000
target reply 3 00000002
told {"command":"attach","request_seq":2,"seq":2,"success":true,"type":"response"}
told {"event":"initialized","seq":3,"type":"event"}
client {"arguments":{"breakpoints":[{"line":10}],"source":{"name":"Foo.java","path":"/p/src/com/acme/Foo.java"}},"command":"setBreakpoints","seq":3,"type":"request"}
sent command 4 15.1 08 02 00000001 05 0000000a "com.acme.*"
target reply 4 00000003
sent command 5 1.3
target reply 5 00000002 01 0000000000000010 0000000e "Lcom/acme/Foo;" 00000002 03 0000000000000060 00000002 "[I" 00000002
sent command 6 2.7 0000000000000010
target reply 6 00000008 "Foo.java"
sent command 7 2.5 0000000000000010
target reply 7 00000001 0000000000000003 00000003 "run" 00000003 "()V" 00000009
sent command 8 6.1 0000000000000010 0000000000000003
target reply 8 0000000000000000 000000000000000c 00000003 0000000000000000 00000009 0000000000000005 0000000a 0000000000000009 0000000b
sent command 9 15.1 02 02 00000001 07 01 0000000000000010 0000000000000003 0000000000000005
target reply 9 00000004
told {"body":{"breakpoints":[{"id":1,"line":10,"verified":true}]},"command":"setBreakpoints","request_seq":3,"seq":4,"success":true,"type":"response"}
client {"arguments":{"filters":["uncaught"]},"command":"setExceptionBreakpoints","seq":4,"type":"request"}
sent command 10 15.1 04 02 00000001 08 0000000000000000 00 01
target reply 10 00000005
told {"command":"setExceptionBreakpoints","request_seq":4,"seq":5,"success":true,"type":"response"}
client {"arguments":{},"command":"configurationDone","seq":5,"type":"request"}
told {"command":"configurationDone","request_seq":5,"seq":6,"success":true,"type":"response"}
target command 1 64.100 02 00000001 02 00000004 0000000000000007 01 0000000000000010 0000000000000003 0000000000000005
told {"body":{"allThreadsStopped":true,"hitBreakpointIds":[1],"reason":"breakpoint","threadId":1},"event":"stopped","seq":7,"type":"event"}
client {"arguments":{},"command":"threads","seq":6,"type":"request"}
sent command 11 1.4
target reply 11 00000001 0000000000000007
sent command 12 11.1 0000000000000007
target reply 12 00000004 "main"
told {"body":{"threads":[{"id":1,"name":"main"}]},"command":"threads","request_seq":6,"seq":8,"success":true,"type":"response"}
client {"arguments":{"levels":20,"threadId":1},"command":"stackTrace","seq":7,"type":"request"}
sent command 13 11.7 0000000000000007
target reply 13 00000014
sent command 14 11.6 0000000000000007 00000000 00000014
target reply 14 00000014 0000000000000040 01 0000000000000010 0000000000000003 0000000000000005 0000000000000041 01 0000000000000010 0000000000000003 0000000000000005 0000000000000042 01 0000000000000010 0000000000000003 0000000000000005 0000000000000043 01 0000000000000010 0000000000000003 0000000000000005 0000000000000044 01 0000000000000010 0000000000000003 0000000000000005 0000000000000045 01 0000000000000010 0000000000000003 0000000000000005 0000000000000046 01 0000000000000010 0000000000000003 0000000000000005 0000000000000047 01 0000000000000010 0000000000000003 0000000000000005 0000000000000048 01 0000000000000010 0000000000000003 0000000000000005 0000000000000049 01 0000000000000010 0000000000000003 0000000000000005 000000000000004a 01 0000000000000010 0000000000000003 0000000000000005 000000000000004b 01 0000000000000010 0000000000000003 0000000000000005 000000000000004c 01 0000000000000010 0000000000000003 0000000000000005 000000000000004d 01 0000000000000010 0000000000000003 0000000000000005 000000000000004e 01 0000000000000010 0000000000000003 0000000000000005 000000000000004f 01 0000000000000010 0000000000000003 0000000000000005 0000000000000050 01 0000000000000010 0000000000000003 0000000000000005 0000000000000051 01 0000000000000010 0000000000000003 0000000000000005 0000000000000052 01 0000000000000010 0000000000000003 0000000000000005 0000000000000053 01 0000000000000010 0000000000000003 0000000000000005
told {"body":{"stackFrames":[{"column":1,"id":1,"line":10,"name":"com.acme.Foo.run","source":{"name":"Foo.java","path":"/p/src/com/acme/Foo.java"}},{"column":1,"id":2,"line":10,"name":"com.acme.Foo.run","source":{"name":"Foo.java","path":"/p/src/com/acme/Foo.java"}},{"column":1,"id":3,"line":10,"name":"com.acme.Foo.run","source":{"name":"Foo.java","path":"/p/src/com/acme/Foo.java"}},{"column":1,"id":4,"line":10,"name":"com.acme.Foo.run","source":{"name":"Foo.java","path":"/p/src/com/acme/Foo.java"}},{"column":1,"id":5,"line":10,"name":"com.acme.Foo.run","source":{"name":"Foo.java","path":"/p/src/com/acme/Foo.java"}},{"column":1,"id":6,"line":10,"name":"com.acme.Foo.run","source":{"name":"Foo.java","path":"/p/src/com/acme/Foo.java"}},{"column":1,"id":7,"line":10,"name":"com.acme.Foo.run","source":{"name":"Foo.java","path":"/p/src/com/acme/Foo.java"}},{"column":1,"id":8,"line":10,"name":"com.acme.Foo.run","source":{"name":"Foo.java","path":"/p/src/com/acme/Foo.java"}},{"column":1,"id":9,"line":10,"name":"com.acme.Foo.run","source":{"name":"Foo.java","path":"/p/src/com/acme/Foo.java"}},{"column":1,"id":10,"line":10,"name":"com.acme.Foo.run","source":{"name":"Foo.java","path":"/p/src/com/acme/Foo.java"}},{"column":1,"id":11,"line":10,"name":"com.acme.Foo.run","source":{"name":"Foo.java","path":"/p/src/com/acme/Foo.java"}},{"column":1,"id":12,"line":10,"name":"com.acme.Foo.run","source":{"name":"Foo.java","path":"/p/src/com/acme/Foo.java"}},{"column":1,"id":13,"line":10,"name":"com.acme.Foo.run","source":{"name":"Foo.java","path":"/p/src/com/acme/Foo.java"}},{"column":1,"id":14,"line":10,"name":"com.acme.Foo.run","source":{"name":"Foo.java","path":"/p/src/com/acme/Foo.java"}},{"column":1,"id":15,"line":10,"name":"com.acme.Foo.run","source":{"name":"Foo.java","path":"/p/src/com/acme/Foo.java"}},{"column":1,"id":16,"line":10,"name":"com.acme.Foo.run","source":{"name":"Foo.java","path":"/p/src/com/acme/Foo.java"}},{"column":1,"id":17,"line":10,"name":"com.acme.Foo.run","source":{"name":"Foo.java","path":"/p/src/com/acme/Foo.java"}},{"column":1,"id":18,"line":10,"name":"com.acme.Foo.run","source":{"name":"Foo.java","path":"/p/src/com/acme/Foo.java"}},{"column":1,"id":19,"line":10,"name":"com.acme.Foo.run","source":{"name":"Foo.java","path":"/p/src/com/acme/Foo.java"}},{"column":1,"id":20,"line":10,"name":"com.acme.Foo.run","source":{"name":"Foo.java","path":"/p/src/com/acme/Foo.java"}}],"totalFrames":20},"command":"stackTrace","request_seq":7,"seq":9,"success":true,"type":"response"}
client {"arguments":{"frameId":1},"command":"scopes","seq":8,"type":"request"}
told {"body":{"scopes":[{"expensive":false,"name":"Locals","presentationHint":"locals","variablesReference":21}]},"command":"scopes","request_seq":8,"seq":10,"success":true,"type":"response"}
client {"arguments":{"variablesReference":21},"command":"variables","seq":9,"type":"request"}
sent command 15 16.3 0000000000000007 0000000000000040
sent command 16 6.2 0000000000000010 0000000000000003
target reply 15 4c 0000000000000000
target reply 16 00000000 00000002 0000000000000000 00000001 "n" 00000001 "I" 0000000c 00000000 0000000000000000 00000001 "a" 00000002 "[I" 0000000c 00000001
sent command 17 16.1 0000000000000007 0000000000000040 00000002 00000000 49 00000001 5b
target reply 17 00000002 49 00000005 5b 0000000000000050
sent command 18 9.1 0000000000000050
sent command 19 13.1 0000000000000050
target reply 18 03 0000000000000060
target reply 19 00000003
told {"body":{"variables":[{"name":"n","type":"int","value":"5","variablesReference":0},{"indexedVariables":3,"name":"a","type":"int[]","value":"int[3]","variablesReference":22}]},"command":"variables","request_seq":9,"seq":11,"success":true,"type":"response"}
client {"arguments":{"expression":"a[2]","frameId":1},"command":"evaluate","seq":10,"type":"request"}
sent command 20 16.1 0000000000000007 0000000000000040 00000001 00000001 5b
target reply 20 00000001 5b 0000000000000050
sent command 21 13.1 0000000000000050
target reply 21 00000003
sent command 22 13.2 0000000000000050 00000002 00000001
target reply 22 49 00000001 00000007
told {"body":{"result":"7","type":"int","variablesReference":0},"command":"evaluate","request_seq":10,"seq":12,"success":true,"type":"response"}
client {"arguments":{"name":"n","value":"6","variablesReference":21},"command":"setVariable","seq":11,"type":"request"}
sent command 23 16.2 0000000000000007 0000000000000040 00000001 00000000 49 00000006
target reply 23
told {"body":{"type":"int","value":"6","variablesReference":0},"command":"setVariable","request_seq":11,"seq":13,"success":true,"type":"response"}
client {"arguments":{"threadId":1},"command":"next","seq":12,"type":"request"}
sent command 24 15.1 01 02 00000001 0a 0000000000000007 00000001 00000001
target reply 24 00000006
sent command 25 1.9
target reply 25
told {"command":"next","request_seq":12,"seq":14,"success":true,"type":"response"}
target command 2 64.100 02 00000001 01 00000006 0000000000000007 01 0000000000000010 0000000000000003 0000000000000009
sent command 26 15.2 01 00000006
target reply 26
told {"body":{"allThreadsStopped":true,"reason":"step","threadId":1},"event":"stopped","seq":15,"type":"event"}
client {"arguments":{},"command":"disconnect","seq":13,"type":"request"}
sent command 27 1.6
target reply 27
told {"command":"disconnect","request_seq":13,"seq":16,"success":true,"type":"response"}
"#;

// How many messages are sent in it.
const SENDS: usize = 44;

// A failure of a request in the last words, from its command to its number.
const GONE: &str = r#""message":"targetGone","request_seq":"#;

// Where a session stands behind a front of its log.
#[derive(Clone, Copy)]
struct Front {
    to_client: u32,
    to_target: u32,
    is_attached: bool,
    // the command and the number of a request that has no response
    asked: Option<(&'static str, &'static str)>,
}

// How a line of the session is passed: it stands before a send that fails, is that send, or stands behind it.
#[derive(Clone, Copy, PartialEq)]
enum Place {
    Before,
    There,
    Behind,
}

impl Front {
    fn new() -> Front {
        Front {
            to_client: 0,
            to_target: 0,
            is_attached: false,
            asked: None,
        }
    }

    // The session behind one more line.
    fn past(mut self, line: &'static str) -> Front {
        match head(line).0 {
            "client" => self.asked = request_in(line),
            "told" => {
                self.to_client = self.to_client.wrapping_add(1);
                self.is_attached = self.is_attached || line.contains(r#""event":"initialized""#);
                if line.contains(r#""request_seq":"#) {
                    self.asked = None;
                }
            }
            "sent" => self.to_target = self.to_target.wrapping_add(1),
            _ => {}
        }
        self
    }

    // What is said behind the failure of a send to the client: the target is left to run on, where it is attached.
    // Before its first command it was sent the handshake.
    fn without_client(self, alloc: Global, text: &mut String) -> Result<(), Fail> {
        if self.is_attached {
            let number = self.to_target;
            text.push_str(format!(in alloc; "sent command {number} 1.6\n")?.as_str())?;
        }
        text.push_str("ending ClientLink\n")?;
        Ok(())
    }

    // The same of a send to the target: what was asked fails, and the target is gone.
    fn without_target(self, alloc: Global, text: &mut String) -> Result<(), Fail> {
        let mut next = self.to_client.wrapping_add(1);
        if let Some((command, number)) = self.asked {
            let error = r#"{"body":{"error":{"format":"targetGone","id":10}},"command":""#;
            let said = format!(in alloc; "told {error}{command}\",{GONE}{number},\"seq\":{next},")?;
            text.push_str(said.as_str())?;
            text.push_str("\"success\":false,\"type\":\"response\"}\n")?;
            next = next.wrapping_add(1);
        }
        let event = format!(in alloc;
            "told {{\"event\":\"terminated\",\"seq\":{next},\"type\":\"event\"}}\n"
        )?;
        text.push_str(event.as_str())?;
        text.push_str("ending TargetLink\n")?;
        Ok(())
    }
}

// The command and the number of a request.
fn request_in(line: &'static str) -> Option<(&'static str, &'static str)> {
    let (_, rest) = line.split_once(r#""command":""#)?;
    let (command, rest) = rest.split_once('"')?;
    let (_, rest) = rest.split_once(r#""seq":"#)?;
    let (number, _) = rest.split_once(',')?;
    Some((command, number))
}

// The first byte of a message that is sent, as a line says it.
fn first_byte(message: &str) -> &'static str {
    if message.starts_with('{') {
        "'C'"
    } else if message.starts_with('"') {
        "'J'"
    } else {
        "00"
    }
}

// The session in which the send of this number, from 0, fails behind none or one of its bytes.
fn failing(alloc: Global, number: usize, has_byte: bool) -> Result<String, Fail> {
    let mut text = "\nsession\n".to_string(alloc)?;
    let mut front = Front::new();
    let mut sends = 0;
    let mut place = Place::Before;
    for line in WORKED.split('\n') {
        let (word, message) = head(line);
        let is_send = word == "told" || word == "sent";
        if is_send && sends == number && place == Place::Before {
            place = Place::There;
        }
        if place == Place::There {
            add_failing(alloc, &mut text, front, word, message, has_byte)?;
            place = Place::Behind;
        } else if place == Place::Before || !is_send {
            text.push_str(line)?;
            text.push_str("\n")?;
        }
        if place == Place::Before {
            front = front.past(line);
            sends = if is_send {
                sends.wrapping_add(1)
            } else {
                sends
            };
        }
    }
    Ok(text)
}

// Adds the lines of a send that fails, with the last words behind it.
fn add_failing(
    alloc: Global,
    text: &mut String,
    front: Front,
    word: &str,
    message: &str,
    has_byte: bool,
) -> Result<(), Fail> {
    let kept = if has_byte { 1 } else { 0 };
    let (side, call) = if word == "told" {
        ("client", front.to_client)
    } else {
        ("target", front.to_target)
    };
    text.push_str(format!(in alloc; "cut {side} {call} {kept}\n")?.as_str())?;
    if has_byte {
        let byte = first_byte(message);
        text.push_str(format!(in alloc; "{word} {byte}\n")?.as_str())?;
    }
    if word == "told" {
        front.without_client(alloc, text)
    } else {
        front.without_target(alloc, text)
    }
}

#[test]
fn any_send_fails(rt: HostRuntime) -> Result<(), Fail> {
    let mut sessions = String::new(rt.alloc());
    for number in 0..SENDS {
        for has_byte in [false, true] {
            sessions.push_str(failing(rt.alloc(), number, has_byte)?.as_str())?;
        }
    }
    check(rt.alloc(), sessions.as_str())
}
