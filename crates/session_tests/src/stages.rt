/// The lines of a stage that some sessions begin with.
pub(crate) fn stage(name: &str) -> Option<&'static str> {
    match name {
        "attaches" => Some(ATTACHES),
        "binds" => Some(BINDS),
        "stops" => Some(STOPS),
        "enters" => Some(ENTERS),
        "starts_a_thread" => Some(STARTS_A_THREAD),
        _ => None,
    }
}

// A session attaches.
const ATTACHES: &str = r#"
client {"seq":1,"type":"request","command":"attach","arguments":{"sourceRoots":["/p/src"]}}
target "JDWP-Handshake"
target reply 1 00000008 00000008 00000008 00000008 00000008
target reply 2 00000001
target reply 3 00000002
told {"command":"attach","request_seq":1,"seq":1,"success":true,"type":"response"}
told {"event":"initialized","seq":2,"type":"event"}
sent "JDWP-Handshake"
sent command 1 1.7
sent command 2 15.1 06 00 00000000
sent command 3 15.1 07 00 00000000
"#;

// A breakpoint of line 10 is bound.
const BINDS: &str = r#"
client {"seq":2,"type":"request","command":"setBreakpoints","arguments":{"source":{"path":"/p/src/com/acme/Foo.java"},"breakpoints":[{"line":10}]}}
target reply 4 00000003
target reply 5 00000001 01 0000000000000010 0000000e "Lcom/acme/Foo;" 00000007
target reply 6 00000008 "Foo.java"
target reply 7 00000001 0000000000000003 00000003 "run" 00000003 "()V" 00000001
target reply 8 0000000000000000 000000000000000c 00000003 0000000000000000 00000009 0000000000000005 0000000a 0000000000000009 0000000b
target reply 9 00000004
told {"body":{"breakpoints":[{"id":1,"line":10,"verified":true}]},"command":"setBreakpoints","request_seq":2,"seq":3,"success":true,"type":"response"}
sent command 4 15.1 08 02 00000001 05 0000000a "com.acme.*"
sent command 5 1.3
sent command 6 2.7 0000000000000010
sent command 7 2.5 0000000000000010
sent command 8 6.1 0000000000000010 0000000000000003
sent command 9 15.1 02 02 00000001 07 01 0000000000000010 0000000000000003 0000000000000005
"#;

// A hit stops the target.
const STOPS: &str = r#"
target command 2 64.100 02 00000001 02 00000004 0000000000000007 01 0000000000000010 0000000000000003 0000000000000005
told {"body":{"allThreadsStopped":true,"hitBreakpointIds":[1],"reason":"breakpoint","threadId":1},"event":"stopped","seq":4,"type":"event"}
"#;

// A session attaches to a target that starts.
const ENTERS: &str = r#"
client {"seq":1,"type":"request","command":"attach","arguments":{"sourceRoots":["/p/src"]}}
target "JDWP-Handshake"
target command 1 64.100 02 00000001 5a 00000000 0000000000000001
target reply 1 00000008 00000008 00000008 00000008 00000008
target reply 2 00000001
target reply 3 00000002
told {"command":"attach","request_seq":1,"seq":1,"success":true,"type":"response"}
told {"event":"initialized","seq":2,"type":"event"}
sent "JDWP-Handshake"
sent command 1 1.7
sent command 2 15.1 06 00 00000000
sent command 3 15.1 07 00 00000000
"#;

// A thread of a target that runs is told.
const STARTS_A_THREAD: &str = r#"
target command 1 64.100 00 00000001 06 00000001 0000000000000007
told {"body":{"reason":"started","threadId":1},"event":"thread","seq":3,"type":"event"}
"#;
