use crate::courses::check;
use std::test::Fail;

const OF_CLIENTS: &str = r#"
# a byte that no frame has there
session
client {"seq":1,"type":"request","command":"initialize","arguments":{"adapterID":"jdwp"}}
client "Length 1"
told {"body":{"exceptionBreakpointFilters":[{"filter":"caught","label":"Caught exceptions"},{"filter":"uncaught","label":"Uncaught exceptions"}],"supportTerminateDebuggee":true,"supportsConfigurationDoneRequest":true,"supportsEvaluateForHovers":true,"supportsExceptionInfoRequest":true,"supportsFunctionBreakpoints":true,"supportsSetVariable":true},"command":"initialize","request_seq":1,"seq":1,"success":true,"type":"response"}
ending BadClient { fault: Frame(BadHeader), at: 110 }

session
client "Content-Length: 16777217" 0d0a0d0a
ending BadClient { fault: Frame(TooLong), at: 23 }

session
client "Content-Length: 00000000002" 0d0a0d0a
ending BadClient { fault: Frame(BadLength), at: 26 }

session
client "X: y" 0d0a0d
ending BadClient { fault: Frame(NoLength), at: 6 }

session
client "Content-Length: 2" 0d0a "Content-Length: 2" 0d0a0d0a "{}"
ending BadClient { fault: Frame(TwoLengths), at: 33 }

# a body that is no message
session
client "Content-Length: 1" 0d0a0d0a "}"
ending BadClient { fault: NotJson, at: 21 }

session
client {}
ending BadClient { fault: NotAMessage, at: 21 }
"#;

#[test]
fn bytes_of_a_client_are_refused(rt: HostRuntime) -> Result<(), Fail> {
    check(rt.alloc(), OF_CLIENTS)
}

const OF_TARGETS: &str = r#"
# one thread alone is suspended
session attaches
target command 1 64.100 01 00000001 08 00000003 0000000000000001 01 0000000000000010 0000000e "Lcom/acme/Foo;" 00000007
told {"event":"terminated","seq":3,"type":"event"}
ending BadTarget { fault: PolicyThread, at: 86, id: 0 }

# a command of the same set, which is no composite
session attaches
target command 1 64.101
told {"event":"terminated","seq":3,"type":"event"}
ending BadTarget { fault: BadCommand, at: 75, id: 0 }

# a size of ids that is none
session
client {"seq":1,"type":"request","command":"attach","arguments":{"sourceRoots":["/p/src"]}}
target "JDWP-Handshake"
target reply 1 00000008 00000008 00000009 00000008 00000008
told {"body":{"error":{"format":"targetGone","id":10}},"command":"attach","message":"targetGone","request_seq":1,"seq":1,"success":false,"type":"response"}
told {"event":"terminated","seq":2,"type":"event"}
sent "JDWP-Handshake"
sent command 1 1.7
ending BadTarget { fault: BadSizes, at: 33, id: 0 }

# a reply to no command
session attaches
target reply 99
told {"event":"terminated","seq":3,"type":"event"}
ending BadTarget { fault: UnknownReply, at: 75, id: 99 }

# a packet that is too short
session attaches
target 0000000a
told {"event":"terminated","seq":3,"type":"event"}
ending BadTarget { fault: Packet(ShortLength), at: 75, id: 0 }

# an event of no kind
session attaches
target command 1 64.100 00000000 0103
told {"event":"terminated","seq":3,"type":"event"}
ending BadTarget { fault: BadKind, at: 91, id: 0 }

# a command of another set
session attaches
target command 1 1.100
told {"event":"terminated","seq":3,"type":"event"}
ending BadTarget { fault: BadCommand, at: 75, id: 0 }

# an event of no kind, which comes before it can be read
session
client {"seq":1,"type":"request","command":"attach","arguments":{"sourceRoots":["/p/src"]}}
target "JDWP-Handshake" | command 1 64.100 00000000 0103
target reply 1 00000008 00000008 00000008 00000008 00000008
told {"body":{"error":{"format":"targetGone","id":10}},"command":"attach","message":"targetGone","request_seq":1,"seq":1,"success":false,"type":"response"}
told {"event":"terminated","seq":2,"type":"event"}
sent "JDWP-Handshake"
sent command 1 1.7
ending BadTarget { fault: BadKind, at: 30, id: 0 }

# no handshake
session
target 4a445758
told {"event":"terminated","seq":1,"type":"event"}
ending BadTarget { fault: Packet(BadHandshake), at: 3, id: 0 }

# one thread alone is suspended for it
session attaches
target command 1 64.100 01 00000001 63 00000000
told {"event":"terminated","seq":3,"type":"event"}
ending BadTarget { fault: PolicyThread, at: 86, id: 0 }
"#;

#[test]
fn bytes_of_a_target_are_refused(rt: HostRuntime) -> Result<(), Fail> {
    check(rt.alloc(), OF_TARGETS)
}

const ERRORS: &str = r#"
# the list of all classes is refused
session attaches
client {"seq":2,"type":"request","command":"setBreakpoints","arguments":{"source":{"path":"/p/src/com/acme/Foo.java"},"breakpoints":[{"line":10}]}}
target reply 4 00000003
target error 5 13
told {"body":{"error":{"format":"targetGone","id":10}},"command":"setBreakpoints","message":"targetGone","request_seq":2,"seq":3,"success":false,"type":"response"}
told {"event":"terminated","seq":4,"type":"event"}
sent command 4 15.1 08 02 00000001 05 0000000a "com.acme.*"
sent command 5 1.3
sent command 6 1.6
ending TargetRefused { set: 1, command: 3, code: 13 }

# the Resume is refused
session attaches
target command 1 64.100 02 00000001 08 00000003 0000000000000001 01 0000000000000010 0000000e "Lcom/acme/Foo;" 00000007
target error 4 13
told {"event":"terminated","seq":3,"type":"event"}
sent command 4 1.9
sent command 5 1.6
ending TargetRefused { set: 1, command: 9, code: 13 }

# the sizes of ids are refused
session
client {"seq":1,"type":"request","command":"attach","arguments":{"sourceRoots":["/p/src"]}}
target "JDWP-Handshake"
target error 1 13
told {"body":{"error":{"format":"targetGone","id":10}},"command":"attach","message":"targetGone","request_seq":1,"seq":1,"success":false,"type":"response"}
told {"event":"terminated","seq":2,"type":"event"}
sent "JDWP-Handshake"
sent command 1 1.7
ending TargetRefused { set: 1, command: 7, code: 13 }

# the target won't run on behind a stop
session attaches binds stops
client {"seq":3,"type":"request","command":"continue","arguments":{"threadId":1}}
target error 10 13
told {"body":{"error":{"format":"targetGone","id":10}},"command":"continue","message":"targetGone","request_seq":3,"seq":5,"success":false,"type":"response"}
told {"event":"terminated","seq":6,"type":"event"}
sent command 10 1.9
sent command 11 1.6
ending TargetRefused { set: 1, command: 9, code: 13 }

# and not behind its start
session enters
client {"seq":2,"type":"request","command":"configurationDone"}
target error 4 13
told {"body":{"error":{"format":"targetGone","id":10}},"command":"configurationDone","message":"targetGone","request_seq":2,"seq":3,"success":false,"type":"response"}
told {"event":"terminated","seq":4,"type":"event"}
sent command 4 1.9
sent command 5 1.6
ending TargetRefused { set: 1, command: 9, code: 13 }

# a surplus isn't undone
session attaches binds stops
target command 3 64.100 02 00000001 02 00000004 0000000000000008 01 0000000000000010 0000000000000003 0000000000000005
target error 10 13
told {"body":{"allThreadsStopped":true,"hitBreakpointIds":[1],"reason":"breakpoint","threadId":2},"event":"stopped","seq":5,"type":"event"}
told {"event":"terminated","seq":6,"type":"event"}
sent command 10 1.9
sent command 11 1.6
ending TargetRefused { set: 1, command: 9, code: 13 }

# the target isn't suspended
session attaches starts_a_thread
client {"seq":2,"type":"request","command":"pause","arguments":{"threadId":1}}
target error 4 13
told {"body":{"error":{"format":"targetGone","id":10}},"command":"pause","message":"targetGone","request_seq":2,"seq":4,"success":false,"type":"response"}
told {"event":"terminated","seq":5,"type":"event"}
sent command 4 1.8
sent command 5 1.6
ending TargetRefused { set: 1, command: 8, code: 13 }
"#;

#[test]
fn errors_of_a_target_end_a_session(rt: HostRuntime) -> Result<(), Fail> {
    check(rt.alloc(), ERRORS)
}
