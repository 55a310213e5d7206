use crate::courses::check;
use std::test::Fail;

const LINKS: &str = r#"
# the link fails as the watch is set
session attaches
cut target 4 5
client {"seq":2,"type":"request","command":"setBreakpoints","arguments":{"source":{"path":"/p/src/com/acme/Foo.java"},"breakpoints":[{"line":10}]}}
told {"body":{"error":{"format":"targetGone","id":10}},"command":"setBreakpoints","message":"targetGone","request_seq":2,"seq":3,"success":false,"type":"response"}
told {"event":"terminated","seq":4,"type":"event"}
sent 00000020 00
ending TargetLink

# a send to the client that fails
session
cut client 1 5
client {"seq":1,"type":"request","command":"initialize","arguments":{"adapterID":"jdwp"}}
client {"seq":2,"type":"request","command":"disconnect"}
told {"body":{"exceptionBreakpointFilters":[{"filter":"caught","label":"Caught exceptions"},{"filter":"uncaught","label":"Uncaught exceptions"}],"supportTerminateDebuggee":true,"supportsConfigurationDoneRequest":true,"supportsEvaluateForHovers":true,"supportsExceptionInfoRequest":true,"supportsFunctionBreakpoints":true,"supportsSetVariable":true},"command":"initialize","request_seq":1,"seq":1,"success":true,"type":"response"}
told "Conte"
ending ClientLink

# a send to the target that fails
session
cut target 0 5
client {"seq":1,"type":"request","command":"attach","arguments":{"sourceRoots":["/p/src"]}}
told {"body":{"error":{"format":"targetGone","id":10}},"command":"attach","message":"targetGone","request_seq":1,"seq":1,"success":false,"type":"response"}
told {"event":"terminated","seq":2,"type":"event"}
sent 4a445750 2d
ending TargetLink

# and then one of the last words
session
cut target 0 5
cut client 1 3
client {"seq":1,"type":"request","command":"attach","arguments":{"sourceRoots":["/p/src"]}}
told {"body":{"error":{"format":"targetGone","id":10}},"command":"attach","message":"targetGone","request_seq":1,"seq":1,"success":false,"type":"response"}
told "Con"
sent 4a445750 2d
ending TargetLink

# it fails inside `initialized`, before the target counts as attached
session
cut client 1 45
client {"seq":1,"type":"request","command":"attach","arguments":{"sourceRoots":["/p/src"]}}
target "JDWP-Handshake"
target reply 1 00000008 00000008 00000008 00000008 00000008
target reply 2 00000001
target reply 3 00000002
told {"command":"attach","request_seq":1,"seq":1,"success":true,"type":"response"}
told "Content-Length: 46" 0d0a0d0a '{"event":"initialized",'
sent "JDWP-Handshake"
sent command 1 1.7
sent command 2 15.1 06 00 00000000
sent command 3 15.1 07 00 00000000
ending ClientLink

# and inside what is told next: the target is left to run on
session attaches
cut client 2 5
client {"seq":2,"type":"request","command":"attach","arguments":{"sourceRoots":["/p/src"]}}
told "Conte"
sent command 4 1.6
ending ClientLink

# as the stop is told
session attaches binds
cut client 3 5
target command 2 64.100 02 00000001 02 00000004 0000000000000007 01 0000000000000010 0000000000000003 0000000000000005
told "Conte"
sent command 10 1.6
ending ClientLink

# behind the reply that ends it
session attaches binds stops
cut client 4 5
client {"seq":3,"type":"request","command":"continue","arguments":{"threadId":1}}
target reply 10
told "Conte"
sent command 10 1.9
sent command 11 1.6
ending ClientLink

# as the target shall run on behind its start
session enters
cut target 4 5
client {"seq":2,"type":"request","command":"configurationDone"}
told {"body":{"error":{"format":"targetGone","id":10}},"command":"configurationDone","message":"targetGone","request_seq":2,"seq":3,"success":false,"type":"response"}
told {"event":"terminated","seq":4,"type":"event"}
sent 0000000b 00
ending TargetLink

# as the target's end is told: it counts as attached until then
session attaches
cut client 2 5
target command 1 64.100 00 00000001 63 00000000
told "Conte"
sent command 4 1.6
ending ClientLink
"#;

#[test]
fn sends_fail(rt: HostRuntime) -> Result<(), Fail> {
    check(rt.alloc(), LINKS)
}
