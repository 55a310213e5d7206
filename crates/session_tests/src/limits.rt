use crate::courses::check;
use std::test::Fail;

const LIMITS: &str = r#"
# nothing comes for long
session
limits 99 3 9
quiet
quiet
quiet
told {"event":"terminated","seq":1,"type":"event"}
ending Idle

# and then something does
session
limits 99 3 9
quiet
quiet
client {"seq":1,"type":"request","command":"disconnect"}
quiet
told {"command":"disconnect","request_seq":1,"seq":1,"success":true,"type":"response"}
ending Done

# all turns are taken
session
limits 2 9 9
quiet
quiet
ending Spent

# too many requests wait
session attaches
limits 99 9 1
client {"seq":2,"type":"request","command":"threads"} | {"seq":3,"type":"request","command":"threads"} | {"seq":4,"type":"request","command":"threads"}
sent command 4 1.4
sent command 5 1.6
ending Flood
"#;

#[test]
fn limits_end_a_session(rt: HostRuntime) -> Result<(), Fail> {
    check(rt.alloc(), LIMITS)
}
