use crate::streams::Tally;
use anyhow::bail;
use dap_messages::{Incoming, read_request};
use std::alloc::Global;

const BODIES: [&str; 4] = [
    r#"{"seq":1,"type":"request","command":"threads"}"#,
    r#"{"seq":2,"type":"request","command":"disconnect"}"#,
    r#"{"seq":3,"type":"request","command":"initialize","arguments":{"adapterID":"jdwp"}}"#,
    r#"{"seq":4,"type":"request","command":"attach","arguments":{"sourceRoots":["/p/src"]}}"#,
];

/// Reads so many bodies, each of which is a request.
pub fn count_requests(alloc: Global, count: usize) -> anyhow::Result<Tally> {
    let mut tally = Tally::new();
    for turn in 0..count {
        let body = BODIES[turn % 4].as_bytes();
        match read_request(alloc, body) {
            Ok(Incoming::Request(_)) => tally.add(body),
            Ok(Incoming::Ignored) => bail!("a body is passed over"),
            Err(_) => bail!("a body is refused"),
        }
    }
    Ok(tally)
}
