//! Summaries of small logs.
use run_logs::Run;
use session_summaries::{Summary, number_in, summary_of, summary_text};
use std::alloc::Global;
use std::test::Fail;
use wire_core::{Blob, Entry, List, NoMemory, Side};

// What a client says and is told, and the lines of the summary.
#[derive(Drop)]
struct Row<'a> {
    said: &'a [&'a str],
    told: &'a [&'a str],
    lines: &'a str,
}

const NONE: &str = "requests 0\nresponses 0\nevents 0\nstops 0\nsum 0\n";

const ALL: &str = "requests 2\nresponses 2\nevents 2\nstops 1\nsum 12\n";

// The frame of a body.
fn framed(alloc: Global, body: &str) -> Result<Blob, Fail> {
    let length = body.len();
    let frame = format!(in alloc; "Content-Length: {length}\r\n\r\n{body}")?;
    Ok(Blob::from_slice(alloc, frame.as_bytes())?)
}

// A log of these bodies, with waits between them, and with bytes of the target, which don't count.
fn log_of(alloc: Global, row: &Row) -> Result<List<Run>, Fail> {
    let mut log = List::new(alloc);
    for body in row.said {
        log.push(Run::One(Entry::In(Side::Client, framed(alloc, *body)?)))?;
        log.push(Run::Quiets(1_099_511_627_776))?;
    }
    log.push(Run::One(Entry::Out(Side::Target, framed(alloc, "{}")?)))?;
    Ok(log)
}

// What is told, behind that.
fn add_told(alloc: Global, row: &Row, log: &mut List<Run>) -> Result<(), Fail> {
    for body in row.told {
        log.push(Run::One(Entry::Out(Side::Client, framed(alloc, *body)?)))?;
    }
    log.push(Run::One(Entry::Shut(Side::Client)))?;
    Ok(())
}

fn summed(alloc: Global, row: &Row) -> Result<bool, Fail> {
    let mut log = log_of(alloc, row)?;
    add_told(alloc, row, &mut log)?;
    let lines = summary_text(alloc, summary_of(alloc, log.as_slice())?)?;
    Ok(lines.as_str() == row.lines)
}

#[test]
fn logs_are_summed_up(rt: HostRuntime) -> Result<(), Fail> {
    let rows = [
        Row {
            said: &[],
            told: &[],
            lines: NONE,
        },
        // Nothing behind a `disconnect` is a request, nor is an event one.
        Row {
            said: &[
                r#"{"seq":1,"type":"request","command":"threads"}"#,
                r#"{"seq":2,"type":"event","event":"x"}"#,
                r#"{"seq":3,"type":"request","command":"disconnect"}"#,
                r#"{"seq":4,"type":"request","command":"threads"}"#,
            ],
            // Each `n` of a response to `variables` counts, where it is a decimal.
            told: &[
                r#"{"type":"response","command":"variables","success":true,"body":{"variables":[{"name":"n","value":"7"},
                    {"name":"m","value":"1"},{"name":"n","value":"5"},{"name":"n","value":"-1"}]}}"#,
                r#"{"type":"response","command":"variables","success":false}"#,
                r#"{"type":"event","event":"stopped"}"#,
                r#"{"type":"event","event":"terminated"}"#,
            ],
            lines: ALL,
        },
    ];
    for row in &rows {
        if !summed(rt.alloc(), row)? {
            return Err("another summary".into());
        }
    }
    Ok(())
}

#[test]
fn numbers_have_their_lines(rt: HostRuntime) -> Result<(), Fail> {
    let summary = Summary {
        requests: 0,
        responses: 10,
        events: 18_446_744_073_709_551_615,
        stops: 1,
        sum: 1_086_234_491_460,
    };
    let lines = summary_text(rt.alloc(), summary)?;
    assert_eq!(rt;
        lines.as_str(),
        "requests 0\nresponses 10\nevents 18446744073709551615\nstops 1\nsum 1086234491460\n"
    );
    Ok(())
}

#[test]
fn decimals_of_32_bits_are_numbers(rt: HostRuntime) -> Result<(), Fail> {
    let rows = [
        ("", Some(0)),
        ("0", Some(0)),
        ("0012", Some(12)),
        ("4294967295", Some(4_294_967_295)),
        ("4294967296", None),
        ("-1", None),
        ("1.0", None),
    ];
    for (text, number) in rows {
        assert_eq!(rt; number_in(text.as_bytes()), number);
    }
    Ok(())
}
