//! Conditions, counts of hits and log messages.
use break_rules::{
    Comparison, Hit, HitRule, Part, Piece, RuleFault, Seen, Template, judge, parse_condition,
    parse_hit, parse_log, render_log,
};
use field_exprs::{ExprFault, parse};
use std::alloc::Global;
use std::test::Fail;
use wire_core::{List, NoMemory, Text};

#[test]
fn kinds_that_differ_are_not_judged(rt: HostRuntime) {
    let truth = Some((Comparison::Equal, Seen::Truth(true)));
    assert!(rt; judge(Seen::Number(1), truth).is_none());
    let five = Some((Comparison::Equal, Seen::Number(5)));
    assert!(rt; judge(Seen::Number(5), five) == Some(true));
    assert!(rt; judge(Seen::Number(6), five) == Some(false));
}

#[test]
fn each_second_hit_meets_a_multiple(rt: HostRuntime) {
    let second = Hit {
        rule: HitRule::Multiple,
        count: 2,
    };
    for (hits, wanted) in [(1, false), (2, true), (3, false), (4, true)] {
        assert!(rt; second.meets(hits) == wanted);
    }
}

// The piece of the expression that a text is.
fn path_of(alloc: Global, text: &str) -> Result<Piece, ExprFault> {
    Ok(Piece::Path(parse(alloc, &Text::from_str(alloc, text)?)?))
}

fn plain_of(alloc: Global, text: &str) -> Result<Piece, NoMemory> {
    Ok(Piece::Plain(Text::from_str(alloc, text)?))
}

#[test]
fn a_message_has_its_values_in_order(rt: HostRuntime) -> Result<(), Fail> {
    let alloc = rt.alloc();
    let mut pieces = List::new(alloc);
    pieces.push(plain_of(alloc, "n is ")?)?;
    pieces.push(path_of(alloc, "n").map_err(|_| "no expression")?)?;
    pieces.push(plain_of(alloc, ", ")?)?;
    pieces.push(path_of(alloc, "b").map_err(|_| "no expression")?)?;
    let mut values = List::new(alloc);
    values.push(Text::from_str(alloc, "5")?)?;
    values.push(Text::from_str(alloc, "<noSuchName>")?)?;
    let said = render_log(alloc, &Template { pieces }, &values)?;
    assert!(rt; said.as_str() == "n is 5, <noSuchName>");
    Ok(())
}

#[test]
fn hit_conditions_are_read(rt: HostRuntime) -> Result<(), Fail> {
    let rows = [
        ("10", HitRule::Equal, 10),
        (" == 3", HitRule::Equal, 3),
        (">=3 ", HitRule::AtLeast, 3),
        ("> 2147483647", HitRule::Above, 2147483647),
        ("<=\t1", HitRule::AtMost, 1),
        ("<9", HitRule::Below, 9),
        ("% 0000000100", HitRule::Multiple, 100),
    ];
    for (text, rule, count) in rows {
        let read = parse_hit(&Text::from_str(rt.alloc(), text)?);
        assert!(rt; read == Ok(Hit { rule, count }));
    }
    for text in [
        "",
        "0",
        "= 3",
        "> = 3",
        "2147483648",
        "00000000001",
        "3 %",
        "-1",
        "n",
    ] {
        let read = parse_hit(&Text::from_str(rt.alloc(), text)?);
        assert!(rt; read == Err(RuleFault::Outside));
    }
    Ok(())
}

#[test]
fn conditions_are_read(rt: HostRuntime) -> Result<(), Fail> {
    let alloc = rt.alloc();
    let read = parse_condition(alloc, &Text::from_str(alloc, " n >= -9223372036854775808")?);
    let rest = read.map_err(|_| "no condition")?.rest;
    assert!(rt;
        matches!(
            rest,
            Some((Comparison::GreaterEqual, Part::Number(-9223372036854775808)))
        )
    );
    for text in [
        "",
        "n >",
        "n = 5",
        "n.size() > 3",
        "1 < n < 3",
        "9223372036854775808 == n",
        "! done",
    ] {
        let read = parse_condition(alloc, &Text::from_str(alloc, text)?);
        assert!(rt; matches!(read, Err(RuleFault::Outside)));
    }
    Ok(())
}

#[test]
fn log_messages_are_read(rt: HostRuntime) -> Result<(), Fail> {
    let alloc = rt.alloc();
    let brace = parse_log(alloc, &Text::from_str(alloc, "}")?).map_err(|_| "no message")?;
    assert!(rt; render_log(alloc, &brace, &List::new(alloc))?.as_str() == "}");
    for text in ["{", "a {} b", "{n", "{1}"] {
        let read = parse_log(alloc, &Text::from_str(alloc, text)?);
        assert!(rt; matches!(read, Err(RuleFault::Outside)));
    }
    Ok(())
}
