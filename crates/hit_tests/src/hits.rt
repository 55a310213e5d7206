//! Hits by a table: the hit condition of breakpoint 1, how often it was passed before, and how many threads it stops.
use class_tables::Classes;
use hit_values::hits_need;
use jdwp_values::{ClassId, Location, MethodId, ThreadId, TypeTag};
use look_ups::{Asked, Need, Sight};
use machine_model::{Ruled, Strike};
use rule_tables::{RuleTable, read_rules};
use std::alloc::Global;
use std::test::Fail;
use wire_core::{List, Text};
use wish_sets::EntryAt;

// Thread 7 comes to breakpoint 1.
const STRIKE: Strike = Strike {
    thread: ThreadId(7),
    at: Location {
        tag: TypeTag::Class,
        class: ClassId(32),
        method: MethodId(33),
        index: 7,
    },
    entry: EntryAt { id: 1, line: true },
};

fn ruled_of(alloc: Global, hit: &str, passed: u64) -> Result<List<Ruled>, Fail> {
    let mut ruled = List::new(alloc);
    let hit = Some(Text::from_str(alloc, hit)?);
    if let Some(rule) = read_rules(alloc, 1, &None, &hit, &None)?.ruled {
        ruled.push(Ruled {
            id: rule.id,
            condition: rule.condition,
            hit: rule.hit,
            log: rule.log,
            passed,
        })?;
    }
    Ok(ruled)
}

fn rules_of(alloc: Global, hit: &str, passed: u64) -> Result<RuleTable, Fail> {
    let mut rules = RuleTable::new(alloc);
    rules.put(
        alloc,
        &Text::from_str(alloc, "Main.java")?,
        ruled_of(alloc, hit, passed)?,
    )?;
    rules.set_functions(List::new(alloc));
    Ok(rules)
}

fn stops(alloc: Global, rules: &RuleTable) -> Result<usize, Fail> {
    let classes = Classes::new(alloc);
    let asked = Asked::new(alloc);
    let sight = Sight {
        classes: &classes,
        asked: &asked,
    };
    match hits_need(alloc, sight, rules, &[STRIKE])? {
        Need::Has(judgement) => Ok(judgement.stops.len()),
        _ => Err("a question is asked".into()),
    }
}

#[test]
fn hits_are_counted(rt: HostRuntime) -> Result<(), Fail> {
    for (hit, passed, wanted) in [
        ("", 0, 1),
        ("% 2", 0, 0),
        ("% 2", 1, 1),
        (">= 3", 1, 0),
        ("3", 2, 1),
    ] {
        let rules = rules_of(rt.alloc(), hit, passed)?;
        assert_eq!(rt; stops(rt.alloc(), &rules)?, wanted);
    }
    Ok(())
}
