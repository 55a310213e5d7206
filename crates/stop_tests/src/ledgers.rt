use jdwp_events::Policy;
use suspend_ledger::Ledger;

#[test]
fn held_rises_at_composites_and_suspends_and_falls_at_resumes(rt: HostRuntime) {
    let mut ledger = Ledger::new();
    assert_eq!(rt; ledger.held(), 0);
    for (policy, held) in [
        (Policy::All, 1),
        (Policy::NoThread, 1),
        (Policy::EventThread, 1),
        (Policy::All, 2),
    ] {
        assert!(rt; ledger.held() < 9);
        ledger.composite(policy);
        assert_eq!(rt; ledger.held(), held);
    }
    assert!(rt; ledger.held() < 9);
    ledger.suspended();
    assert_eq!(rt; ledger.held(), 3);
    for held in [2, 1, 0] {
        assert!(rt; ledger.held() > 0);
        ledger.resumed();
        assert_eq!(rt; ledger.held(), held);
    }
}
