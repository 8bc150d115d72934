//! Logs without records: which one is in order, and what the other one breaks.
use bn_base::Settings;
use log_file::tally_of;
use log_order::OrderBreak;
use std::test::*;

// What the order of a log without records breaks that dropped so many.
fn broken(dropped: u64) -> Option<OrderBreak> {
    match tally_of(1, &Settings::default(), dropped, &[]) {
        Ok(tally) => tally.broken,
        Err(_) => None,
    }
}

// Without records a log with dropped ones is in order, and one without lacks its hart's End.
#[test]
fn a_log_without_records_lacks_an_end(rt: HostRuntime) {
    assert!(rt; broken(5) == None);
    assert!(rt; broken(0) == Some(OrderBreak { at: 0, rule: 6 }));
}
