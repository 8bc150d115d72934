//! Vector clocks, merged.
use vector_time::Times;

#[test]
fn merged_times_cover_what_either_covered(rt: HostRuntime) {
    let mut one = Times::new();
    one.set(2, 5);
    let mut other = Times::new();
    other.set(2, 3);
    other.set(7, 1);
    other.merge(&one);
    assert!(rt; other.covers(2, 4));
    assert!(rt; !other.covers(2, 5));
    assert!(rt; other.covers(7, 0));
    assert!(rt; !other.covers(0, 0));
}
