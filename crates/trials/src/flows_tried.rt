// Counts at their limits.
use flows::Counts;

#[test]
fn counts_within_the_limits_of_flows(rt: HostRuntime) {
    assert!(rt; Counts::new(1, 0).is_some() && Counts::new(64, 16).is_some());
    assert!(rt;
        Counts::new(0, 0).is_none() && Counts::new(65, 0).is_none() && Counts::new(64, 17).is_none()
    );
}
