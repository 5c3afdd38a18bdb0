//! That as many threads as a service needs can stand at the same time, and that none is needed for none.
use fts_devices::can_begin;
use fts_tables::limits::{MAX_LANES, MAX_WORKERS};

#[test]
fn all_threads_of_a_service_begin(rt: HostRuntime) {
    assert!(rt;
        can_begin(&rt, &rt, 0),
        "none is asked for, and one is missing"
    );
    assert!(rt;
        can_begin(&rt, &rt, MAX_LANES + MAX_WORKERS),
        "one for each lane and each worker can't be made"
    );
}
