//! Sessions by number.

use np_session::Sessions;
use std::alloc::Global;

// Sessions 1 to 3, of which 2 went mute and 3 is over: the session, and whether it is live and mute.
const ROWS: [(u32, bool, bool); 6] = [
    (0, false, false),
    (1, true, false),
    (2, true, true),
    (3, false, false),
    (4, false, false),
    (4_294_967_295, false, false),
];

fn begins_three(sessions: &mut Sessions) -> bool {
    sessions.reserve().is_ok()
        && sessions.begin() == Ok(1)
        && sessions.begin() == Ok(2)
        && sessions.begin() == Ok(3)
}

fn ends_and_goes_mute(sessions: &mut Sessions) -> bool {
    sessions.mute(2)
        && !sessions.mute(2)
        && sessions.end(3)
        && !sessions.end(3)
        && !sessions.mute(3)
        && sessions.count() == 2
}

fn are_as_in_the_table(sessions: &Sessions) -> bool {
    every!((id, live, mute) in &ROWS =>
        sessions.is_live(*id) == *live && sessions.is_mute(*id) == *mute)
}

fn sessions_go_by_number(alloc: Global) -> bool {
    let mut sessions = Sessions::new(alloc);
    begins_three(&mut sessions)
        && ends_and_goes_mute(&mut sessions)
        && are_as_in_the_table(&sessions)
}

#[test]
fn calls_go_by_number(rt: HostRuntime) {
    assert!(rt; sessions_go_by_number(rt.alloc()));
}
