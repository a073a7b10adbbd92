//! Clouds that launch and remove servers.

use np_cloud::{
    Driver, Gate, LaunchFault, OpenGate, RemoveFailed, ScriptDriver, Server, SimDriver, Tag,
    simulated_clouds,
};
use np_config::Config;
use np_config_read::read_config;
use np_text::{NodeId, PoolId};
use std::alloc::Global;

// A pool whose second and third start fail.
const SITE: &str =
    r#"{"labels":[{"name":"a"}],"providers":[{"name":"c","pools":[{"name":"m","labels":[{"name":"a"}],"fail-starts":[2,3]}]}]}"#;

// The launch of this start.
fn tag(start: u32) -> Tag {
    Tag {
        pool: PoolId(0),
        node: NodeId(0),
        attempt: 1,
        start,
    }
}

fn server(start: u32, number: u64) -> Option<Server> {
    Some(Server {
        tag: tag(start),
        number,
    })
}

// Launches these starts in order. Each is answered this server, or fails.
fn launches<D: Driver>(driver: &mut D, rows: &[(u32, Option<u64>)]) -> bool {
    every!((start, number) in rows => driver.launch(tag(*start)).ok() == *number)
}

fn launches_many(cloud: &mut SimDriver) -> bool {
    every!(start in 4..10_004 => cloud.launch(tag(start)) == Ok(u64::from(start)))
}

const STARTS: [(u32, Option<u64>); 4] = [(1, Some(1)), (2, None), (3, None), (4, Some(4))];

// The planned starts fail, and then there are 10,000 servers more.
fn follows_its_plan(cloud: &mut SimDriver) -> bool {
    launches(cloud, &STARTS)
        && cloud.launch(tag(2)) == Err(LaunchFault::Failed)
        && cloud.remove(1) == Ok(())
        && cloud.server(0) == server(4, 4)
        && cloud.server(1).is_none()
        && launches_many(cloud)
        && cloud.server(10_000) == server(10_003, 10_003)
}

fn clouds_follow_their_plans(alloc: Global, config: &Config) -> bool {
    match (
        SimDriver::new(alloc, config, PoolId(0)),
        simulated_clouds(alloc, config),
    ) {
        (Ok(mut cloud), Ok(clouds)) => follows_its_plan(&mut cloud) && clouds.len() == 1,
        (Ok(_), Err(_)) | (Err(_), _) => false,
    }
}

fn simulated_clouds_fail_planned_starts(alloc: Global) -> bool {
    match read_config(alloc, SITE.as_bytes()) {
        Ok(config) => clouds_follow_their_plans(alloc, &config),
        Err(_) => false,
    }
}

const SCRIPT: [(u32, Option<u64>); 5] = [
    (1, Some(7)),
    (2, None),
    (3, Some(7)),
    (4, Some(9)),
    (5, None),
];

fn follows_its_script(driver: &mut ScriptDriver) -> bool {
    launches(driver, &SCRIPT)
        && driver.remove(7) == Ok(())
        && driver.remove(9) == Err(RemoveFailed)
        && driver.server(0) == server(4, 9)
        && driver.remove(9) == Ok(())
        && driver.server(0).is_none()
}

fn a_script_is_answered_in_order(alloc: Global) -> bool {
    let numbers = [Some(7), None, Some(7), Some(9)].to_vec(alloc);
    match (numbers, [2].to_vec(alloc)) {
        (Ok(numbers), Ok(failing)) => {
            follows_its_script(&mut ScriptDriver::new(alloc, numbers, failing))
        }
        (Ok(_), Err(_)) | (Err(_), _) => false,
    }
}

#[test]
fn clouds_answer_as_planned(rt: HostRuntime) {
    OpenGate.pass(PoolId(0));
    assert!(rt;
        simulated_clouds_fail_planned_starts(rt.alloc()),
        "a simulated cloud"
    );
    assert!(rt; a_script_is_answered_in_order(rt.alloc()), "a script");
}
