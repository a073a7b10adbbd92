//! A site whose cloud fails launches and removals.

use np_cloud::{Driver, OpenGate, ScriptDriver, Tag, simulated_clouds};
use np_config_read::read_config;
use np_look::{Look, Rows};
use np_rounds::{Ended, run_rounds};
use np_text::{Ending, JobId, NoMemory, NodeId, PoolId};
use std::alloc::Global;
use std::sync::Wait;
use std::thread::Threads;

/// One pool, one label, one job.
const SITE: &str =
    r#"{"labels":[{"name":"a"}],"providers":[{"name":"c","pools":[{"name":"m","labels":[{"name":"a"}]}]}],"requesters":[{"name":"z","jobs":[{"name":"j","labels":["a"]}]}]}"#;

/// A cloud with a server of a node that is not there. The next launch fails, and the one after it
/// succeeds; the first and the third removal fail.
fn cloud(alloc: Global) -> Result<ScriptDriver, NoMemory> {
    let answers = Vec::from_array(alloc, [Some(5), None, Some(7)])?;
    let mut cloud = ScriptDriver::new(alloc, answers, Vec::from_array(alloc, [1, 3])?);
    let tag = Tag {
        pool: PoolId(0),
        node: NodeId(9),
        attempt: 1,
        start: 9,
    };
    let _ = cloud.launch(tag);
    Ok(cloud)
}

/// Whether the one job was served, no node and no server is left, and nothing is left to do.
fn is_done(ended: &Ended<ScriptDriver>) -> bool {
    let rows = ended.board.machine().rows();
    let ending = rows.job(JobId(0)).and_then(|job| job.ending);
    ending == Some(Ending::Served)
        && rows.nodes() == 0
        && ended.drivers.iter().all(|cloud| cloud.server(0).is_none())
        && !ended.full
}

/// Whether what failed is made good in a later round: the launch, the removal of the server that
/// nobody wants, and that of the job's node.
pub fn is_made_good<R: Threads + Wait + Sync + AllocGlobal>(rt: &R) -> Result<bool, NoMemory> {
    let alloc = rt.alloc();
    let Ok(config) = read_config(alloc, SITE.as_bytes()) else {
        return Ok(false);
    };
    let clouds = Vec::from_array(alloc, [cloud(alloc)?])?;
    if simulated_clouds(alloc, &config)?.len() != clouds.len() {
        return Ok(false);
    }
    let ended = run_rounds(rt, alloc, config, clouds, false, &OpenGate)?;
    Ok(is_done(&ended))
}
