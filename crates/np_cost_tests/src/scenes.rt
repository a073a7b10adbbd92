//! Sites that are played to a scene in which much waits.

ghost use Rattle.np_changes.specs.Prelude.{Fits, IsReached};

use np_config::Config;
use np_config_read::read_config;
use np_event::Event;
use np_jobs::choose;
use np_look::{Look, Rows};
use np_rules::{Plain, new_plain};
use np_text::{PoolId, RequestId, RequesterId, Role};
use std::alloc::Global;

/// What happens after the parties have acted.
#[derive(Clone, Copy)]
pub enum Deed {
    Nothing,
    /// The session of the second requester joins the queues of the nodes with even numbers.
    QueueForNodes,
    /// The launcher of the second pool accepts each request that it may, and goes on to hold it.
    AcceptRequests,
    /// The launcher of the second pool accepts each request that it may, and its session expires.
    LeaveRequests,
}

/// A site with jobs of the first requester that are alike, and what its parties do.
pub struct Scene {
    pub name: &'static str,
    /// The text of the site before its jobs.
    pub head: &'static str,
    /// The rest of the text of a job with an even number, after its name.
    pub even: &'static str,
    /// The rest of the text of any other job.
    pub odd: &'static str,
    /// Who acts, in this order, and how often at most.
    pub acts: &'static [(Role, u32)],
    pub deed: Deed,
    /// There are so many requests and nodes at least for each two jobs.
    pub requests: u32,
    pub nodes: u32,
    /// Whose choices and changes are counted: a choice may cost what the party itself queues for.
    pub counted: &'static [Role],
}

/// After the jobs of the first requester: one job of the second.
const TAIL: &str = r#"]},{"name":"r","jobs":[{"name":"k","labels":["a"],"semaphores":["x"]}]}]}"#;

pub const LAUNCHER: Role = Role::Launcher(PoolId(0));

pub const OTHER_LAUNCHER: Role = Role::Launcher(PoolId(1));

pub const JANITOR: Role = Role::Janitor(PoolId(0));

pub const OTHER_JANITOR: Role = Role::Janitor(PoolId(1));

pub const REQUESTER: Role = Role::Requester(RequesterId(0));

pub const OTHER_REQUESTER: Role = Role::Requester(RequesterId(1));

/// As often as there is something to do.
const ALL: u32 = 100_000;

const ROLES: [Role; 7] = [
    LAUNCHER,
    OTHER_LAUNCHER,
    JANITOR,
    OTHER_JANITOR,
    REQUESTER,
    OTHER_REQUESTER,
    Role::Reaper,
];

const ROLES_WITHOUT_HOLDER: [Role; 6] = [
    LAUNCHER,
    JANITOR,
    OTHER_JANITOR,
    REQUESTER,
    OTHER_REQUESTER,
    Role::Reaper,
];

pub const SCENES: [Scene; 5] = [
    Scene {
        name: "jobs wait for nodes",
        head: r#"{"labels":[{"name":"a"}],"providers":[{"name":"c","pools":[{"name":"m","max-servers":1,"labels":[{"name":"a"}]},{"name":"o","max-servers":1,"labels":[{"name":"a"}]}]}],"semaphores":[{"name":"x"}],"requesters":[{"name":"q","window":4096,"jobs":["#,
        even: r#"","labels":["a"]}"#,
        odd: r#"","labels":["a","a"]}"#,
        acts: &[
            (REQUESTER, ALL),
            (LAUNCHER, ALL),
            (JANITOR, 1),
            (OTHER_REQUESTER, ALL),
        ],
        deed: Deed::Nothing,
        requests: 2,
        nodes: 0,
        counted: &ROLES,
    },
    Scene {
        name: "jobs wait for semaphores",
        head: r#"{"labels":[{"name":"a"}],"providers":[{"name":"c","pools":[{"name":"m","labels":[{"name":"a"}]},{"name":"o","labels":[]}]}],"semaphores":[{"name":"x"}],"requesters":[{"name":"q","window":4096,"jobs":["#,
        even: r#"","labels":["a"],"semaphores":["x"]}"#,
        odd: r#"","labels":["a"],"semaphores":["x"],"resources-first":true}"#,
        acts: &[
            (OTHER_REQUESTER, 2),
            (REQUESTER, ALL),
            (LAUNCHER, ALL),
            (JANITOR, ALL),
            (REQUESTER, ALL),
        ],
        deed: Deed::Nothing,
        requests: 1,
        nodes: 1,
        counted: &ROLES,
    },
    Scene {
        name: "nodes are on hold, and half of them locked",
        head: r#"{"labels":[{"name":"a"}],"max-hold-age":1000,"providers":[{"name":"c","pools":[{"name":"m","labels":[{"name":"a"}]},{"name":"o","labels":[]}]}],"semaphores":[{"name":"x"}],"requesters":[{"name":"q","window":4096,"jobs":["#,
        even: r#"","labels":["a"],"end":"hold"}"#,
        odd: r#"","labels":["a"],"end":"hold"}"#,
        acts: &[
            (REQUESTER, ALL),
            (LAUNCHER, ALL),
            (REQUESTER, ALL),
            (JANITOR, ALL),
            (LAUNCHER, ALL),
            (OTHER_REQUESTER, 1),
        ],
        deed: Deed::QueueForNodes,
        requests: 0,
        nodes: 2,
        counted: &ROLES,
    },
    Scene {
        name: "requests are pending by another pool",
        head: r#"{"labels":[{"name":"a"}],"providers":[{"name":"c","pools":[{"name":"m","max-servers":1,"labels":[{"name":"a"}]},{"name":"o","labels":[{"name":"a"}]}]}],"semaphores":[{"name":"x"}],"requesters":[{"name":"q","window":4096,"jobs":["#,
        even: r#"","labels":["a"]}"#,
        odd: r#"","labels":["a"]}"#,
        acts: &[
            (REQUESTER, ALL),
            (OTHER_LAUNCHER, 2),
            (LAUNCHER, 2),
            (JANITOR, 1),
            (OTHER_JANITOR, 1),
        ],
        deed: Deed::AcceptRequests,
        requests: 2,
        nodes: 0,
        counted: &ROLES_WITHOUT_HOLDER,
    },
    Scene {
        name: "requests are pending by another pool, and nobody holds them",
        head: r#"{"labels":[{"name":"a"}],"providers":[{"name":"c","pools":[{"name":"m","max-servers":1,"labels":[{"name":"a"}]},{"name":"o","labels":[{"name":"a"}]}]}],"semaphores":[{"name":"x"}],"requesters":[{"name":"q","window":4096,"jobs":["#,
        even: r#"","labels":["a"]}"#,
        odd: r#"","labels":["a"]}"#,
        acts: &[
            (REQUESTER, ALL),
            (OTHER_LAUNCHER, 2),
            (LAUNCHER, 2),
            (JANITOR, 1),
            (OTHER_JANITOR, 1),
        ],
        deed: Deed::LeaveRequests,
        requests: 2,
        nodes: 0,
        counted: &ROLES,
    },
];

/// Appends the jobs of the first requester.
fn put_jobs(alloc: Global, text: &mut Vec<u8>, scene: &Scene, jobs: u32) -> Option<()> {
    for at in 0..jobs {
        if at > 0 {
            text.push(b',').ok()?;
        }
        text.extend_from_slice(b"{\"name\":\"j").ok()?;
        let number = at.to_string(alloc).ok()?;
        text.extend_from_slice(number.as_bytes()).ok()?;
        let rest = if at % 2 == 0 { scene.even } else { scene.odd };
        text.extend_from_slice(rest.as_bytes()).ok()?;
    }
    Some(())
}

/// The site with so many jobs of the first requester.
fn config_with(alloc: Global, scene: &Scene, jobs: u32) -> Option<Config> {
    let mut text = Vec::new(alloc);
    text.extend_from_slice(scene.head.as_bytes()).ok()?;
    put_jobs(alloc, &mut text, scene, jobs)?;
    text.extend_from_slice(TAIL.as_bytes()).ok()?;
    match read_config(alloc, text.as_slice()) {
        Ok(config) => Some(config),
        Err(_) => None,
    }
}

/// A run leads to the machine's state, whose numbers leave room. The call does nothing.
pub fn know_soundness(machine: &Plain)
    ensures reached { IsReached machine.now.configuration machine.now.state }
    ensures fits { Fits machine.now.configuration machine.now.state }
{
    machine.know_soundness();
}

/// The event that the role chooses.
pub fn choice_of(machine: &Plain, role: Role) -> Option<Event> {
    know_soundness(machine);
    choose(machine, role)
}

/// The role makes useful events, so many at most. None if memory runs out.
fn act(machine: &mut Plain, role: Role, most: u32) -> Option<()> {
    for _event in 0..most {
        let Some(event) = choice_of(machine, role) else {
            return Some(());
        };
        if machine.apply(event).is_err() {
            return None;
        }
    }
    Some(())
}

/// The session of the second requester joins the queues of the nodes with even numbers.
fn queue_for_nodes(machine: &mut Plain) -> Option<()> {
    let session = machine.current_session(OTHER_REQUESTER)?;
    for at in 0..machine.rows().nodes() {
        if at % 2 == 0 {
            let node = machine.rows().node_at(at)?;
            machine.apply(Event::LockNode { session, node }).ok()?;
        }
    }
    Some(())
}

/// The first request that the launcher of the second pool may take up.
fn first_open(machine: &Plain) -> Option<RequestId> {
    know_soundness(machine);
    machine.first_of(PoolId(1))
}

/// The launcher of the second pool accepts each request that it may.
fn accept_requests(machine: &mut Plain) -> Option<()> {
    let session = machine.current_session(OTHER_LAUNCHER)?;
    for _at in 0..machine.rows().requests() {
        let request = first_open(machine)?;
        machine.apply(Event::LockRequest { session, request }).ok()?;
        machine.apply(Event::Accept { session, request }).ok()?;
    }
    Some(())
}

/// The session of the launcher of the second pool expires.
fn expire_launcher(machine: &mut Plain) -> Option<()> {
    let session = machine.current_session(OTHER_LAUNCHER)?;
    machine.apply(Event::Expire { session }).ok()?;
    Some(())
}

/// What happens after the parties have acted.
fn do_deed(machine: &mut Plain, deed: Deed) -> Option<()> {
    match deed {
        Deed::Nothing => Some(()),
        Deed::QueueForNodes => queue_for_nodes(machine),
        Deed::AcceptRequests => accept_requests(machine),
        Deed::LeaveRequests => {
            accept_requests(machine)?;
            expire_launcher(machine)
        }
    }
}

/// The parties act as the scene says. None unless there is then as much as it says.
fn play(machine: &mut Plain, scene: &Scene, jobs: u32) -> Option<()> {
    for (role, most) in scene.acts {
        act(machine, *role, *most)?;
    }
    do_deed(machine, scene.deed)?;
    let pairs = jobs / 2;
    let rows = machine.rows();
    let is_full = rows.requests() >= pairs.saturating_mul(scene.requests)
        && rows.nodes() >= pairs.saturating_mul(scene.nodes);
    is_full.then_some(())
}

/// The machine in the scene with so many jobs.
pub fn scene_with(alloc: Global, scene: &Scene, jobs: u32) -> Option<Plain> {
    match new_plain(alloc, config_with(alloc, scene, jobs)?) {
        Ok(mut machine) => match play(&mut machine, scene, jobs) {
            Some(()) => Some(machine),
            None => None,
        },
        Err(_) => None,
    }
}
