//! What no clause says: that scripts are played over a bare tree with ample memory, and what the
//! tree then shows at its paths.

use crate::bare::Bare;
use crate::lines::is_line;
use np_event::{Entry, read_entry};
use np_record::NodeRecord;
use np_semstep::each_event_is_of_one_group;
use np_spelling::Record;
use np_text::TenantId;
use np_tree::Tree;
use std::alloc::Global;

/// What happens at a tree, or what it shows.
enum Step {
    /// The event of the line happens, and has the line's reply.
    Line(&'static str),
    /// The node at the path has these bytes.
    Bytes(&'static str, &'static str),
    /// The child at this place has this name, and this session of the tree owns it. A session of the
    /// machine is the tree's of the next number.
    Child(&'static str, u32, &'static str, Option<u32>),
    /// So many children are at the path, or there is no such path.
    Children(&'static str, Option<u32>),
}

// One pool, one label, one job. A ready node and a node on hold are old after one tick.
const SITE: &str =
    r#"{"labels":[{"name":"a","max-ready-age":1}],"max-hold-age":1,"providers":[{"name":"c","pools":[{"name":"m","labels":[{"name":"a"}]}]}],"requesters":[{"name":"z","jobs":[{"name":"j","labels":["a"]}]}]}"#;

// Two jobs that take turns at a semaphore.
const SITE_OF_TURNS: &str =
    r#"{"labels":[{"name":"a"}],"providers":[{"name":"c","pools":[{"name":"m","labels":[{"name":"a"}]}]}],"semaphores":[{"name":"x"}],"requesters":[{"name":"z","jobs":[{"name":"j","labels":["a"],"semaphores":["x"]},{"name":"k","labels":["a"],"semaphores":["x"]}]}]}"#;

const REQUESTS: &str = "/nodepool/requests";

const REQUEST: &str = "/nodepool/requests/200-0000000000";

const REQUEST_LOCK: &str = "/nodepool/requests-lock/200-0000000000";

const NODES: &str = "/nodepool/nodes";

const NODE: &str = "/nodepool/nodes/0000000000";

const NODE_LOCK: &str = "/nodepool/nodes/0000000000/lock";

const LAUNCHERS: &str = "/nodepool/launchers";

const SEMAPHORE: &str = "/zuul/semaphores/0";

const JOB: &str = "/poolsim/jobs/0";

const SWEPT: &str = "/poolsim/swept";

const USED: &str =
    r#"{"allocated-to":"200-0000000000","attempts":1,"in-flight":false,"label":0,"pool":0,"server":1,"since":0,"start":1,"state":"used","tenant":0}"#;

const OVER: &str =
    r#"{"ending":"served","nodes":[[0,true]],"phase":"over","pool":0,"request":"200-0000000000"}"#;

// A job asks for a node, is given one, uses it and ends: its request is gone, and the records of the
// job and the node are as the job left them. Then the node goes, and nobody wants its server.
const SERVED: [Step; 29] = [
    Step::Line("open launcher p0 = session s1"),
    Step::Line("open requester q0 = session s2"),
    Step::Line("register s1 = ok"),
    Step::Line("submit s2 j0 = request 200-0000000000"),
    Step::Line("lock-request s1 200-0000000000 = held"),
    Step::Line("accept s1 200-0000000000 = ok"),
    Step::Line("create s1 200-0000000000 = node n0"),
    Step::Line("start s1 n0 = started 1 1"),
    Step::Line("done s1 n0 1 ok 1 = ok"),
    Step::Line("fulfil s1 200-0000000000 = ok"),
    Step::Line("unlock-node s1 n0 = ok"),
    Step::Line("unlock-request s1 200-0000000000 = ok"),
    Step::Line("lock-node s2 n0 = held"),
    Step::Line("take s2 j0 = ok"),
    Step::Line("end-node s2 n0 used = ok"),
    Step::Line("unlock-node s2 n0 = ok"),
    Step::Line("finish s2 j0 = ended served"),
    Step::Children(REQUESTS, Some(0)),
    Step::Children(REQUEST_LOCK, None),
    Step::Children(NODE_LOCK, Some(0)),
    Step::Bytes(NODE, USED),
    Step::Bytes(JOB, OVER),
    Step::Line("open janitor p0 = session s3"),
    Step::Line("lock-node s3 n0 = held"),
    Step::Line("mark-deleting s3 n0 = ok"),
    Step::Line("gone s3 n0 = ok"),
    Step::Line("sweep s3 n0 1 = remove"),
    Step::Children(NODES, Some(0)),
    Step::Child(SWEPT, 0, "0000000000-1", None),
];

// The first job has the semaphore until it gives it back, and then the second has it.
const TURNS: [Step; 11] = [
    Step::Line("open requester q0 = session s1"),
    Step::Line("acquire s1 j0 = ok"),
    Step::Line("acquire s1 j1 = refused semaphore-full x0"),
    Step::Line("withdraw s1 j0 = ok"),
    Step::Line("acquire s1 j1 = refused semaphore-full x0"),
    Step::Child(SEMAPHORE, 0, "0", None),
    Step::Line("release s1 j0 = ok"),
    Step::Line("acquire s1 j1 = ok"),
    Step::Line("submit s1 j1 = request 200-0000000000"),
    Step::Child(SEMAPHORE, 0, "1", None),
    Step::Children(SEMAPHORE, Some(1)),
];

// The launcher holds a request and its node, for which the requester waits. The session of the
// launcher expires and leaves each queue, and who waits behind it moves up. The janitor gives the
// request back, and waits for the node behind the requester, until that expires, too.
const EXPIRED: [Step; 27] = [
    Step::Line("open launcher p0 = session s1"),
    Step::Line("open requester q0 = session s2"),
    Step::Line("register s1 = ok"),
    Step::Line("submit s2 j0 = request 200-0000000000"),
    Step::Line("lock-request s1 200-0000000000 = held"),
    Step::Line("accept s1 200-0000000000 = ok"),
    Step::Line("create s1 200-0000000000 = node n0"),
    Step::Line("lock-node s2 n0 = queued 1"),
    Step::Child(LAUNCHERS, 0, "0", Some(2)),
    Step::Child(REQUEST_LOCK, 0, "lock-0000000000", Some(2)),
    Step::Child(NODE_LOCK, 0, "lock-0000000000", Some(2)),
    Step::Child(NODE_LOCK, 1, "lock-0000000001", Some(3)),
    Step::Line("expire s1 = ok"),
    Step::Children(LAUNCHERS, Some(0)),
    Step::Children(REQUEST_LOCK, Some(0)),
    Step::Child(NODE_LOCK, 0, "lock-0000000001", Some(3)),
    Step::Children(NODE_LOCK, Some(1)),
    Step::Line("open janitor p0 = session s3"),
    Step::Line("lock-request s3 200-0000000000 = held"),
    Step::Line("reset s3 200-0000000000 = ok"),
    Step::Line("unlock-request s3 200-0000000000 = ok"),
    Step::Line("lock-node s3 n0 = queued 1"),
    Step::Line("expire s2 = ok"),
    Step::Child(NODE_LOCK, 0, "lock-0000000002", Some(4)),
    Step::Line("mark-deleting s3 n0 = ok"),
    Step::Line("gone s3 n0 = ok"),
    Step::Children(NODES, Some(0)),
];

const UNSERVED: &str =
    r#"{"declined":[],"job":0,"labels":[0],"nodes":[],"relative-priority":0,"state":"requested"}"#;

// A job asks, and no launcher is registered. One event of each group at least is refused, and the
// tree is as it was.
const REFUSED: [Step; 19] = [
    Step::Line("open launcher p0 = session s1"),
    Step::Line("open requester q0 = session s2"),
    Step::Line("submit s2 j0 = request 200-0000000000"),
    Step::Line("register s2 = refused wrong-role"),
    Step::Line("submit s2 j0 = refused wrong-state asked"),
    Step::Line("lock-request s1 200-0000000000 = refused not-registered"),
    Step::Line("lock-request s1 200-0000000001 = refused no-request"),
    Step::Line("accept s3 200-0000000000 = refused no-session"),
    Step::Line("create s1 200-0000000000 = refused not-registered"),
    Step::Line("lock-node s1 n0 = refused no-node"),
    Step::Line("mark-deleting s2 n0 = refused wrong-role"),
    Step::Line("take s2 j0 = refused wrong-state requested"),
    Step::Line("acquire s2 j1 = refused no-job"),
    Step::Line("release s2 j0 = refused wrong-state asked"),
    Step::Line("expire s3 = refused no-session"),
    Step::Children(LAUNCHERS, Some(0)),
    Step::Children(REQUEST_LOCK, Some(0)),
    Step::Children(NODES, Some(0)),
    Step::Bytes(REQUEST, UNSERVED),
];

const FREE: &str =
    r#"{"attempts":1,"in-flight":false,"label":0,"pool":0,"server":1,"since":0,"start":1,"state":"ready","tenant":"none"}"#;

const FREE_DELETING: &str =
    r#"{"attempts":1,"in-flight":false,"label":0,"pool":0,"server":1,"since":0,"start":1,"state":"deleting","tenant":"none"}"#;

// The job of a ready node is given up, and the janitor frees the node, which then has no tenant. It
// is removed when it is old.
const FREED: [Step; 22] = [
    Step::Line("open launcher p0 = session s1"),
    Step::Line("open requester q0 = session s2"),
    Step::Line("open janitor p0 = session s3"),
    Step::Line("register s1 = ok"),
    Step::Line("submit s2 j0 = request 200-0000000000"),
    Step::Line("lock-request s1 200-0000000000 = held"),
    Step::Line("accept s1 200-0000000000 = ok"),
    Step::Line("create s1 200-0000000000 = node n0"),
    Step::Line("start s1 n0 = started 1 1"),
    Step::Line("done s1 n0 1 ok 1 = ok"),
    Step::Line("fulfil s1 200-0000000000 = ok"),
    Step::Line("unlock-node s1 n0 = ok"),
    Step::Line("withdraw s2 j0 = ok"),
    Step::Line("lock-node s3 n0 = held"),
    Step::Line("mark-deleting s3 n0 = refused allocated 200-0000000000"),
    Step::Line("free-node s3 n0 = ok"),
    Step::Bytes(NODE, FREE),
    Step::Line("tick = ok"),
    Step::Line("mark-deleting s3 n0 = refused not-due 2"),
    Step::Line("tick = ok"),
    Step::Line("mark-deleting s3 n0 = ok"),
    Step::Bytes(NODE, FREE_DELETING),
];

// A name, the site, and what happens there.
const SCRIPTS: [(&str, &str, &[Step]); 5] = [
    ("a job is served", SITE, &SERVED),
    ("jobs take turns at a semaphore", SITE_OF_TURNS, &TURNS),
    ("an expiry leaves queues", SITE, &EXPIRED),
    ("refusals leave the tree", SITE, &REFUSED),
    ("a free node has no tenant", SITE, &FREED),
];

/// The line's event happens. Whether its reply is the line's.
fn tells(alloc: Global, bare: &mut Bare, line: &str) -> bool {
    let Some(entry) = read_entry(line.as_bytes()) else {
        return false;
    };
    let event = entry.event;
    match bare.apply(event) {
        Err(_) => false,
        Ok(reply) => is_line(alloc, Entry { event, reply }, line),
    }
}

/// Whether the node at a path has these bytes.
fn holds(tree: &Tree, path: &str, bytes: &str) -> bool {
    match tree.get(path) {
        Some((found, _)) => found == bytes.as_bytes(),
        None => false,
    }
}

/// Whether the child at a place has this name and this owner.
fn has_child(tree: &Tree, path: &str, at: u32, name: &str, owner: Option<u32>) -> bool {
    matches!(tree.child_stat(path, at), Some(stat)
        if stat.owner == owner && tree.child_at(path, at) == Some(name))
}

/// Whether so many children are at the path, or whether there is no such path.
fn has_children(tree: &Tree, path: &str, count: Option<u32>) -> bool {
    match tree.exists(path) {
        Some(stat) => count == Some(stat.children),
        None => count.is_none(),
    }
}

/// Whether the step is taken, or shown, as it says.
fn takes(alloc: Global, bare: &mut Bare, step: &Step) -> bool {
    match step {
        Step::Line(line) => tells(alloc, bare, line),
        Step::Bytes(path, bytes) => holds(bare.tree(), path, bytes),
        Step::Child(path, at, name, owner) => has_child(bare.tree(), path, *at, name, *owner),
        Step::Children(path, count) => has_children(bare.tree(), path, *count),
    }
}

/// How many steps are as they say, up to the first that is not.
fn count_right(alloc: Global, bare: &mut Bare, steps: &[Step]) -> usize {
    let mut right: usize = 0;
    for step in steps {
        if !takes(alloc, bare, step) {
            return right;
        }
        right = right.wrapping_add(1);
    }
    right
}

/// How many steps are as they say in a new tree of the site.
fn play(alloc: Global, site: &str, steps: &[Step]) -> usize {
    match Bare::new(alloc, site) {
        None => 0,
        Some(mut bare) => count_right(alloc, &mut bare, steps),
    }
}

// The record of a ready node that was given to a job, as it was spelled before there were tenants.
const OLD_READY: &str =
    r#"{"allocated-to":"200-0000000000","attempts":1,"in-flight":false,"label":0,"pool":0,"server":1,"since":0,"start":1,"state":"ready"}"#;

// The record of a ready node that was given to nobody, with the same spelling.
const OLD_FREE: &str =
    r#"{"attempts":1,"in-flight":false,"label":0,"pool":0,"server":1,"since":0,"start":1,"state":"ready"}"#;

// Bytes of a node's record, and the tenant that it has. The old spelling is of the tenant 0, so a node
// without a tenant has none.
const SPELLINGS: [(&str, Option<TenantId>); 4] = [
    (OLD_READY, Some(TenantId(0))),
    (FREE, None),
    (OLD_FREE, Some(TenantId(0))),
    (USED, Some(TenantId(0))),
];

/// Whether each spelling is read as it says.
fn spellings_are_read() -> bool {
    for (bytes, tenant) in SPELLINGS {
        match NodeRecord::read(bytes.as_bytes()) {
            Ok(kept) if kept.tenant == tenant => {}
            _ => return false,
        }
    }
    true
}

#[test]
fn scripts_are_played_over_a_tree(rt: HostRuntime) {
    each_event_is_of_one_group();
    for (name, site, steps) in SCRIPTS {
        assert_eq!(rt; play(rt.alloc(), site, steps), steps.len(), "{name}");
    }
    assert!(rt; spellings_are_read(), "spellings");
}
