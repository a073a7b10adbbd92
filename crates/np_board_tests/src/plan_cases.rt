//! Worked cases: what plans are made, how they are committed, and by what they go stale.
//!
//! The call that makes a tree is its first change. Each event that is accepted is one more, and the
//! end of a session another: so of each answer the change can be counted from the lines before it.

use crate::plan_script::Answer::{Did, Fired, Idle, Planned, Stale};
use crate::plan_script::Script;
use crate::plan_script::Step::{self, Asks, Line};
use crate::sites::{FAILS, KEPT_READY, ONE_JOB, SERVED, TOO_SMALL};
use np_board::PlanAsk;
use np_planned::Spot;
use np_text::{Ending, NodeId, PoolId, RequestId, SessionId};

// One pool, one label, two jobs.
const SITE_OF_TWO_JOBS: &str =
    r#"{"labels":[{"name":"a"}],"providers":[{"name":"c","pools":[{"name":"m","labels":[{"name":"a"}]}]}],"requesters":[{"name":"z","jobs":[{"name":"j","labels":["a"]},{"name":"k","labels":["a"]}]}]}"#;

// The same with two pools, too.
const SITE_OF_TWO_POOLS: &str =
    r#"{"labels":[{"name":"a"}],"providers":[{"name":"c","pools":[{"name":"m","labels":[{"name":"a"}]}]},{"name":"d","pools":[{"name":"m","labels":[{"name":"a"}]}]}],"requesters":[{"name":"z","jobs":[{"name":"j","labels":["a"]},{"name":"k","labels":["a"]}]}]}"#;

// The job asks for two nodes.
const SITE_OF_TWO_NODES: &str =
    r#"{"labels":[{"name":"a"}],"providers":[{"name":"c","pools":[{"name":"m","labels":[{"name":"a"}]}]}],"requesters":[{"name":"z","jobs":[{"name":"j","labels":["a","a"]}]}]}"#;

// A node is kept ready.
const SITE_WITH_READY: &str =
    r#"{"labels":[{"name":"a","min-ready":1}],"providers":[{"name":"c","pools":[{"name":"m","labels":[{"name":"a"}]}]}],"requesters":[{"name":"z","jobs":[{"name":"j","labels":["a"]}]}]}"#;

// The job asks for more nodes than the pool may have.
const SITE_TOO_SMALL: &str =
    r#"{"labels":[{"name":"a"}],"providers":[{"name":"c","pools":[{"name":"m","max-servers":2,"labels":[{"name":"a"}]}]}],"requesters":[{"name":"z","jobs":[{"name":"j","labels":["a","a","a"]}]}]}"#;

// The first three starts fail.
const SITE_THAT_FAILS: &str =
    r#"{"labels":[{"name":"a"}],"providers":[{"name":"c","pools":[{"name":"m","labels":[{"name":"a"}],"fail-starts":[1,2,3]}]}],"requesters":[{"name":"z","jobs":[{"name":"j","labels":["a"]}]}]}"#;

const P0: PoolId = PoolId(0);

const P1: PoolId = PoolId(1);

const PEEK: PlanAsk = PlanAsk::Peek(P0);

const NEWS: PlanAsk = PlanAsk::News(P0);

const COMMIT: PlanAsk = PlanAsk::Commit(P0);

const SESSION: Spot = Spot::Session(SessionId(1));

const LAUNCHER: Spot = Spot::Launcher(P0);

const REQUEST: Spot = Spot::Request(RequestId {
    priority: 200,
    seq: 0,
});

const REQUEST_LOCK: Spot = Spot::RequestLock(RequestId {
    priority: 200,
    seq: 0,
});

const NEXT_REQUEST: Spot = Spot::Request(RequestId {
    priority: 200,
    seq: 1,
});

const NEXT_REQUEST_LOCK: Spot = Spot::RequestLock(RequestId {
    priority: 200,
    seq: 1,
});

const NODE: Spot = Spot::Node(NodeId(0));

const NODE_LOCK: Spot = Spot::NodeLock(NodeId(0));

const NEXT_NODE: Spot = Spot::Node(NodeId(1));

const NEXT_NODE_LOCK: Spot = Spot::NodeLock(NodeId(1));

// The spots of the node's start, and of its unlocking.
const OF_NODE: [Spot; 3] = [SESSION, NODE, NODE_LOCK];

const OF_NEXT_NODE: [Spot; 3] = [SESSION, NEXT_NODE, NEXT_NODE_LOCK];

const OF_FULFIL: [Spot; 6] = [SESSION, LAUNCHER, REQUEST, REQUEST_LOCK, NODE, NODE_LOCK];

const OF_TAKE_READY: [Spot; 6] = [
    SESSION,
    LAUNCHER,
    NEXT_REQUEST,
    NEXT_REQUEST_LOCK,
    NODE,
    NODE_LOCK,
];

// A request that the launcher holds, at change 6.
const ASKED: [Step; 5] = [
    Line("open launcher p0 = session s1"),
    Line("open requester q0 = session s2"),
    Line("register s1 = ok"),
    Line("submit s2 j0 = request 200-0000000000"),
    Line("lock-request s1 200-0000000000 = held"),
];

// A node that the launcher is to start, at change 8.
const BUILDING: [Step; 7] = [
    Line("open launcher p0 = session s1"),
    Line("open requester q0 = session s2"),
    Line("register s1 = ok"),
    Line("submit s2 j0 = request 200-0000000000"),
    Line("lock-request s1 200-0000000000 = held"),
    Line("accept s1 200-0000000000 = ok"),
    Line("create s1 200-0000000000 = node n0"),
];

// The node is ready, and its request can be fulfilled, at change 10.
const BUILT: [Step; 9] = [
    Line("open launcher p0 = session s1"),
    Line("open requester q0 = session s2"),
    Line("register s1 = ok"),
    Line("submit s2 j0 = request 200-0000000000"),
    Line("lock-request s1 200-0000000000 = held"),
    Line("accept s1 200-0000000000 = ok"),
    Line("create s1 200-0000000000 = node n0"),
    Line("start s1 n0 = started 1 1"),
    Line("done s1 n0 1 ok 1 = ok"),
];

// A node that the launcher is to start, and a janitor, at change 9.
const WITH_JANITOR: [Step; 8] = [
    Line("open launcher p0 = session s1"),
    Line("open requester q0 = session s2"),
    Line("open janitor p0 = session s3"),
    Line("register s1 = ok"),
    Line("submit s2 j0 = request 200-0000000000"),
    Line("lock-request s1 200-0000000000 = held"),
    Line("accept s1 200-0000000000 = ok"),
    Line("create s1 200-0000000000 = node n0"),
];

// A ready node, and a request that may have it, at change 15.
const READY: [Step; 14] = [
    Line("open launcher p0 = session s1"),
    Line("open requester q0 = session s2"),
    Line("register s1 = ok"),
    Line("min-ready s1 l0 = request 400-0000000000"),
    Line("lock-request s1 400-0000000000 = held"),
    Line("accept s1 400-0000000000 = ok"),
    Line("create s1 400-0000000000 = node n0"),
    Line("start s1 n0 = started 1 1"),
    Line("done s1 n0 1 ok 1 = ok"),
    Line("fulfil s1 400-0000000000 = ok"),
    Line("unlock-node s1 n0 = ok"),
    Line("submit s2 j0 = request 200-0000000001"),
    Line("lock-request s1 200-0000000001 = held"),
    Line("accept s1 200-0000000001 = ok"),
];

// A case: its name, its site and what happens first, what is left, and the steps then.
macro_rules! script {
    (
        $name:literal, $site:ident after $before:expr, commits $commits:literal,
        ends [$($end:expr),*]: $($step:expr,)*
    ) => {
        Script {
            name: $name,
            site: $site,
            before: &$before,
            steps: &[$($step),*],
            plays_on: false,
            commits: $commits,
            endings: &[$($end),*],
        }
    };
    ($name:literal, $site:ident plays on, commits $commits:literal, ends [$($end:expr),*]) => {
        Script {
            name: $name,
            site: $site,
            before: &[],
            steps: &[],
            plays_on: true,
            commits: $commits,
            endings: &[$($end),*],
        }
    };
}

// Plans that are committed, by themselves and after others.
pub static COMMITS: [Script; 4] = [
    script!("a plan is committed", ONE_JOB after BUILDING, commits 1, ends [None]:
        Asks(PEEK, Planned(P0, "start s1 n0", 8, &OF_NODE)),
        Asks(COMMIT, Did("start s1 n0 = started 1 1")),
        Asks(COMMIT, Idle),
    ),
    script!("a session waits for the plan's node", ONE_JOB after BUILDING, commits 0, ends [None]:
        Asks(PEEK, Planned(P0, "start s1 n0", 8, &OF_NODE)),
        Line("lock-node s2 n0 = queued 1"),
        Asks(NEWS, Fired(NODE_LOCK)),
        Asks(COMMIT, Stale(NODE_LOCK, 9)),
        Asks(COMMIT, Idle),
    ),
    script!("nothing changed", ONE_JOB after BUILDING, commits 1, ends [None]:
        Asks(PEEK, Planned(P0, "start s1 n0", 8, &OF_NODE)),
        Asks(NEWS, Idle),
        Line("tick = ok"),
        Asks(NEWS, Idle),
        Asks(COMMIT, Did("start s1 n0 = started 1 1")),
        Asks(NEWS, Idle),
        Asks(PEEK, Idle),
    ),
    script!("a plan is made anew", ONE_JOB after BUILDING, commits 1, ends [None]:
        Asks(PEEK, Planned(P0, "start s1 n0", 8, &OF_NODE)),
        Line("lock-node s2 n0 = queued 1"),
        Asks(PEEK, Planned(P0, "start s1 n0", 9, &OF_NODE)),
        Asks(NEWS, Idle),
        Asks(COMMIT, Did("start s1 n0 = started 1 1")),
    ),
];

// What happens to the plan's node in between.
pub static NODES: [Script; 5] = [
    // A launcher that has nothing to plan keeps the plan that it has.
    script!("the event happens without the plan", ONE_JOB after BUILDING, commits 0, ends [None]:
        Asks(PEEK, Planned(P0, "start s1 n0", 8, &OF_NODE)),
        Line("start s1 n0 = started 1 1"),
        Asks(PEEK, Idle),
        Asks(NEWS, Fired(NODE)),
        Asks(NEWS, Idle),
        Asks(COMMIT, Stale(NODE, 9)),
        Asks(COMMIT, Idle),
    ),
    script!("the plan's node is locked again", ONE_JOB after BUILDING, commits 0, ends [None]:
        Asks(PEEK, Planned(P0, "start s1 n0", 8, &OF_NODE)),
        Line("unlock-node s1 n0 = ok"),
        Line("lock-node s1 n0 = held"),
        Asks(NEWS, Fired(NODE_LOCK)),
        Asks(COMMIT, Stale(NODE_LOCK, 10)),
    ),
    script!("the plan's node is replaced and locked again",
        ONE_JOB after WITH_JANITOR, commits 0, ends [None]:
        Asks(PEEK, Planned(P0, "start s1 n0", 9, &OF_NODE)),
        Line("unlock-node s1 n0 = ok"),
        Line("lock-node s3 n0 = held"),
        Line("mark-deleting s3 n0 = ok"),
        Line("unlock-node s3 n0 = ok"),
        Line("lock-node s1 n0 = held"),
        Asks(NEWS, Fired(NODE)),
        Asks(NEWS, Fired(NODE_LOCK)),
        Asks(NEWS, Idle),
        Asks(COMMIT, Stale(NODE, 12)),
    ),
    script!("the plan's node is gone", ONE_JOB after WITH_JANITOR, commits 0, ends [None]:
        Asks(PEEK, Planned(P0, "start s1 n0", 9, &OF_NODE)),
        Line("unlock-node s1 n0 = ok"),
        Line("lock-node s3 n0 = held"),
        Line("mark-deleting s3 n0 = ok"),
        Line("gone s3 n0 = ok"),
        Asks(NEWS, Fired(NODE)),
        Asks(NEWS, Fired(NODE_LOCK)),
        Asks(NEWS, Idle),
        Asks(COMMIT, Stale(NODE, 13)),
    ),
    // The number of a node is not used again, nor that of a request or a session: the directory counts
    // them, and a tree never counts back. So the next node stands at another path, and all that can
    // happen at the path of the plan is that its node is replaced, or is gone.
    script!("the plan's node is gone, and a node is made",
        SITE_OF_TWO_JOBS after WITH_JANITOR, commits 1, ends [None, None]:
        Asks(PEEK, Planned(P0, "start s1 n0", 9, &OF_NODE)),
        Line("unlock-node s1 n0 = ok"),
        Line("lock-node s3 n0 = held"),
        Line("mark-deleting s3 n0 = ok"),
        Line("gone s3 n0 = ok"),
        Line("submit s2 j1 = request 200-0000000001"),
        Line("lock-request s1 200-0000000001 = held"),
        Line("accept s1 200-0000000001 = ok"),
        Line("create s1 200-0000000001 = node n1"),
        Asks(COMMIT, Stale(NODE, 17)),
        Asks(PEEK, Planned(P0, "start s1 n1", 17, &OF_NEXT_NODE)),
        Asks(COMMIT, Did("start s1 n1 = started 1 1")),
    ),
];

// What happens to its session, or to another.
pub static SESSIONS: [Script; 4] = [
    // No path tells that a session has ended, but it leaves each queue.
    script!("the plan's session expires", ONE_JOB after BUILDING, commits 0, ends [None]:
        Asks(PEEK, Planned(P0, "start s1 n0", 8, &OF_NODE)),
        Line("expire s1 = ok"),
        Asks(NEWS, Fired(NODE_LOCK)),
        Asks(NEWS, Idle),
        Asks(COMMIT, Stale(NODE_LOCK, 10)),
    ),
    script!("the session of a fulfil expires", ONE_JOB after BUILT, commits 0, ends [None]:
        Asks(PEEK, Planned(P0, "fulfil s1 200-0000000000", 10, &OF_FULFIL)),
        Line("expire s1 = ok"),
        Asks(NEWS, Fired(LAUNCHER)),
        Asks(NEWS, Fired(REQUEST_LOCK)),
        Asks(NEWS, Fired(NODE_LOCK)),
        Asks(NEWS, Idle),
        Asks(COMMIT, Stale(LAUNCHER, 12)),
    ),
    script!("the plan's session crashes", ONE_JOB after BUILDING, commits 0, ends [None]:
        Asks(PEEK, Planned(P0, "start s1 n0", 8, &OF_NODE)),
        Line("crash s1 = ok"),
        Asks(NEWS, Fired(SESSION)),
        Asks(NEWS, Idle),
        Asks(COMMIT, Stale(SESSION, 9)),
    ),
    // The test of a path is coarse: another child of the directory is a change, too.
    script!("a session is opened", ONE_JOB after BUILDING, commits 0, ends [None]:
        Asks(PEEK, Planned(P0, "start s1 n0", 8, &OF_NODE)),
        Line("open janitor p0 = session s3"),
        Asks(NEWS, Fired(SESSION)),
        Asks(COMMIT, Stale(SESSION, 9)),
    ),
];

// What happens to its request, and a reply that is given anew.
pub static REQUESTS: [Script; 3] = [
    script!("the plan's request is withdrawn",
        ONE_JOB after BUILT, commits 0, ends [Some(Ending::Withdrawn)]:
        Asks(PEEK, Planned(P0, "fulfil s1 200-0000000000", 10, &OF_FULFIL)),
        Line("withdraw s2 j0 = ok"),
        Asks(NEWS, Fired(REQUEST)),
        Asks(NEWS, Fired(REQUEST_LOCK)),
        Asks(NEWS, Idle),
        Asks(COMMIT, Stale(REQUEST, 11)),
    ),
    // The judgement of a start does not read the request.
    script!("the request of a start is withdrawn",
        ONE_JOB after BUILDING, commits 1, ends [Some(Ending::Withdrawn)]:
        Asks(PEEK, Planned(P0, "start s1 n0", 8, &OF_NODE)),
        Line("withdraw s2 j0 = ok"),
        Asks(NEWS, Idle),
        Asks(COMMIT, Did("start s1 n0 = started 1 1")),
    ),
    script!("a reply is given anew", SITE_OF_TWO_NODES after BUILDING, commits 1, ends [None]:
        Line("create s1 200-0000000000 = node n1"),
        Asks(PEEK, Planned(P0, "start s1 n0", 9, &OF_NODE)),
        Line("start s1 n1 = started 1 1"),
        Asks(NEWS, Idle),
        Asks(COMMIT, Did("start s1 n0 = started 1 2")),
    ),
];

// Two pools, and one event after another.
pub static POOLS: [Script; 3] = [
    script!("another pool has no plan", ONE_JOB after BUILDING, commits 1, ends [None]:
        Asks(PEEK, Planned(P0, "start s1 n0", 8, &OF_NODE)),
        Asks(PlanAsk::Peek(P1), Idle),
        Asks(PlanAsk::News(P1), Idle),
        Asks(PlanAsk::Commit(P1), Idle),
        Asks(COMMIT, Did("start s1 n0 = started 1 1")),
    ),
    script!("each pool has its plan", SITE_OF_TWO_POOLS after [], commits 2, ends [None, None]:
        Line("open launcher p0 = session s1"),
        Line("open launcher p1 = session s2"),
        Line("open requester q0 = session s3"),
        Line("register s1 = ok"),
        Line("register s2 = ok"),
        Line("submit s3 j0 = request 200-0000000000"),
        Line("submit s3 j1 = request 200-0000000001"),
        Line("lock-request s1 200-0000000000 = held"),
        Line("lock-request s2 200-0000000001 = held"),
        Line("accept s1 200-0000000000 = ok"),
        Line("accept s2 200-0000000001 = ok"),
        Line("create s1 200-0000000000 = node n0"),
        Line("create s2 200-0000000001 = node n1"),
        Asks(PEEK, Planned(P0, "start s1 n0", 14, &OF_NODE)),
        Asks(PlanAsk::Peek(P1), Planned(P1, "start s2 n1", 14,
            &[Spot::Session(SessionId(2)), NEXT_NODE, NEXT_NODE_LOCK])),
        Asks(PlanAsk::Commit(P1), Did("start s2 n1 = started 1 1")),
        Asks(COMMIT, Did("start s1 n0 = started 1 1")),
    ),
    script!("start, fulfil, unlock-node and unlock-request",
        ONE_JOB after BUILDING, commits 4, ends [None]:
        Asks(PEEK, Planned(P0, "start s1 n0", 8, &OF_NODE)),
        Asks(COMMIT, Did("start s1 n0 = started 1 1")),
        Asks(PEEK, Idle),
        Line("done s1 n0 1 ok 1 = ok"),
        Asks(PEEK, Planned(P0, "fulfil s1 200-0000000000", 10, &OF_FULFIL)),
        Asks(COMMIT, Did("fulfil s1 200-0000000000 = ok")),
        Asks(PEEK, Planned(P0, "unlock-node s1 n0", 11, &OF_NODE)),
        Asks(COMMIT, Did("unlock-node s1 n0 = ok")),
        Asks(PEEK, Planned(P0, "unlock-request s1 200-0000000000", 12,
            &[SESSION, REQUEST, REQUEST_LOCK])),
        Asks(COMMIT, Did("unlock-request s1 200-0000000000 = ok")),
        Asks(PEEK, Idle),
    ),
];

// A node that is taken ready, and requests that are declined.
pub static KINDS: [Script; 4] = [
    script!("take-ready", SITE_WITH_READY after READY, commits 1, ends [None]:
        Asks(PEEK, Planned(P0, "take-ready s1 200-0000000001 n0", 15, &OF_TAKE_READY)),
        Asks(COMMIT, Did("take-ready s1 200-0000000001 n0 = held")),
    ),
    script!("the ready node is locked", SITE_WITH_READY after READY, commits 0, ends [None]:
        Asks(PEEK, Planned(P0, "take-ready s1 200-0000000001 n0", 15, &OF_TAKE_READY)),
        Line("lock-node s2 n0 = held"),
        Asks(NEWS, Fired(NODE_LOCK)),
        Asks(COMMIT, Stale(NODE_LOCK, 16)),
        Asks(PEEK, Idle),
    ),
    script!("decline, since the request never fits",
        SITE_TOO_SMALL after ASKED, commits 1, ends [None]:
        Asks(PEEK, Planned(P0, "decline s1 200-0000000000 never-fits", 6,
            &[SESSION, LAUNCHER, REQUEST, REQUEST_LOCK])),
        Asks(COMMIT, Did("decline s1 200-0000000000 never-fits = ok")),
    ),
    script!("decline, since the starts are spent",
        SITE_THAT_FAILS after BUILDING, commits 1, ends [None]:
        Line("start s1 n0 = started 1 1"),
        Line("done s1 n0 1 failed = ok"),
        Line("start s1 n0 = started 2 2"),
        Line("done s1 n0 2 failed = ok"),
        Line("start s1 n0 = started 3 3"),
        Line("done s1 n0 3 failed = ok"),
        Asks(PEEK, Planned(P0, "decline s1 200-0000000000 spent n0", 14,
            &[SESSION, LAUNCHER, REQUEST, REQUEST_LOCK, NODE])),
        Asks(COMMIT, Did("decline s1 200-0000000000 spent n0 = ok")),
    ),
];

// Whole sites, played by launchers that plan. Nothing is planned by anybody else, so that how many
// plans were committed can be counted by hand.
pub static SITES: [Script; 4] = [
    // A start, a fulfil, and the unlocking of the node. The request is taken before it is unlocked.
    script!("a served job", SERVED plays on, commits 3, ends [Some(Ending::Served)]),
    // The same, and then a start, a fulfil and the unlocking of the node that is kept ready.
    script!("a node is kept ready", KEPT_READY plays on, commits 6, ends [Some(Ending::Served)]),
    // Each pool declines the request and unlocks it.
    script!("no pool can give two machines",
        TOO_SMALL plays on, commits 4, ends [Some(Ending::Failed)]),
    // Three starts, a decline, the unlocking of the node and of the request; a start, a fulfil and the
    // unlocking of the node; and the same with two starts.
    script!("three failed starts are one node's attempts",
        FAILS plays on, commits 13,
        ends [Some(Ending::Failed), Some(Ending::Served), Some(Ending::Served)]),
];
