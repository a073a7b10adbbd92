//! The limits of what is read and kept, each once. All are this project's own. In definitions they
//! are cited as `declared.limit.TheConstants.{JOBS}`.

// ---- what is read and kept

/// The most bytes of an input.
pub const INPUT_BYTES: usize = 67_108_864;
/// The most entries of a journal, and so the most event lines of a script.
pub const JOURNAL_ENTRIES: usize = 262_144;
/// The most bytes of data of a znode.
pub const ZNODE_BYTES: usize = 65_536;

/// The largest sequence number of a request, or of a sequence znode.
pub const SEQUENCE: u64 = 4_294_967_295;

// ---- how many there are in a configuration

/// The most bytes of a name.
pub const NAME_BYTES: usize = 64;
/// The most labels of a configuration, and so the most offers of a pool.
pub const LABELS: usize = 256;
/// The most providers of a configuration.
pub const PROVIDERS: usize = 64;
/// The most pools of a configuration, through all its providers.
pub const POOLS: usize = 64;
/// The most semaphores of a configuration.
pub const SEMAPHORES: usize = 64;
/// The most tenants of a configuration, which also has the tenant `default`.
pub const TENANTS: usize = 64;
/// The most requesters of a configuration.
pub const REQUESTERS: usize = 16;
/// The most jobs of a configuration, through all its requesters.
pub const JOBS: usize = 4_096;
/// The most labels of a job, and so the most nodes of its request.
pub const JOB_LABELS: usize = 32;
/// The most semaphores of a job.
pub const JOB_SEMAPHORES: usize = 8;
/// The most planned faults of a configuration.
pub const FAULTS: usize = 1_024;
/// The most starts of a pool that are planned to fail.
pub const FAIL_STARTS: usize = 4_096;

// ---- how large a number of a configuration is

/// The most spare nodes that a label keeps ready (Nodepool's `min-ready`).
pub const MIN_READY: u32 = 1_000;
/// The largest age, in ticks, at which an unused node, or a node on hold, is removed.
pub const AGE: u32 = 1_000_000;
/// The most launches of a node (Nodepool's `launch-retries`, which counts the first launch here).
pub const LAUNCHES: u32 = 16;
/// The most requests that the launchers of a provider work on at the same time.
pub const CONCURRENCY: u32 = 4_096;
/// The largest limit of a pool's servers (Nodepool's `max-servers`).
pub const POOL_SERVERS: u32 = 1_000_000;
/// The largest limit of a pool's cores (Nodepool's `max-cores`).
pub const POOL_CORES: u32 = 1_000_000_000;
/// The largest limit of a pool's ram, in MiB (Nodepool's `max-ram`).
pub const POOL_RAM: u32 = 1_000_000_000;
/// The most cores of a node.
pub const NODE_CORES: u32 = 1_000;
/// The most ram of a node, in MiB.
pub const NODE_RAM: u32 = 1_000_000;
/// The largest number of a start that is planned to fail. A pool's starts count from 1.
pub const START_NUMBER: u32 = 262_144;
/// The most handles of a semaphore (Zuul's `max`).
pub const HANDLES: u32 = 4_096;
/// The largest window of a requester: how many of its jobs it works on at the same time.
pub const WINDOW: u32 = 4_096;
/// The largest relative priority of a job.
pub const RELATIVE_PRIORITY: u32 = 1_000_000;
/// The most acts of a role after which its planned fault is due.
pub const FAULT_ACTS: u32 = 262_144;
