//! The keys that each object of a configuration may have.

const TOP: &[&str] = &[
    "labels",
    "max-hold-age",
    "providers",
    "semaphores",
    "tenants",
    "requesters",
    "faults",
];

const LABEL: &[&str] = &["name", "min-ready", "max-ready-age"];

const PROVIDER: &[&str] = &["name", "launch-retries", "max-concurrency", "pools"];

const POOL: &[&str] = &[
    "name",
    "max-servers",
    "max-cores",
    "max-ram",
    "labels",
    "fail-starts",
];

const OFFER: &[&str] = &["name", "cores", "ram"];

const SEMAPHORE: &[&str] = &["name", "max"];

const TENANT: &[&str] = &["name", "max-servers", "max-cores", "max-ram"];

const REQUESTER: &[&str] = &["name", "window", "jobs"];

const JOB: &[&str] = &[
    "name",
    "labels",
    "priority",
    "relative-priority",
    "semaphores",
    "resources-first",
    "end",
    "tenant",
];

const FAULT: &[&str] = &["role", "name", "kind", "after"];

/// The keys that the object may have to which these steps lead; none if there is no such object.
pub(crate) fn keys_at(steps: &[&[u8]]) -> &'static [&'static str] {
    match steps {
        [] => TOP,
        [table, _] => keys_of_row(table),
        [_, _, table, _] => keys_of_inner_row(table),
        [_, _, _, _, _, _] => OFFER,
        _ => &[],
    }
}

fn keys_of_row(table: &[u8]) -> &'static [&'static str] {
    match table {
        b"labels" => LABEL,
        b"providers" => PROVIDER,
        b"semaphores" => SEMAPHORE,
        b"tenants" => TENANT,
        b"requesters" => REQUESTER,
        b"faults" => FAULT,
        _ => &[],
    }
}

fn keys_of_inner_row(table: &[u8]) -> &'static [&'static str] {
    match table {
        b"pools" => POOL,
        b"jobs" => JOB,
        _ => &[],
    }
}
