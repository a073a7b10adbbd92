//! Limits of hosts.

/// How many hosts there may be, and by which a server's number is divided to tell its host.
pub const HOSTS: u64 = 1_024;

/// How many servers a host carries at most, by its line.
pub const HOST_SERVERS: u64 = 1_000;
