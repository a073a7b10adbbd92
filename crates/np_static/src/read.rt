//! The drivers of all pools, by host lines.

ghost use Rattle.std.specs.Prelude.{◌≡◌, ◌≤◌, length, map, sum, IfOk, MatchResult};
ghost use Rattle.np_static.specs.Read.{Tells, hosts_fault, hosts_in, hosts_of, hosts_read, is_room_for, site_with, sites_from};
ghost use Rattle.np_static.specs.Site.{site_of};

use crate::driver::HostDriver;
use crate::fault::{HostsFault, HostsRead};
use crate::limit::HOSTS;
use crate::line::{HostLine, read_host};
use crate::site::SiteDriver;
use np_cloud::SimDriver;
use np_config::Config;
use np_event::LineFault;
use np_lists::Items;
use np_report::LinesFault;
use np_text::{NoMemory, PoolId, line_at};
use std::alloc::Global;

/// The hosts of all lines, or the first line that is at fault or one too many, where there are so
/// many pools. The last line may lack its newline.
fn read_lines(
    alloc: Global,
    bytes: &[u8],
    pools: usize,
) -> Result<Result<Items<HostLine>, LinesFault<LineFault>>, NoMemory>
    ensures { IfOk result (λ read. read ≡ hosts_read pools bytes.now) }
{
    let mut read = Vec::new(alloc);
    let mut from = 0;
    let mut line = 1;
    while let Some((start, end)) = line_at(bytes, from) {
        if HOSTS < u64::from(line) {
            return Ok(Err(LinesFault::TooMany { line }));
        }
        match read_host(&bytes[start..end], pools) {
            Ok(host) => read.push(host)?,
            Err(fault) => return Ok(Err(LinesFault::Line { line, fault })),
        }
        from = (end + 1).min(bytes.len());
        line += 1;
    }
    Ok(Ok(Items::new(read)))
}

/// The fault of the lines, as one of hosts.
fn fault_of(fault: LinesFault<LineFault>) -> HostsFault
    ensures { result ≡ hosts_fault fault }
{
    match fault {
        LinesFault::Line { line, fault } => HostsFault::Line { line, fault },
        LinesFault::TooMany { line } => HostsFault::TooMany { line },
    }
}

/// How many servers each host of the pool carries, in the order of its lines.
fn hosts_in(alloc: Global, lines: &[HostLine], pool: PoolId) -> Result<Vec<u32>, NoMemory>
    ensures { IfOk result (λ hosts. hosts.items ≡ hosts_in pool lines.now) }
{
    let mut hosts = Vec::new(alloc);
    for line in lines {
        if line.pool == pool {
            hosts.push(line.servers)?;
        }
    }
    Ok(hosts)
}

/// How many servers the hosts carry together.
fn room_of(hosts: &[u32]) -> u64
    requires { length hosts.now ≤ HOSTS }
    ensures { result ≡ sum hosts.now }
{
    hosts.iter().map(|most| u64::from(*most)).sum()
}

/// Whether there is a largest number of servers, and room for so many.
fn is_room_for(limit: Option<u64>, room: u64) -> bool
    ensures { result ≡ is_room_for limit room }
{
    match limit {
        Some(most) => most <= room,
        None => false,
    }
}

/// The driver of a pool with this limit and these hosts, if they have room for all of its servers.
fn site_driver(
    alloc: Global,
    config: &Config,
    pool: PoolId,
    limit: Option<u64>,
    hosts: Vec<u32>,
) -> Result<SiteDriver, HostsRead>
    requires { length hosts.items ≤ HOSTS }
    ensures { let said = site_with config.now pool limit hosts.items in
        MatchResult result (λ driver. said ≡ Ok (site_of driver)) (Tells said) }
{
    if hosts.is_empty() {
        return Ok(SiteDriver::Sim(SimDriver::new(alloc, config, pool)?));
    }
    let room = room_of(&hosts);
    if !is_room_for(limit, room) {
        return Err(HostsRead::Fault(HostsFault::Room { pool, room }));
    }
    Ok(SiteDriver::Hosts(HostDriver::new(alloc, pool, hosts)?))
}

/// The drivers of all pools, or the first pool whose hosts lack room.
fn site_drivers(
    alloc: Global,
    config: &Config,
    lines: &[HostLine],
) -> Result<Vec<SiteDriver>, HostsRead>
    requires { length lines.now ≤ HOSTS }
    ensures { let said = sites_from config.now lines.now 0 config.now.pools in
        MatchResult result (λ drivers. said ≡ Ok (map site_of drivers.items)) (Tells said) }
{
    config.know_soundness();
    let mut drivers = Vec::new(alloc);
    while let Some(row) = config.pool(PoolId(drivers.len() as u16)) {
        let pool = PoolId(drivers.len() as u16);
        let hosts = hosts_in(alloc, lines, pool)?;
        drivers.push(site_driver(alloc, config, pool, row.limit.instances, hosts)?)?;
    }
    Ok(drivers)
}

/// The drivers of all pools, in their order, before the first launch, by lines `host P M`: a host
/// of the pool `P` that carries `M` servers at once, 1 to 1,000. The hosts of a pool count from 0 in
/// the order of its lines, and a pool without lines has its simulated cloud. The first fault comes
/// in this order: the first line that is at fault, or that is one more than 1,024; then the first
/// pool with hosts that has no `max-servers`, or more than its hosts carry together. The last line
/// may lack its newline. The cost grows with the bytes, and with the pools times the lines.
pub fn read_hosts(
    alloc: Global,
    config: &Config,
    bytes: &[u8],
) -> Result<Vec<SiteDriver>, HostsRead>
    ensures { let said = hosts_of config.now bytes.now in
        MatchResult result (λ drivers. said ≡ Ok (map site_of drivers.items)) (Tells said) }
{
    let lines = match read_lines(alloc, bytes, config.pools().len())? {
        Ok(lines) => lines,
        Err(fault) => return Err(HostsRead::Fault(fault_of(fault))),
    };
    site_drivers(alloc, config, lines.items())
}
