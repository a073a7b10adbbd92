//! The lines that report what is wrong with a site with hosts.

ghost use Rattle.std.specs.Prelude.{◌≡◌, IfOk};
ghost use Rattle.np_replay.specs.Lines.{hosted_line, hosted_status, hosts_line, room_line};

use crate::lines::{line_of_config, line_of_number, line_of_too_many};
use np_static::{HostedFault, HostsFault};
use np_text::{NoMemory, PoolId, put_number};
use std::alloc::Global;

/// The line of a pool whose hosts lack room.
#[tactic(auto, unfolding(crate::specs::Lines::room_line))]
fn line_of_room(alloc: Global, pool: PoolId, room: u64) -> Result<Vec<u8>, NoMemory>
    ensures { IfOk result (λ line. line.items ≡ room_line pool room) }
{
    let mut line = Vec::from_slice(alloc, b"poolsim: hosts: pool p")?;
    put_number(&mut line, u64::from(pool.0))?;
    line.extend_from_slice(b" has room ")?;
    put_number(&mut line, room)?;
    line.push(b'\n')?;
    Ok(line)
}

/// The line of the fault of host lines.
fn line_of_hosts(alloc: Global, fault: &HostsFault) -> Result<Vec<u8>, NoMemory>
    ensures { IfOk result (λ line. line.items ≡ hosts_line fault.now) }
{
    match fault {
        HostsFault::Line { line, fault } => {
            line_of_number(alloc, b"poolsim: hosts: line ", *line, *fault)
        }
        HostsFault::TooMany { line } => line_of_too_many(alloc, b"poolsim: hosts: line ", *line),
        HostsFault::Room { pool, room } => line_of_room(alloc, *pool, *room),
    }
}

/// The line of the fault of a site with hosts. The time and the memory grow with the pointer of a
/// fault of the configuration.
pub fn line_of_hosted(alloc: Global, fault: &HostedFault) -> Result<Vec<u8>, NoMemory>
    ensures { IfOk result (λ line. line.items ≡ hosted_line fault.now) }
{
    match fault {
        HostedFault::Config(fault) => line_of_config(alloc, fault),
        HostedFault::NoSeparator => {
            Ok(Vec::from_slice(alloc, b"poolsim: hosts: no separator\n")?)
        }
        HostedFault::Hosts(fault) => line_of_hosts(alloc, fault),
    }
}

/// The status of such a fault: 3 for one of the configuration, otherwise 4.
pub fn status_of_hosted(fault: &HostedFault) -> u8
    ensures { result ≡ hosted_status fault.now }
{
    match fault {
        HostedFault::Config(_) => 3,
        HostedFault::NoSeparator | HostedFault::Hosts(_) => 4,
    }
}
