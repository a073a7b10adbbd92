//! A site with hosts: a configuration, a line `%%`, and host lines.

ghost use Rattle.std.specs.Prelude.{◌≡◌, IfOk};
ghost use Rattle.np_static.specs.Read.{hosted_of, hosted_read};

use crate::fault::{HostedFault, HostsRead};
use crate::read::read_hosts;
use crate::site::SiteDriver;
use np_config::Config;
use np_report::read_config;
use np_text::{NoMemory, split_sections};
use std::alloc::Global;

/// A configuration, and the drivers of its pools before the first launch, in their order.
#[derive(Drop)]
pub struct HostedSite {
    pub config: Config,
    pub drivers: Vec<SiteDriver>,
}

/// Reads a site with hosts: the configuration before the first line that is exactly `%%`, and the
/// host lines after it, as `read_hosts` does. The first fault comes in this order: the
/// configuration's (if no line is `%%`, the whole text's); then the missing separator; then that of
/// the host lines. The cost grows with the text, and with the pools times the lines.
#[tactic(auto, unfolding(crate::specs::Read::hosted_of))]
pub fn read_hosted(alloc: Global, bytes: &[u8]) -> Result<Result<HostedSite, HostedFault>, NoMemory>
    ensures { IfOk result (λ read. hosted_read read ≡ hosted_of bytes.now) }
{
    let Some((before, after)) = split_sections(bytes) else {
        return match read_config(alloc, bytes)? {
            Ok(_) => Ok(Err(HostedFault::NoSeparator)),
            Err(fault) => Ok(Err(HostedFault::Config(fault))),
        };
    };
    let config = match read_config(alloc, before)? {
        Ok(config) => config,
        Err(fault) => return Ok(Err(HostedFault::Config(fault))),
    };
    match read_hosts(alloc, &config, after) {
        Ok(drivers) => Ok(Ok(HostedSite { config, drivers })),
        Err(HostsRead::Fault(fault)) => Ok(Err(HostedFault::Hosts(fault))),
        Err(HostsRead::NoMemory) => Err(NoMemory),
    }
}
