//! Playing a site by threads to its end.

ghost use Rattle.std.specs.Prelude.{◌≡◌, length, map, false, All, IfOk};
ghost use Rattle.np_top.specs.Lower.{AllByRecursion, AreCarried, BeginsNew, DrivenAs, FailOnlyFull, HasEventLine, HasHostLines, WasAnswered, driving, hosted_view};
ghost use Rattle.np_top.specs.Play.{HasEnded};
ghost use Rattle.np_top.specs.Run.{driven_as, IsDrivenWithHosts};

use crate::typed::numbers_are_within_their_types;
use np_board::Board;
use np_cloud::{Driver, Gate, simulated_clouds};
use np_config::Config;
use np_rounds::{Ended, run_rounds};
use np_static::{HostedSite, hosts_answer_no_number_twice};
use np_text::NoMemory;
use std::alloc::Global;
use std::sync::Wait;
use std::thread::Threads;

/// Plays the site over these drivers, one for each pool, which have launched nothing yet. Its launchers
/// plan, or not.
fn play_over<R: Threads + Wait + Sync, D: Driver + Send + Drop, G: Gate + Sync>(
    rt: &R,
    alloc: Global,
    config: Config,
    drivers: Vec<D>,
    plans: bool,
    gate: &G,
) -> Result<Ended<D>, NoMemory>
    requires count { length drivers.items ≡ length config.pools }
    requires new { All (λ (d : D). BeginsNew (D.facts d)) drivers.items }
    ensures configuration { IfOk result (λ e. e.board.configuration ≡ config) }
    ensures lines { IfOk result (λ e.
        AllByRecursion (λ entry. HasEventLine entry.event) e.board.journal) }
    ensures driven { IfOk result (λ e.
        DrivenAs (WasAnswered (map (driving D.facts D.plan D.sound D.room) e.drivers.items))
        plans config e.board.journal) }
    ensures carried { plans ≡ false → IfOk result (λ e. AreCarried config e.board.journal
        (map (driving D.facts D.plan D.sound D.room) e.drivers.items)) }
    ensures failed { plans ≡ false → IfOk result (λ e. FailOnlyFull config e.board.journal
        (map (driving D.facts D.plan D.sound D.room) e.drivers.items)) }
    ensures plans { IfOk result (λ e. map D.plan e.drivers.items ≡ map D.plan drivers.items) }
    ensures sounds { IfOk result (λ e. map D.sound e.drivers.items ≡ map D.sound drivers.items) }
    ensures rooms { IfOk result (λ e. map D.room e.drivers.items ≡ map D.room drivers.items) }
    ensures ended { IfOk result (λ e. HasEnded plans config e.board.journal e.full) }
{
    config.know_soundness();
    let ended = run_rounds(rt, alloc, config, drivers, plans, gate)?;
    ended.board.know_soundness();
    numbers_are_within_their_types(ended.board.journal());
    Ok(ended)
}

/// Plays the site over the simulated clouds, and returns the board, and whether its journal was
/// full. Its launchers plan, or not.
pub(crate) fn play_site<R: Threads + Wait + Sync, G: Gate + Sync>(
    rt: &R,
    alloc: Global,
    config: Config,
    plans: bool,
    gate: &G,
) -> Result<(Board, bool), NoMemory>
    ensures configuration { IfOk result (λ r. r.0.configuration ≡ config) }
    ensures lines { IfOk result (λ r. AllByRecursion (λ e. HasEventLine e.event) r.0.journal) }
    ensures driven { IfOk result (λ r. driven_as plans config r.0.journal) }
    ensures ended { IfOk result (λ r. HasEnded plans config r.0.journal r.1) }
{
    let clouds = simulated_clouds(alloc, &config)?;
    let ended = play_over(rt, alloc, config, clouds, plans, gate)?;
    let Ended { board, full, .. } = ended;
    Ok((board, full))
}

/// Plays the site over its hosts, and the simulated clouds of the pools without hosts, and returns
/// the board, and whether its journal was full.
pub(crate) fn play_hosts<R: Threads + Wait + Sync, G: Gate + Sync>(
    rt: &R,
    alloc: Global,
    site: HostedSite,
    gate: &G,
) -> Result<(Board, bool), NoMemory>
    requires { HasHostLines (hosted_view site) }
    ensures configuration { IfOk result (λ r. r.0.configuration ≡ site.config) }
    ensures lines { IfOk result (λ r. AllByRecursion (λ e. HasEventLine e.event) r.0.journal) }
    ensures driven { IfOk result (λ r. IsDrivenWithHosts (hosted_view site) r.0.journal) }
    ensures ended { IfOk result (λ r. HasEnded false site.config r.0.journal r.1) }
{
    let HostedSite { config, drivers } = site;
    let ended = play_over(rt, alloc, config, drivers, false, gate)?;
    hosts_answer_no_number_twice();
    let Ended { board, full, .. } = ended;
    Ok((board, full))
}
