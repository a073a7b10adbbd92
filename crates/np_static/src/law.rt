//! What is known of hosts and of the drivers of a site. Each function does nothing: its contract is
//! the law.

ghost use Rattle.std.specs.Prelude.{◌≡◌, ◌⊎◌, ◌≤◌, ◌<◌, ℕ, suc, List, [], ◌∷◌, All, IfSome, IsTrue, length, slice_get, sum, None, Some, Ok, Err};
ghost use Rattle.np_static.specs.Lower.{Configuration, DistinctNumbers, Failed, Launched, Pool, PoolId, RemoveFailed, Removes, Tag, facts_of, is_number, numbers_of, told_nothing};
ghost use Rattle.np_static.specs.declared.driver.HostDriver.{HostDriver as TheHosts};
ghost use Rattle.np_static.specs.declared.line.HostLine.{HostLine as TheLine};
ghost use Rattle.np_static.specs.declared.site.SiteDriver.{SiteDriver as TheDriver};
ghost use Rattle.np_static.specs.Loads.{AreFull, IsFirstHost, host_of, is_sound, launched_numbers, load_of, server_number};
ghost use Rattle.np_static.specs.Site.{Hosting, hosted_outcome, hosting_of, Site, hosted, room_at, site_of, site_planned, sound_at, told_of, launched, removed};
ghost use Rattle.np_static.specs.Read.{hosts_in, hosts_of, hosts_read, site_with};

use crate::driver::HostDriver;
use crate::site::SiteDriver;
use np_cloud::{Driver, MOST_LAUNCHES};

/// A worked case: one host that carries one server. The first launch takes it, the second finds no
/// room, and after the removal of its server the third takes it again.
pub fn a_freed_host_is_taken_again()
    ensures first { (p : PoolId) → hosted_outcome (hosting_of p (1 ∷ [])) ≡ Launched 1024 }
    ensures full { (p : PoolId) (tag : Tag) →
        hosted_outcome (launched (hosting_of p (1 ∷ [])) tag) ≡ Failed }
    ensures again { (p : PoolId) (one two : Tag) →
        hosted_outcome (removed (launched (launched (hosting_of p (1 ∷ [])) one) two) 1024)
        ≡ Launched 3072 }
{}

/// A launch takes the first host that has fewer servers than it carries, and its server has the
/// number of the launch and the host.
pub fn a_launch_takes_the_first_free_host()
    ensures { (d : Hosting) (x : ℕ) → hosted_outcome d ≡ Launched x → (h : ℕ)
        × (x ≡ server_number (suc (length d.told.answered)) h)
        × IsFirstHost d.hosts (numbers_of d.told.servers) h }
{}

/// A launch fails exactly where each host has as many servers as it carries, or as many launches
/// were answered before as may be.
pub fn a_launch_fails_where_all_hosts_are_full()
    ensures cause { (d : Hosting) → hosted_outcome d ≡ Failed →
        (MOST_LAUNCHES ≤ length d.told.answered)
        ⊎ AreFull d.hosts (numbers_of d.told.servers) }
    ensures many { (d : Hosting) → MOST_LAUNCHES ≤ length d.told.answered →
        hosted_outcome d ≡ Failed }
    ensures full { (d : Hosting) → AreFull d.hosts (numbers_of d.told.servers) →
        hosted_outcome d ≡ Failed }
{}

/// A list of server numbers is sound exactly where no host has more of them than it carries, and
/// each is of a host that is there.
pub fn a_sound_list_is_one_that_the_hosts_carry()
    ensures carried { (hosts numbers : List ℕ) → IsTrue (is_sound hosts numbers) →
        (h most : ℕ) → slice_get hosts h ≡ Some most → load_of h numbers ≤ most }
    ensures known { (hosts numbers : List ℕ) → IsTrue (is_sound hosts numbers) →
        (x : ℕ) → IsTrue (is_number x numbers) → host_of x < length hosts }
    ensures sound { (hosts numbers : List ℕ) →
        ((h most : ℕ) → slice_get hosts h ≡ Some most → load_of h numbers ≤ most) →
        ((x : ℕ) → IsTrue (is_number x numbers) → host_of x < length hosts) →
        IsTrue (is_sound hosts numbers) }
{}

/// No number is answered twice by hosts.
pub fn hosts_answer_no_number_twice()
    ensures { (hosts : TheHosts) → IfSome (⟦<HostDriver as Driver>⟧.facts hosts).answered
        (λ launches. DistinctNumbers (launched_numbers launches)) }
{}

/// The driver of a pool always reports its launches and its servers, and what it means is told by
/// its `Site`.
pub fn a_site_tells_all()
    ensures facts { (driver : TheDriver) → ⟦<SiteDriver as Driver>⟧.facts driver
        ≡ facts_of (told_of (site_of driver)) 0 }
    ensures plan { (driver : TheDriver) → ⟦<SiteDriver as Driver>⟧.plan driver
        ≡ site_planned (site_of driver) }
    ensures sound { (driver : TheDriver) → ⟦<SiteDriver as Driver>⟧.sound driver
        ≡ sound_at (site_of driver) }
    ensures room { (driver : TheDriver) → ⟦<SiteDriver as Driver>⟧.room driver
        ≡ room_at (site_of driver) }
{}

/// No removal of such a driver fails.
pub fn no_removal_of_a_site_fails()
    ensures { (driver later : TheDriver) (number : ℕ) (fault : RemoveFailed) →
        Removes (⟦<SiteDriver as Driver>⟧.facts driver) number (Err fault)
        (⟦<SiteDriver as Driver>⟧.facts later) → ⊥ }
{}

/// Each pool has one driver, in their order, before its first launch: that of its host lines.
pub fn each_pool_has_its_driver()
    ensures count { (c : Configuration) (bytes : List ℕ) (sites : List Site) →
        hosts_of c bytes ≡ Ok sites → length sites ≡ length c.pools }
    ensures each { (c : Configuration) (bytes : List ℕ) (lines : List TheLine)
        (sites : List Site) → hosts_read (length c.pools) bytes ≡ Ok lines →
        hosts_of c bytes ≡ Ok sites → (p : PoolId) (pool : Pool) (site : Site) →
        slice_get c.pools p.0 ≡ Some pool → slice_get sites p.0 ≡ Some site →
        site_with c p pool.limit.instances (hosts_in p lines) ≡ Ok site }
    ensures fresh { (c : Configuration) (bytes : List ℕ) (sites : List Site) →
        hosts_of c bytes ≡ Ok sites → All (λ site. told_of site ≡ told_nothing) sites }
{}

/// A pool with hosts has a largest number of servers, and its hosts carry so many together.
pub fn a_pool_with_hosts_has_room()
    ensures { (c : Configuration) (p : PoolId) (pool : Pool) (most : ℕ) (hosts : List ℕ)
        (site : Site) → site_with c p pool.limit.instances (most ∷ hosts) ≡ Ok site →
        (site ≡ hosted (hosting_of p (most ∷ hosts)))
        × IfSome pool.limit.instances (λ servers. servers ≤ sum (most ∷ hosts))
        × (¬ (pool.limit.instances ≡ None)) }
{}
