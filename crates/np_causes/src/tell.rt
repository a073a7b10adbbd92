//! What is said of a thing.

ghost use Rattle.std.specs.Prelude.{◌≡◌};
ghost use Rattle.np_causes.specs.Lower.{Fits};
ghost use Rattle.np_causes.specs.Fact.{Tells};

use crate::fact::{Fact, Thing};
use crate::job::{
    fact_of_handle, fact_of_job, fact_of_semaphore, fact_of_supply, fact_of_turn, fact_of_window,
};
use crate::near::fact_of_concurrency;
use crate::pool::{
    fact_of_lock, fact_of_node, fact_of_owner, fact_of_pool, fact_of_room, fact_of_work,
};
use crate::request::{fact_of_next, fact_of_offer, fact_of_request, fact_of_tenant};
use crate::role::{fact_of_role, fact_of_session};
use np_look::Look;

/// A true fact about the thing. It takes no memory. The cost is that of a few readers of `Look`.
pub fn fact_of<L: Look>(look: &L, thing: Thing) -> Fact
    requires { Fits (L.site look.now) (L.state look.now) }
    ensures { Tells (L.site look.now) (L.state look.now) thing result }
{
    let rows = look.rows();
    match thing {
        Thing::Job(job) => fact_of_job(rows, job),
        Thing::Turn(job) => fact_of_turn(rows, job),
        Thing::Window(job) => fact_of_window(look, job),
        Thing::Supply(job) => fact_of_supply(rows, job),
        Thing::Semaphore(semaphore) => fact_of_semaphore(rows, semaphore),
        Thing::Handle(semaphore, job) => fact_of_handle(rows, semaphore, job),
        Thing::Request(request) => fact_of_request(rows, request),
        Thing::Offer(request, pool) => fact_of_offer(look, request, pool),
        Thing::Next(request) => fact_of_next(look, request),
        Thing::Pool(pool) => fact_of_pool(rows, pool),
        Thing::Work(pool) => fact_of_work(look, pool),
        Thing::Concurrency(pool) => fact_of_concurrency(rows, pool),
        Thing::Room(pool) => fact_of_room(look, pool),
        Thing::Tenant(tenant) => fact_of_tenant(look, tenant),
        Thing::Node(node) => fact_of_node(rows, node),
        Thing::Lock(node) => fact_of_lock(rows, node),
        Thing::Owner(node) => fact_of_owner(look, node),
        Thing::Session(session) => fact_of_session(rows, session),
        Thing::Role(role) => fact_of_role(look, role),
    }
}
