//! What a fact is about.

ghost use Rattle.std.specs.Prelude.{◌≡◌, ◌++◌, OnOk};
ghost use Rattle.np_explain_lines.specs.Line.{subject};

use crate::words::{
    put, put_job, put_node, put_pool, put_request, put_role, put_semaphore, put_session, put_tenant,
};
use np_causes::Thing;
use np_config::Config;
use np_text::Ample;

/// Appends what a fact about this thing begins with.
pub(crate) fn put_subject(out: &mut Vec<u8>, config: &Config, thing: Thing) -> Ample
    ensures { OnOk result (out.new.items ≡ out.old.items ++ subject config.now thing) }
{
    match thing {
        Thing::Job(job) | Thing::Turn(job) | Thing::Window(job) | Thing::Supply(job) => {
            put_job(out, config, job)
        }
        Thing::Semaphore(semaphore) | Thing::Handle(semaphore, _) => {
            put_semaphore(out, config, semaphore)
        }
        Thing::Request(request) | Thing::Next(request) => put_request(out, request),
        Thing::Offer(request, pool) => {
            put_request(out, request)?;
            put(out, b" at ")?;
            put_pool(out, config, pool)
        }
        Thing::Pool(pool) | Thing::Work(pool) | Thing::Concurrency(pool) | Thing::Room(pool) =>
            put_pool(out, config, pool),
        Thing::Tenant(tenant) => put_tenant(out, config, tenant),
        Thing::Node(node) | Thing::Lock(node) | Thing::Owner(node) => put_node(out, node),
        Thing::Session(session) => put_session(out, session),
        Thing::Role(role) => put_role(out, config, role),
    }
}
