//! The groups of a state's jobs and of its sessions, kept as events change it.

ghost use Rattle.std.specs.Prelude.{◌≡◌, IfOk};
ghost use Rattle.np_active.specs.Lower.{Changes, Configuration, IsReached, IsTouched, State, TouchedOf, changed, current_of, first_mute, has_live_session, job_to_finish, job_to_release, job_to_take};
ghost use Rattle.np_active.specs.Active.{AreActive};
ghost use Rattle.np_active.specs.Placed.{HasRoom, IsPast};

use crate::jobs::{all_jobs, ending_group, move_jobs, releasing_group, supplied_group};
use crate::lines::lines_of;
use crate::past::{Past, past_of};
use crate::sessions::{all_sessions, live_group, move_sessions, mute_group, role_group};
use np_classes::Touched;
use np_lists::Groups;
use np_look::{ByJob, BySession, Rows};
use np_text::{JobId, RequesterId, Role, SessionId};
use std::alloc::{AllocError, Global};
use std::marker::Model;

/// Which jobs of each requester are new and wait for semaphores or for none, which were given their
/// nodes and wait for handles or for none, which are to finish, which are over and have handles,
/// which sessions speak for each role, which live ones are mute, and which live ones each requester
/// has.
#[derive(Drop)]
pub struct Active {
    /// For each job the first of its requester that has the same semaphores.
    lines: Vec<JobId>,
    pub(crate) jobs: Groups<ByJob>,
    sessions: Groups<BySession>,
}

impl Model for Active {
    ghost use Rattle.np_active.specs.Active.{ActiveOf};

    ghost Value = { ActiveOf };

    ghost view = { λ active. record {
      lines = active.lines.items;
      jobs = active.jobs.members;
      sessions = active.sessions.members;
      job_room = active.jobs.room;
      session_room = active.sessions.room;
    } };
}

impl Active {
    /// The groups of the state. For each job it finds the first of its requester that has the same
    /// semaphores, which costs the number of jobs times that of the different lists of semaphores
    /// of a requester. Then it reads each job and each session once, with a few binary searches for
    /// each, and a lookup for each semaphore of a job.
    pub fn rebuild<R: Rows>(alloc: Global, rows: &R) -> Result<Active, AllocError>
        ensures { IfOk result (λ x. AreActive (R.site rows.now) (R.state rows.now) x) }
    {
        let lines = lines_of(alloc, rows.config())?;
        let jobs = all_jobs(alloc, rows, lines.as_slice())?;
        let sessions = all_sessions(alloc, rows)?;
        Ok(Active {
            lines,
            jobs,
            sessions,
        })
    }

    /// The job at a place among those of the requester that were given their nodes and need not
    /// wait for handles, in order of their numbers, counted from 0; `None` if there are no more.
    /// One binary search.
    pub fn job_to_take(&self, requester: RequesterId, at: u32) -> Option<JobId>
        ensures { (c : Configuration) (s : State) → AreActive c s self.now
            → result ≡ job_to_take c requester at s }
    {
        self.jobs.at(supplied_group(requester), at as usize)
    }

    /// The job at a place among those of the requester that use their nodes, or have asked for them
    /// and whose request failed, in order of their numbers, counted from 0; `None` if there are no
    /// more. One binary search.
    pub fn job_to_finish(&self, requester: RequesterId, at: u32) -> Option<JobId>
        ensures { (c : Configuration) (s : State) → AreActive c s self.now
            → result ≡ job_to_finish c requester at s }
    {
        self.jobs.at(ending_group(requester), at as usize)
    }

    /// The job at a place among those of the requester that are over and have a handle, in order of
    /// their numbers, counted from 0; `None` if there are no more. One binary search.
    pub fn job_to_release(&self, requester: RequesterId, at: u32) -> Option<JobId>
        ensures { (c : Configuration) (s : State) → AreActive c s self.now
            → result ≡ job_to_release c requester at s }
    {
        self.jobs.at(releasing_group(requester), at as usize)
    }

    /// The role's current session: the last that speaks for it. Three binary searches.
    pub fn current_session(&self, role: Role) -> Option<SessionId>
        ensures { (c : Configuration) (s : State) → AreActive c s self.now
            → result ≡ current_of role s }
    {
        let group = role_group(role);
        let count = self.sessions.count(group);
        if count == 0 {
            return None;
        }
        self.sessions.at(group, count - 1)
    }

    /// The first session that is live and mute. One binary search.
    pub fn first_mute(&self) -> Option<SessionId>
        ensures { (c : Configuration) (s : State) → AreActive c s self.now
            → result ≡ first_mute s }
    {
        self.sessions.at(mute_group(), 0)
    }

    /// Whether the requester has a live session, mute or not. One binary search.
    pub fn has_live_session(&self, requester: RequesterId) -> bool
        ensures { (c : Configuration) (s : State) → AreActive c s self.now
            → result ≡ has_live_session requester s }
    {
        self.sessions.at(live_group(requester), 0).is_some()
    }

    /// Lists the jobs and the sessions that an event's changes touch with the groups that they are
    /// in, before the state changes, and takes the memory for `note`. The members stay as they are.
    /// Two lookups for each such job, one of its request if it has asked for its nodes, a lookup for
    /// each of its semaphores, and one lookup for each session.
    pub fn prepare<R: Rows>(
        &mut self,
        alloc: Global,
        rows: &R,
        touched: &Touched,
    ) -> Result<Past, AllocError>
        ensures lines { self.new.lines ≡ self.old.lines }
        ensures jobs { self.new.jobs ≡ self.old.jobs }
        ensures sessions { self.new.sessions ≡ self.old.sessions }
        ensures past { IfOk result (λ past.
            IsPast (R.site rows.now) (R.state rows.now) self.old.lines touched.now past) }
        ensures room { IfOk result (λ past. HasRoom past self.new) }
    {
        let past = past_of(alloc, rows, self.lines.as_slice(), touched)?;
        self.jobs.reserve(past.jobs.len())?;
        self.sessions.reserve(2 * past.sessions.len())?;
        Ok(past)
    }

    /// Moves the jobs and the sessions that were touched to where they are now, after the state has
    /// changed. It takes no memory. The same lookups as for `prepare`. A group that is left or
    /// joined costs a few binary searches; where an id stays, nothing is searched.
    pub fn note<R: Rows>(&mut self, rows: &R, past: &Past)
        requires { HasRoom past.now self.old }
        ensures { (c : Configuration) (s : State) (ch : Changes) (touched : TouchedOf)
            → IsReached c s → IsTouched s ch touched → IsPast c s self.old.lines touched past.now
            → R.site rows.now ≡ c → R.state rows.now ≡ changed c ch s
            → AreActive c s self.old → AreActive c (changed c ch s) self.new }
    {
        move_jobs(
            &mut self.jobs,
            rows,
            self.lines.as_slice(),
            past.jobs.as_slice(),
        );
        move_sessions(&mut self.sessions, rows, past.sessions.as_slice());
    }
}
