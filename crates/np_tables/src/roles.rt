//! What each role has done, counted.

ghost use Rattle.std.specs.Prelude.{◌≡◌, ◌≤◌, Some};
ghost use Rattle.np_tables.specs.Lower.{AllByRecursion, RoleFits, change_at, change_janitor, change_launcher, change_requester, change_role, most, one_more_act, one_more_start, struck_unless, with_deed};
ghost use Rattle.np_changes.specs.declared.changes.Deed.TheVariants as deed;
ghost use Rattle.np_tables.specs.CanChange.{RolesFit};

use crate::vectors::Vectors;
use np_changes::{Deed, Maker};
use np_record::RoleRecord;
use np_text::Role;

/// One more act of the role at a place, if there is one.
fn add_act(roles: &mut Vec<RoleRecord>, at: usize)
    requires { AllByRecursion RoleFits roles.old.items }
    ensures { roles.new.items ≡ change_at at one_more_act roles.old.items }
{
    if at >= roles.len() {
        return;
    }
    let role = &mut roles[at];
    role.acts += 1;
}

/// One more strike, unless it was counted.
fn struck(role: RoleRecord, counted: bool) -> RoleRecord
    requires { role.strikes ≤ most }
    ensures { result ≡ struck_unless counted role }
{
    let strikes = if counted {
        role.strikes
    } else {
        role.strikes + 1
    };
    RoleRecord { strikes, ..role }
}

/// One more strike of the role at a place, if there is one, unless it was counted.
fn add_strike(roles: &mut Vec<RoleRecord>, at: usize, counted: bool)
    requires { AllByRecursion RoleFits roles.old.items }
    ensures { roles.new.items ≡ change_at at (struck_unless counted) roles.old.items }
{
    if at >= roles.len() {
        return;
    }
    let role = &mut roles[at];
    *role = struck(*role, counted);
}

/// One more start and one more act of the role at a place, if there is one.
fn add_start(roles: &mut Vec<RoleRecord>, at: usize)
    requires { AllByRecursion RoleFits roles.old.items }
    ensures { roles.new.items ≡
        change_at at (λ role. one_more_act (one_more_start role)) roles.old.items }
{
    if at >= roles.len() {
        return;
    }
    let role = &mut roles[at];
    role.starts += 1;
    role.acts += 1;
}

impl Vectors {
    /// One more act of the role.
    fn act(&mut self, role: Role)
        requires { RolesFit self.old.state }
        ensures { self.new.state ≡ change_role one_more_act role self.old.state }
    {
        match role {
            Role::Launcher(pool) => add_act(&mut self.launchers, pool.0 as usize),
            Role::Janitor(pool) => add_act(&mut self.janitors, pool.0 as usize),
            Role::Requester(requester) => add_act(&mut self.requesters, requester.0 as usize),
            Role::Reaper => {}
        }
    }

    /// One more strike against the role, unless it was counted.
    fn strike(&mut self, role: Role, counted: bool)
        requires { RolesFit self.old.state }
        ensures { self.new.state ≡ change_role (struck_unless counted) role self.old.state }
    {
        match role {
            Role::Launcher(pool) => add_strike(&mut self.launchers, pool.0 as usize, counted),
            Role::Janitor(pool) => add_strike(&mut self.janitors, pool.0 as usize, counted),
            Role::Requester(requester) => {
                add_strike(&mut self.requesters, requester.0 as usize, counted);
            }
            Role::Reaper => {}
        }
    }

    /// One more act of the maker's role.
    fn act_of(&mut self, maker: Option<Maker>)
        requires { RolesFit self.old.state }
        ensures { self.new.state ≡ record self.old.state {
          launchers = with_deed change_launcher maker (Some deed.Acts) self.old.state.launchers;
          janitors = with_deed change_janitor maker (Some deed.Acts) self.old.state.janitors;
          requesters = with_deed change_requester maker (Some deed.Acts) self.old.state.requesters;
        } }
    {
        if let Some(maker) = maker {
            self.act(maker.role);
        }
    }

    /// What is counted of the deed.
    pub(crate) fn count_deed(&mut self, maker: Option<Maker>, deed: Option<Deed>)
        requires { RolesFit self.old.state }
        ensures { self.new.state ≡ record self.old.state {
          launchers = with_deed change_launcher maker deed self.old.state.launchers;
          janitors = with_deed change_janitor maker deed self.old.state.janitors;
          requesters = with_deed change_requester maker deed self.old.state.requesters;
        } }
    {
        match deed {
            None => {}
            Some(Deed::Acts) => self.act_of(maker),
            Some(Deed::StartsAndActs { pool }) => add_start(&mut self.launchers, pool.0 as usize),
            Some(Deed::Strikes { role, counted }) => self.strike(role, counted),
        }
    }
}
