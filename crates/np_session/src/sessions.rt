//! The table of sessions.
#![tactic(auto, using(crate::proofs::NumbersLemmas::seen))]

ghost use Rattle.std.specs.Prelude.{◌≡◌, ◌<◌, ◌≤◌, ◌+◌, ◌&&◌, not, [], length, IfErr, OnOk, OnErr};
ghost use Rattle.std.specs.Bool.{OnTrue, OnFalse};
ghost use Rattle.np_session.specs.Begins.{Begins};
ghost use Rattle.np_session.specs.Known.{IsKnown, after_begin, after_end, is_in, after_mute, with_spare};
ghost use Rattle.np_session.specs.Numbers.{is_live, is_mute, life_of};

use crate::fault::SessionFault;
use std::alloc::Global;
use std::marker::Model;

/// How far a session has come.
#[derive(Clone, Copy)]
enum Life {
    Live,
    Mute,
    Over,
}

impl Life {
    fn is_live(self) -> bool
        ensures { result ≡ is_live self }
    {
        match self {
            Life::Live | Life::Mute => true,
            Life::Over => false,
        }
    }

    fn is_mute(self) -> bool
        ensures { result ≡ is_mute self }
    {
        matches!(self, Life::Mute)
    }
}

/// The sessions that were begun, numbered from 1 in order. A session that was begun is live until it
/// ends. One that is live may be mute.
#[derive(Drop)]
pub struct Sessions {
    // That of session k is at k - 1.
    lives: Vec<Life>,
    // How many are live.
    count: u32,
}

impl Model for Sessions {
    ghost use Rattle.std.specs.Prelude.{◌≡◌, ◌-◌, ◌<◌, ◌^◌, length, vec_capacity};
    ghost use Rattle.np_session.specs.Known.{Known};

    ghost Value = { Known };

    ghost use Rattle.np_session.specs.Numbers.{is_live, known_of, numbers};

    ghost view = { λ s. known_of s.lives.items (vec_capacity s.lives - length s.lives.items) };

    ghost invariant = { λ s. (length s.lives.items < 2 ^ 32) × (s.count ≡ length (numbers is_live 1 s.lives.items)) };
}

impl Sessions {
    /// No session so far.
    pub fn new(alloc: Global) -> Sessions
        ensures { with_spare result 0 ≡ record { begun = 0; live = []; mute = []; spare = 0 } }
    {
        Sessions {
            lives: Vec::new(alloc),
            count: 0,
        }
    }

    /// Takes the memory that the next `begin` needs.
    pub fn reserve(&mut self) -> Result<(), SessionFault>
        ensures ok { OnOk result (0 < self.new.spare) }
        ensures same { self.new ≡ with_spare self.old self.new.spare }
        ensures err { OnErr result (self.new ≡ self.old) }
        ensures cause { IfErr result (λ fault. fault ≡ SessionFault.NoMemory) }
    {
        self.lives.reserve(1)?;
        Ok(())
    }

    /// Begins the next session, and answers its number.
    pub fn begin(&mut self) -> Result<u32, SessionFault>
        ensures answer { Begins self.old.begun self.old.spare result }
        ensures ok { OnOk result (self.new ≡ with_spare (after_begin self.old) self.new.spare) }
        ensures spare { self.old.spare ≤ self.new.spare + 1 }
        ensures err { OnErr result (self.new ≡ self.old) }
    {
        if self.lives.len() == u32::MAX as usize {
            return Err(SessionFault::Spent);
        }
        self.lives.reserve(1)?;
        self.lives.push(Life::Live)?;
        self.count += 1;
        Ok(self.lives.len() as u32)
    }

    /// Ends the session, and answers whether it was live.
    pub fn end(&mut self, id: u32) -> bool
        ensures answer { result ≡ is_in self.old.live id }
        ensures yes { OnTrue result (self.new ≡ after_end self.old id) }
        ensures no { OnFalse result (self.new ≡ self.old) }
    {
        if !life_of(&self.lives, id).is_live() {
            return false;
        }
        self.lives[id as usize - 1] = Life::Over;
        self.count -= 1;
        true
    }

    /// Makes the live session mute, and answers whether it was live and not mute.
    pub fn mute(&mut self, id: u32) -> bool
        ensures answer { result ≡ (is_in self.old.live id && not (is_in self.old.mute id)) }
        ensures yes { OnTrue result (self.new ≡ after_mute self.old id) }
        ensures no { OnFalse result (self.new ≡ self.old) }
    {
        let life = life_of(&self.lives, id);
        if !life.is_live() || life.is_mute() {
            return false;
        }
        self.lives[id as usize - 1] = Life::Mute;
        true
    }

    /// Whether the session is live. One that was never begun isn't.
    pub fn is_live(&self, id: u32) -> bool
        ensures { result ≡ is_in self.now.live id }
    {
        life_of(&self.lives, id).is_live()
    }

    /// Whether the session is live and mute.
    pub fn is_mute(&self, id: u32) -> bool
        ensures { result ≡ is_in self.now.mute id }
    {
        life_of(&self.lives, id).is_mute()
    }

    /// How many sessions are live. Takes constant time.
    pub fn count(&self) -> u32
        ensures live { result ≡ length self.now.live }
        ensures known { IsKnown self.now }
    {
        self.count
    }
}

/// How far the session of a number has come. One that was never begun is over.
fn life_of(lives: &[Life], id: u32) -> Life
    ensures { result ≡ life_of lives.now id }
{
    if id == 0 {
        return Life::Over;
    }
    match lives.get(id as usize - 1) {
        Some(life) => *life,
        None => Life::Over,
    }
}
