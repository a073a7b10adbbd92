//! Ids in groups, in one list in order.
//!
//! Members are found by search in a list by place, and none moves when another is put or removed.

ghost use Rattle.std.specs.Prelude.{◌≡◌, ◌+◌, ◌<◌, ◌≤◌, [], true, false, length, not, Some, OnOk, IfSome, slice_get};
ghost use Rattle.std.specs.Bool.{OnTrue, OnFalse};
ghost use Rattle.std.specs.List.{prefix_len};
ghost use Rattle.std.specs.List.Sorted.{IsPartitionPoint};
ghost use Rattle.np_lists.specs.Rising.{Rises, IsFirstPlace, FirstAt, NonePass};
ghost use Rattle.np_lists.specs.Groups.{same_group, is_group_before, is_member_before, same_member, member, ids_in, id_if, group_from, group_after, has_member, with_member, without_member};

use crate::stock::Stock;
use crate::{Order, Probe};
use std::alloc::{AllocError, Global};
use std::marker::Model;

/// Which group: by a class, and up to three numbers. Where a class needs fewer, the others are 0.
#[derive(Clone, Copy, PartialEq)]
pub struct Group {
    pub class: u8,
    pub first: u16,
    pub second: u16,
    pub third: u64,
}

/// An id in a group.
#[derive(Clone, Copy)]
pub struct Member<K> {
    pub group: Group,
    pub id: K,
}

pub(crate) fn is_same_group(one: Group, other: Group) -> bool
    ensures { result ≡ same_group one other }
{
    one.class == other.class
        && one.first == other.first
        && one.second == other.second
        && one.third == other.third
}

fn is_group_before(one: Group, other: Group) -> bool
    ensures { result ≡ is_group_before one other }
{
    if one.class != other.class {
        return one.class < other.class;
    }
    if one.first != other.first {
        return one.first < other.first;
    }
    if one.second != other.second {
        return one.second < other.second;
    }
    one.third < other.third
}

fn is_member_before<O: Order>(one: Member<O::Key>, other: Member<O::Key>) -> bool
    ensures { result ≡ is_member_before O.before one other }
{
    if is_same_group(one.group, other.group) {
        return O::is_before(one.id, other.id);
    }
    is_group_before(one.group, other.group)
}

fn is_same_member<O: Order>(one: Member<O::Key>, other: Member<O::Key>) -> bool
    ensures { result ≡ same_member O.same one other }
{
    is_same_group(one.group, other.group) && O::is_same(one.id, other.id)
}

/// The members before this one.
#[derive(Drop)]
struct BeforeMember<O: Order> {
    one: Member<O::Key>,
}

impl<O: Order> Probe<Member<O::Key>> for BeforeMember<O> {
    ghost before = { λ probe member. is_member_before O.before member probe.one };

    fn is_before(&self, item: &Member<O::Key>) -> bool {
        is_member_before::<O>(*item, self.one)
    }
}

/// The members of groups before this one.
#[derive(Clone, Copy)]
struct BeforeGroup {
    group: Group,
}

impl<K: Copy> Probe<Member<K>> for BeforeGroup {
    ghost before = { λ probe member. is_group_before member.group probe.group };

    fn is_before(&self, item: &Member<K>) -> bool {
        is_group_before(item.group, self.group)
    }
}

/// The members of this group and of groups before it.
#[derive(Clone, Copy)]
struct UptoGroup {
    group: Group,
}

impl<K: Copy> Probe<Member<K>> for UptoGroup {
    ghost before = { λ probe member. not (is_group_before probe.group member.group) };

    fn is_before(&self, item: &Member<K>) -> bool {
        !is_group_before(self.group, item.group)
    }
}

/// The place of the first member that is not before this one.
fn split_of<O: Order>(members: &Stock<Member<O::Key>>, one: Member<O::Key>) -> usize
    requires { Rises (is_member_before O.before) members.now.items }
    ensures count { result ≡ prefix_len (λ other. is_member_before O.before other one) members.now.items }
    ensures within { result ≤ length members.now.items }
    ensures point { IsPartitionPoint (λ other. is_member_before O.before other one ≡ true) (λ other. is_member_before O.before other one ≡ false) members.now.items result }
{
    members.place(&BeforeMember::<O> { one })
}

/// Whether this member is at the place where those before it end.
fn is_at<O: Order>(members: &Stock<Member<O::Key>>, at: usize, one: Member<O::Key>) -> bool
    requires rises { Rises (is_member_before O.before) members.now.items }
    requires point { IsPartitionPoint (λ other. is_member_before O.before other one ≡ true) (λ other. is_member_before O.before other one ≡ false) members.now.items at }
    ensures yes { OnTrue result (FirstAt (λ other. same_member O.same other one) members.now.items at) }
    ensures no { OnFalse result (NonePass (λ other. same_member O.same other one) members.now.items) }
{
    match members.at(at) {
        Some(other) => is_same_member::<O>(other, one),
        None => false,
    }
}

/// The place of this member.
fn place_of<O: Order>(members: &Stock<Member<O::Key>>, one: Member<O::Key>) -> Option<usize>
    requires { Rises (is_member_before O.before) members.now.items }
    ensures place { IsFirstPlace (λ other. same_member O.same other one) members.now.items result }
    ensures within { IfSome result (λ at. at < length members.now.items) }
{
    let at = split_of::<O>(members, one);
    if !is_at::<O>(members, at, one) {
        return None;
    }
    Some(at)
}

/// How many members are in groups before this one.
fn start_of<O: Order>(members: &Stock<Member<O::Key>>, group: Group) -> usize
    requires { Rises (is_member_before O.before) members.now.items }
    ensures { result ≡ prefix_len (λ m. is_group_before m.group group) members.now.items }
{
    members.place(&BeforeGroup { group })
}

/// How many members are in this group or in groups before it.
fn end_of<O: Order>(members: &Stock<Member<O::Key>>, group: Group) -> usize
    requires { Rises (is_member_before O.before) members.now.items }
    ensures { result ≡ prefix_len (λ m. not (is_group_before group m.group)) members.now.items }
{
    members.place(&UptoGroup { group })
}

/// The id of a member, if there is one and it is in this group.
fn id_if<O: Order>(found: Option<Member<O::Key>>, group: Group) -> Option<O::Key>
    ensures { result ≡ id_if group found }
{
    let found = found?;
    if !is_same_group(found.group, group) {
        return None;
    }
    Some(found.id)
}

/// Ids in groups, each id once in a group, and room for more.
#[derive(Drop)]
pub struct Groups<O: Order> {
    rows: Stock<Member<O::Key>>,
}

impl<O: Order> Model for Groups<O> {
    ghost use Rattle.np_lists.specs.Rising.{Rises};
    ghost use Rattle.np_lists.specs.Groups.{GroupsOf, is_member_before};

    ghost Value = { GroupsOf O.Key };

    ghost view = { λ g. record { members = g.rows.items; room = g.rows.room } };

    ghost invariant = { λ g. Rises (is_member_before O.before) g.rows.items };
}

impl<O: Order> Groups<O> {
    /// No ids in any group. It takes no memory and constant time.
    pub fn new(alloc: Global) -> Groups<O>
        ensures { result.members ≡ [] }
    {
        Groups {
            rows: Stock::new(alloc),
        }
    }

    /// Takes the memory for so many more ids, in pieces of one id each. Each piece that is not there
    /// yet takes time logarithmic in the number of pieces.
    pub fn reserve(&mut self, count: usize) -> Result<(), AllocError>
        ensures same { self.new.members ≡ self.old.members }
        ensures ok { OnOk result (count ≤ self.new.room) }
        ensures room { self.old.room ≤ self.new.room }
    {
        self.rows.reserve(count)
    }

    /// Puts the id into the group, unless it is there. It can't fail, since there is room. The time
    /// is logarithmic in the number of members and of pieces.
    pub fn put(&mut self, group: Group, id: O::Key)
        requires { 0 < self.old.room }
        ensures members { self.new.members ≡ with_member O.before O.same group id self.old.members }
        ensures room { self.old.room ≤ self.new.room + 1 }
    {
        let one = Member { group, id };
        let at = split_of::<O>(&self.rows, one);
        if is_at::<O>(&self.rows, at, one) {
            return;
        }
        self.rows.insert(at, one);
    }

    /// Takes the id out of the group, if it is there. The time is logarithmic in the number of
    /// members and of pieces. The memory is kept.
    pub fn remove(&mut self, group: Group, id: O::Key)
        ensures members { self.new.members ≡ without_member O.same group id self.old.members }
        ensures room { self.old.room ≤ self.new.room }
    {
        let Some(at) = place_of::<O>(&self.rows, Member { group, id }) else {
            return;
        };
        self.rows.remove(at);
    }

    /// Whether the id is in the group. The time is logarithmic in the number of members.
    pub fn has(&self, group: Group, id: O::Key) -> bool
        ensures { result ≡ has_member O.same group id self.now.members }
    {
        match place_of::<O>(&self.rows, Member { group, id }) {
            Some(_) => true,
            None => false,
        }
    }

    /// How many ids are in the group. The time is logarithmic in the number of members.
    pub fn count(&self, group: Group) -> usize
        ensures { result ≡ length (ids_in group self.now.members) }
    {
        end_of::<O>(&self.rows, group) - start_of::<O>(&self.rows, group)
    }

    /// How many ids of the group come before this one, which need not be in it. The time is
    /// logarithmic in the number of members.
    pub fn before(&self, group: Group, id: O::Key) -> usize
        ensures { result ≡ prefix_len (λ k. O.before k id) (ids_in group self.now.members) }
    {
        split_of::<O>(&self.rows, Member { group, id }) - start_of::<O>(&self.rows, group)
    }

    /// The id at this place of the group, counted from 0. The time is logarithmic in the number of
    /// members.
    pub fn at(&self, group: Group, at: usize) -> Option<O::Key>
        ensures { result ≡ slice_get (ids_in group self.now.members) at }
    {
        let start = start_of::<O>(&self.rows, group);
        if self.rows.len() - start <= at {
            return None;
        }
        id_if::<O>(self.rows.at(start + at), group)
    }

    /// The first group that has a member and is not before this one. The time is logarithmic in the
    /// number of members.
    pub fn group_from(&self, group: Group) -> Option<Group>
        ensures { result ≡ group_from group self.now.members }
    {
        let start = start_of::<O>(&self.rows, group);
        Some(self.rows.at(start)?.group)
    }

    /// The first group that has a member and comes after this one. The time is logarithmic in the
    /// number of members.
    pub fn group_after(&self, group: Group) -> Option<Group>
        ensures { result ≡ group_after group self.now.members }
    {
        let end = end_of::<O>(&self.rows, group);
        Some(self.rows.at(end)?.group)
    }
}
