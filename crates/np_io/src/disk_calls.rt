//! The record that a disk in memory keeps of its writes and syncs, and an image after them.

ghost use Rattle.std.specs.Prelude.{◌≡◌, ◌≤◌, [], ◌∷◌, ◌++◌, Some, length, if◌then◌else◌, nat_lt, IfOk, OnOk, OnErr};
ghost use Rattle.np_io.specs.DiskCalls.{images_after, images_then, left_after, left_then, share_of};
ghost use Rattle.np_io.specs.Disk.{TornWrite, put_at};

use crate::draws::Draws;
use std::alloc::{AllocError, Global};

/// What was to be written, and where.
#[derive(Drop)]
pub struct Written {
    pub at: u64,
    pub bytes: Vec<u8>,
}

/// A call that changes what a crash leaves: a write, or a sync.
#[derive(Drop)]
pub struct Call {
    /// What reads gave before the call.
    pub before: Vec<u8>,
    /// What a write was to write, also if it failed. A sync has none.
    pub write: Option<Written>,
}

/// Keeps a record of a call that finds this file.
pub fn keep(calls: &mut Vec<Call>, file: &Vec<u8>, write: Option<Written>) -> Result<(), AllocError>
    ensures ok { OnOk result ((call : _) × (call.before.items ≡ file.now.items)
        × (call.write ≡ write) × (calls.new.items ≡ calls.old.items ++ call ∷ [])) }
    ensures err { OnErr result (calls.new.items ≡ calls.old.items) }
{
    let before = file.to_vec(*file.allocator())?;
    calls.push(Call { before, write })?;
    Ok(())
}

/// Keeps a record of a write that finds this file.
pub fn keep_write(
    calls: &mut Vec<Call>,
    file: &Vec<u8>,
    at: u64,
    bytes: &[u8],
) -> Result<(), AllocError>
    ensures ok { OnOk result ((call : _) × (w : _) × (call.before.items ≡ file.now.items)
        × (call.write ≡ Some w) × (w.at ≡ at) × (w.bytes.items ≡ bytes.now)
        × (calls.new.items ≡ calls.old.items ++ call ∷ [])) }
    ensures err { OnErr result (calls.new.items ≡ calls.old.items) }
{
    let bytes = bytes.to_vec(*file.allocator())?;
    keep(calls, file, Some(Written { at, bytes }))?;
    Ok(())
}

/// The file after a write.
pub fn put_at(alloc: Global, file: &[u8], at: usize, bytes: &[u8]) -> Result<Vec<u8>, AllocError>
    requires { at ≤ length file.now }
    ensures { IfOk result (λ next. next.items ≡ put_at at bytes.now file.now) }
{
    let mut next = file[..at].to_vec(alloc)?;
    next.extend_from_slice(bytes)?;
    if bytes.len() < file.len() - at {
        next.extend_from_slice(&file[at + bytes.len()..])?;
    }
    Ok(next)
}

/// The image in which a crash cut this write short. If the image ends before the write's place,
/// nothing is left of the write.
fn torn(
    alloc: Global,
    image: &[u8],
    write: &Written,
    draws: &mut Draws,
) -> Result<Vec<u8>, AllocError>
    ensures torn { IfOk result (λ next.
        TornWrite write.now.at (length write.now.bytes.items) image.now next.items) }
    ensures share { draws.old.pick ≤ 1 → IfOk result (λ next. next.items
        ≡ (if nat_lt (length image.now) write.now.at then image.now
        else put_at write.now.at (share_of draws.old.pick write.now.bytes.items) image.now)) }
    ensures pick { draws.new.pick ≡ draws.old.pick }
{
    let at = write.at as usize;
    if image.len() < at {
        return image.to_vec(alloc);
    }
    let left = draws.left_of(alloc, &write.bytes)?;
    let next = put_at(alloc, image, at, &left)?;
    Ok(next)
}

/// The image after one more call.
fn image_then(
    alloc: Global,
    image: &[u8],
    call: &Call,
    draws: &mut Draws,
) -> Result<Vec<u8>, AllocError>
    ensures image { IfOk result (λ next.
        images_then (λ d. d ≡ image.now) call.now.before.items call.now.write next.items) }
    ensures share { draws.old.pick ≤ 1 → IfOk result (λ next. next.items
        ≡ left_then draws.old.pick image.now call.now.before.items call.now.write) }
    ensures pick { draws.new.pick ≡ draws.old.pick }
{
    match &call.write {
        None => call.before.to_vec(alloc),
        Some(write) => torn(alloc, image, write, draws),
    }
}

/// An image that these calls may leave of the file.
pub fn image_after(
    alloc: Global,
    file: &[u8],
    calls: &[Call],
    pick: u64,
) -> Result<Vec<u8>, AllocError>
    ensures image { IfOk result (λ c. images_after (λ d. d ≡ file.now) calls.now c.items) }
    ensures share { pick ≤ 1 → IfOk result (λ c. c.items ≡ left_after pick file.now calls.now) }
{
    let mut draws = Draws::new(pick);
    let mut image = file.to_vec(alloc)?;
    for call in calls {
        image = image_then(alloc, &image, call, &mut draws)?;
    }
    Ok(image)
}
