//! A real file as a disk: the trusted edge.
//!
//! No contract says which bytes a real file has, or what a crash leaves of it, so its content is
//! unknown. What is promised is that each failure is counted and answered, and that no call but
//! `open_file` succeeds while no file is open.

ghost use Rattle.std.specs.Prelude.{◌≡◌, ◌≤◌, ◌<◌, None, length, is_ok, if◌then◌else◌, IsErr, IsSome, IfOk, OnOk, OnErr};
ghost use Rattle.np_io.specs.Memory.{counted};

use crate::disk::{Disk, DiskFailed};
use std::fs::{Files, OpenFile, OpenOptions};
use std::io;
use std::io::{Read, Seek, SeekFrom, Write};

/// A real file. Its content is unknown.
///
/// A call that a signal interrupts may fail like any other. Places are those of the system: the
/// file may grow past 4 GiB, and a place of 2 ^ 63 or more fails.
#[derive(Drop)]
pub struct FileDisk<'a, R: Files> {
    files: &'a R,
    /// The file, once it was opened.
    file: Option<R::File>,
    /// How many calls failed. It only rises, and stops at `u64::MAX`.
    faults: u64,
}

/// Opens the file for reading and writing, and makes an empty one if there is none.
fn open<R: Files>(files: &R, name: &str) -> io::Result<R::File> {
    OpenOptions::new()
        .read(true)
        .write(true)
        .create(true)
        .open(files, name)
}

/// The folder that the name is in.
fn folder_of(name: &str) -> &str {
    match name.rsplit_once('/') {
        None => ".",
        Some(("", _)) => "/",
        Some((folder, _)) => folder,
    }
}

/// Makes durable which names the folder has.
fn sync_folder<R: Files>(files: &R, folder: &str) -> io::Result<()> {
    OpenOptions::new()
        .read(true)
        .open(files, folder)?
        .sync_all()
}

fn open_durably<R: Files>(files: &R, name: &str) -> io::Result<R::File> {
    let file = open(files, name)?;
    sync_folder(files, folder_of(name))?;
    Ok(file)
}

fn length_of<F: OpenFile>(file: &F) -> io::Result<u64> {
    Ok(file.metadata()?.len())
}

/// Reads once at this place.
fn read_once<F: Read + Seek>(file: &mut F, at: u64, buf: &mut [u8]) -> io::Result<usize>
    ensures { IfOk result (λ n. n ≤ length buf.new) }
{
    file.seek(SeekFrom::Start(at))?;
    file.read(buf)
}

/// Writes all of `bytes` at this place.
fn write_whole<F: Write + Seek>(file: &mut F, at: u64, bytes: &[u8]) -> io::Result<()> {
    file.seek(SeekFrom::Start(at))?;
    file.write_all(bytes)
}

impl<'a, R: Files> FileDisk<'a, R> {
    ghost use Rattle.np_io.specs.Disk.{file_of, file_faults};

    /// A disk that has no file open. It opens its file by `files`.
    pub fn new(files: &'a R) -> FileDisk<'a, R>
        ensures closed { file_of result ≡ None }
        ensures faults { file_faults result ≡ 0 }
    {
        FileDisk {
            files,
            file: None,
            faults: 0,
        }
    }

    /// Counts a fault, and answers it.
    fn fault(&mut self) -> DiskFailed
        ensures file { file_of self.new ≡ file_of self.old }
        ensures counts { file_faults self.new ≡ counted (file_faults self.old) }
        ensures later { file_faults self.old ≤ file_faults self.new }
    {
        self.faults = self.faults.saturating_add(1);
        DiskFailed
    }
}

impl<'a, R: Files> Disk for FileDisk<'a, R> {
    ghost use Rattle.np_io.specs.Disk.{file_of, file_faults, file_facts, file_lawful};

    ghost facts = { file_facts };

    ghost lawful = { file_lawful };

    /// Opens the file for reading and writing, and makes an empty one if there is none. In both
    /// cases it then syncs the folder of the name, so that a crash leaves the file there. The folder
    /// has to be readable. If the name is a symbolic link, the folder of its target is not synced.
    /// If the call fails, an empty file may be left, and a file that was open before stays open.
    fn open_file(&mut self, name: &str) -> Result<(), DiskFailed>
        ensures opened { OnOk result (IsSome (file_of self.new)) }
        ensures kept { OnErr result (file_of self.new ≡ file_of self.old) }
        ensures faults { file_faults self.new
            ≡ (if is_ok result then file_faults self.old else counted (file_faults self.old)) }
        ensures later { file_faults self.old ≤ file_faults self.new }
    {
        match open_durably(self.files, name) {
            Ok(file) => {
                self.file = Some(file);
                Ok(())
            }
            Err(_) => Err(self.fault()),
        }
    }

    fn length(&mut self) -> Result<u64, DiskFailed>
        ensures closed { file_of self.old ≡ None → IsErr result }
        ensures kept { file_of self.new ≡ file_of self.old }
        ensures faults { file_faults self.new
            ≡ (if is_ok result then file_faults self.old else counted (file_faults self.old)) }
        ensures later { file_faults self.old ≤ file_faults self.new }
    {
        if let Some(file) = &self.file {
            if let Ok(length) = length_of(file) {
                return Ok(length);
            }
        }
        Err(self.fault())
    }

    /// Reads from the file once.
    fn read_at(&mut self, at: u64, buf: &mut [u8]) -> Result<usize, DiskFailed>
        requires { 0 < length buf.old }
        ensures closed { file_of self.old ≡ None → IsErr result }
        ensures bound { IfOk result (λ n. n ≤ length buf.new) }
        ensures faults { file_faults self.new
            ≡ (if is_ok result then file_faults self.old else counted (file_faults self.old)) }
        ensures later { file_faults self.old ≤ file_faults self.new }
    {
        if let Some(file) = &mut self.file {
            if let Ok(count) = read_once(file, at, buf) {
                return Ok(count);
            }
        }
        Err(self.fault())
    }

    /// Writes to the file until all is written. If it fails, a part may be written.
    fn write_at(&mut self, at: u64, bytes: &[u8]) -> Result<(), DiskFailed>
        ensures closed { file_of self.old ≡ None → IsErr result }
        ensures faults { file_faults self.new
            ≡ (if is_ok result then file_faults self.old else counted (file_faults self.old)) }
        ensures later { file_faults self.old ≤ file_faults self.new }
    {
        if let Some(file) = &mut self.file {
            if write_whole(file, at, bytes).is_ok() {
                return Ok(());
            }
        }
        Err(self.fault())
    }

    /// Has the system write all of the file to the device (`fsync`). If that fails, the file is
    /// closed: the system may have dropped what it could not write, and would not report it again.
    fn sync(&mut self) -> Result<(), DiskFailed>
        ensures closed { file_of self.old ≡ None → IsErr result }
        ensures ok { OnOk result (file_of self.new ≡ file_of self.old) }
        ensures err { OnErr result (file_of self.new ≡ None) }
        ensures faults { file_faults self.new
            ≡ (if is_ok result then file_faults self.old else counted (file_faults self.old)) }
        ensures later { file_faults self.old ≤ file_faults self.new }
    {
        if let Some(file) = &self.file {
            if file.sync_all().is_ok() {
                return Ok(());
            }
        }
        self.file = None;
        Err(self.fault())
    }
}
