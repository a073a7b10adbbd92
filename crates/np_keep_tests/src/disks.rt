//! A disk in memory that stops at each of its calls, and its images.

use np_io::{Disk, DiskFailed, MemDisk, read_full, write_through};
use std::alloc::Global;

// The first call of `writes_twice` that fails, what reads give then, and what picks 0 and 1 leave.
const STOPS: [(u32, &str, &str, &str); 8] = [
    (1, "", "", ""),
    (2, "", "", ""),
    (3, "", "", "abcd"),
    (4, "abcd", "", "abcd"),
    (5, "abcd", "abcd", "abcdefgh"),
    (6, "abcdefgh", "abcd", "abcdefgh"),
    (7, "abcdefgh", "abcdefgh", "abcdefgh"),
    (8, "abcdefgh", "abcdefgh", "abcdefgh"),
];

fn appends(disk: &mut MemDisk, bytes: &[u8]) -> bool {
    let end = disk.bytes().len() as u64;
    disk.write_at(end, bytes).is_ok()
}

// Writes and syncs four bytes twice, and reads them back: seven calls, up to the first that fails.
fn writes_twice(disk: &mut MemDisk) -> bool {
    let mut buf = [0u8; 8];
    disk.open_file("any").is_ok()
        && disk.length() == Ok(0)
        && appends(disk, b"abcd")
        && disk.sync().is_ok()
        && appends(disk, b"efgh")
        && disk.sync().is_ok()
        && disk.read_at(0, &mut buf) == Ok(8)
        && buf == *b"abcdefgh"
}

fn is_image(alloc: Global, disk: &MemDisk, pick: u64, want: &str) -> bool {
    matches!(disk.image(alloc, pick), Ok(image) if image.as_slice() == want.as_bytes())
}

// The image begins with what was synced, and is no longer than with all that was written.
fn is_between(alloc: Global, disk: &MemDisk, pick: u64, least: &str, most: &str) -> bool {
    matches!(disk.image(alloc, pick), Ok(image)
        if image.starts_with(least.as_bytes()) && image.len() <= most.len())
}

fn images_are_between(alloc: Global, disk: &MemDisk, least: &str, most: &str) -> bool {
    for pick in 0..64 {
        if !is_between(alloc, disk, pick, least, most) {
            return false;
        }
    }
    is_image(alloc, disk, 0, least) && is_image(alloc, disk, 1, most)
}

fn stops_at(alloc: Global, stop: u32, bytes: &str, least: &str, most: &str) -> bool {
    let mut disk = MemDisk::new(Vec::new(alloc), Some(stop));
    let ends = writes_twice(&mut disk) == (stop == 8);
    ends && disk.bytes() == bytes.as_bytes() && images_are_between(alloc, &disk, least, most)
}

fn each_call_stops(alloc: Global) -> bool {
    every!((stop, bytes, least, most) in &STOPS => stops_at(alloc, *stop, bytes, least, most))
}

// Once a call failed, all that follow fail.
fn stays_stopped(alloc: Global) -> bool {
    let mut disk = MemDisk::new(Vec::new(alloc), Some(2));
    let mut buf = [0u8; 1];
    disk.open_file("any").is_ok()
        && disk.open_file("any") == Err(DiskFailed)
        && disk.length() == Err(DiskFailed)
        && disk.read_at(0, &mut buf) == Err(DiskFailed)
        && disk.sync() == Err(DiskFailed)
        && !appends(&mut disk, b"a")
        && disk.bytes() == b"".as_slice()
}

// How many of the first picks leave a write of four bytes neither whole nor lost.
fn torn_images(alloc: Global, picks: u64) -> u32 {
    let mut disk = MemDisk::new(Vec::new(alloc), Some(3));
    let mut torn = 0u32;
    if !writes_twice(&mut disk) {
        for pick in 0..picks {
            if !is_image(alloc, &disk, pick, "") && !is_image(alloc, &disk, pick, "abcd") {
                torn = torn.saturating_add(1);
            }
        }
    }
    torn
}

fn is_whole(alloc: Global) -> bool {
    let mut disk = MemDisk::new(Vec::new(alloc), None);
    let mut buf = [0u8; 9];
    writes_twice(&mut disk)
        && write_through(&mut disk, 0, b"ABC").is_ok()
        && read_full(&mut disk, 1, &mut buf) == Ok(7)
        && buf == *b"BCdefgh\0\0"
        && read_full(&mut disk, 9, &mut buf) == Ok(0)
        && disk.length() == Ok(8)
        && is_image(alloc, &disk, 5, "ABCdefgh")
}

#[test]
fn disks_stop(rt: HostRuntime) {
    assert!(rt; is_whole(rt.alloc()), "no call stops");
    assert!(rt; each_call_stops(rt.alloc()), "each call stops");
    assert!(rt; stays_stopped(rt.alloc()), "all calls stop after the first");
    assert!(rt; torn_images(rt.alloc(), 8) >= 4, "torn images");
    assert!(rt; torn_images(rt.alloc(), 1_000) >= 500, "more torn images");
}
