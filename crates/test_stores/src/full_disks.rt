//! Stores on disks that are full after N bytes, and on disks that are only read, in each operation of a campaign. The operation answers
//! code 1, hardware-fault, and the meter is as before it, except for bytes of the block that is being written; or the operation is done.

use crate::disk::{Disk, Room};
use crate::support::{self, datagrams, expect_tried, failed, opened};
use fw_image::OpenError;
use fw_meter::MeterCore;
use fw_store::{DeviceStore, FileStoreError};
use std::alloc::Global;
use std::test::Fail;
use test_tables::{Words, present};

/// A campaign for a meter that runs `x`, with blocks of two bytes and room for eight; the first block comes as `zz`, and once more as `ab`,
/// now under its old mark. A line for each operation: the request, the reply if the store failed, and the one where it is done; then
/// where in the file the block begins and ends that it writes, and how many bytes it writes: those of the block, and the 2,158 of a header.
/// The second slot of the file begins at byte 626.
const CAMPAIGN: &str = "\
enable set-fault set-done: 0 0 2158
initiate fault done: 0 0 2158
block-0-zz fault done: 626 628 2160
block-0 fault done: 626 628 2
block-1 fault done: 628 629 2159
verify fault done: 0 0 2158
activate fault done: 0 0 2158";

/// GETs of attributes 2 to 7, and of the active firmware identifier.
const READS: &str = "get-2 get-3 get-4 get-5 get-6 get-7 get-firmware";

/// The replies of the meter in the file on a disk to these requests, one after the other.
fn replies(alloc: Global, disk: &Disk, asks: &[Vec<u8>]) -> Result<Vec<u8>, Fail> {
    let mut meter = opened(DeviceStore::reopen_on(disk.open()?)?)?;
    support::replies(alloc, &mut meter, asks)
}

/// Whether an operation is done on a disk, by the names of its request and its two replies. It has no others.
fn is_done(alloc: Global, disk: &Disk, names: &str) -> Result<bool, Fail> {
    let exchange = datagrams(alloc, names)?;
    let [ask @ .., fault, done] = exchange.as_slice() else {
        return Err("a request and two replies".into());
    };
    let reply = replies(alloc, disk, ask)?;
    if reply != *fault && reply != *done {
        return Err("another reply".into());
    }
    Ok(reply == *done)
}

/// The file of a new meter, and then the one after each operation.
fn files(alloc: Global) -> Result<Vec<Vec<u8>>, Fail> {
    let disk = Disk::with(alloc, b"")?;
    DeviceStore::create_on(disk.open()?, 8, 2, b"x")?;
    let mut files = Vec::new(alloc);
    files.push(disk.bytes(alloc)?)?;
    for line in CAMPAIGN.lines() {
        let (names, _) = present(line.split_once(':'), "names and numbers")?;
        if !is_done(alloc, &disk, names)? {
            return failed(alloc, "the operation isn't done", files.len());
        }
        files.push(disk.bytes(alloc)?)?;
    }
    Ok(files)
}

/// The file is as before an operation, except from `start` on up to `end`, if each byte is as before it or as after it.
fn is_between(found: &[u8], before: &[u8], after: &[u8], start: usize, end: usize) -> bool {
    found.len() == before.len()
        && found.iter().zip(before.iter().zip(after)).enumerate().all(|(
            at,
            (byte, (old, new)),
        )| byte == old || (start <= at && at < end && byte == new))
}

/// The replies to the reads of the meter in a file, which is opened again.
fn reads_of(alloc: Global, reads: &[Vec<u8>], file: &[u8]) -> Result<Vec<u8>, Fail> {
    let disk = Disk::with(alloc, file)?;
    replies(alloc, &disk, reads)
}

/// The operation of this line, between these files, with room for each number of bytes up to those that it writes. The meter is as before
/// if that doesn't suffice, and as after it if it does.
fn on_full_disks(alloc: Global, line: &str, before: &[u8], after: &[u8]) -> Result<usize, Fail> {
    let (names, numbers) = present(line.split_once(':'), "names and numbers")?;
    let [start, end, writes]: [u32; 3] = Words::new(numbers).read()?;
    let reads = datagrams(alloc, READS)?;
    let old = reads_of(alloc, &reads, before)?;
    let new = reads_of(alloc, &reads, after)?;
    let mut tried = 0usize;
    for room in 0..=writes as usize {
        let suffices = room == writes as usize;
        let found = left_by(alloc, names, before, room, suffices)?;
        let (want, is_right) = if suffices {
            (&new, found.as_slice() == after)
        } else {
            (
                &old,
                is_between(&found, before, after, start as usize, end as usize),
            )
        };
        if !is_right || reads_of(alloc, &reads, &found)? != *want {
            return failed(alloc, "another file or another meter", room);
        }
        tried = tried.saturating_add(1);
    }
    Ok(tried)
}

/// The file after an operation with this much room. It is done if that suffices, and has the reply of a fault if not.
fn left_by(
    alloc: Global,
    names: &str,
    before: &[u8],
    room: usize,
    suffices: bool,
) -> Result<Vec<u8>, Fail> {
    let disk = Disk::with(alloc, before)?;
    disk.set_room(Some(room));
    if is_done(alloc, &disk, names)? != suffices {
        return failed(alloc, "another reply", room);
    }
    disk.bytes(alloc)
}

/// An operation on a disk that is only read, and then the reads: these are answered as on any other disk.
fn on_read_only_disk(alloc: Global, line: &str, before: &[u8]) -> Result<usize, Fail> {
    let (names, _) = present(line.split_once(':'), "names and numbers")?;
    let reads = datagrams(alloc, READS)?;
    let disk = Disk::with(alloc, before)?;
    let want = replies(alloc, &disk, &reads)?;
    disk.set_room(None);
    if is_done(alloc, &disk, names)? {
        return failed(alloc, "the operation is done", 0);
    }
    if replies(alloc, &disk, &reads)? != want || disk.bytes(alloc)?.as_slice() != before {
        return failed(alloc, "it isn't as before", 0);
    }
    Ok(reads.len().saturating_add(1))
}

/// The operations write 2,158, 2,158, 2,160, 2, 2,159, 2,158 and 2,158 bytes, 12,953 in all. Each is tried with room for none and so on up
/// to all, and with seven reads where nothing is written.
#[test]
fn operations_on_a_disk_that_is_full_or_only_read(rt: HostRuntime) -> Result<(), Fail> {
    let alloc = rt.alloc();
    let files = files(alloc)?;
    let (mut full, mut only_read) = (0usize, 0usize);
    for (line, (before, after)) in CAMPAIGN.lines().zip(files.iter().zip(files.iter().skip(1))) {
        full = full.saturating_add(on_full_disks(alloc, line, before, after)?);
        only_read = only_read.saturating_add(on_read_only_disk(alloc, line, before)?);
    }
    expect_tried(alloc, full, 12_953 + 7)?;
    expect_tried(alloc, only_read, 7 * (1 + 7))
}

/// How many bytes the file of the same store has with a header of version 1: without releases, and with them.
const OLD_SIZES: [usize; 2] = [634, 642];

/// What such a file has of this one, whose goal has no block from 4,096 on. Its header begins as one of version 1.
fn old_file(alloc: Global, file: &[u8], size: usize) -> Result<Vec<u8>, Fail> {
    let mut old = present(file.get(..size), "an old file")?.to_vec(alloc)?;
    if let Some(byte) = old.get_mut(7) {
        *byte = b'1';
    }
    Ok(old)
}

/// Whether the meter in the file is opened on a disk with this room.
fn is_opened(disk: &Disk, room: Room) -> Result<bool, Fail> {
    let store = DeviceStore::reopen_on(disk.open()?)?;
    disk.set_room(room);
    match MeterCore::open_store(store) {
        Ok(_meter) => Ok(true),
        Err((OpenError::Fault, _store)) => Ok(false),
        Err((error, _store)) => Err(error.into()),
    }
}

/// The meter in an old file is opened with room for each number of bytes up to those of a header of version 2. With less than these it
/// isn't, and the file is as before; with these the file is the new one.
fn opened_on_full_disks(alloc: Global, old: &[u8], new: &[u8]) -> Result<usize, Fail> {
    let mut tried = 0usize;
    for room in 0..=2_158 {
        let disk = Disk::with(alloc, old)?;
        let is_opened = is_opened(&disk, Some(room))?;
        let want = if room == 2_158 { new } else { old };
        if is_opened != (room == 2_158) || disk.bytes(alloc)?.as_slice() != want {
            return failed(alloc, "another file", room);
        }
        tried = tried.saturating_add(1);
    }
    Ok(tried)
}

/// The meter in an old file on a disk that is only read: it isn't opened, and the file stays as it is. If its header is kept it is, and
/// answers the reads as the one in the new file.
fn on_read_only_disk_as_old(alloc: Global, old: &[u8], new: &[u8]) -> Result<(), Fail> {
    let reads = datagrams(alloc, READS)?;
    let disk = Disk::with(alloc, old)?;
    if is_opened(&disk, None)? {
        return failed(alloc, "it is opened", old.len());
    }
    let replies = match MeterCore::open_kept(DeviceStore::reopen_on(disk.open()?)?) {
        Ok(mut meter) => support::replies(alloc, &mut meter, &reads)?,
        Err((error, _store)) => return Err(error.into()),
    };
    if replies != reads_of(alloc, &reads, new)? || disk.bytes(alloc)?.as_slice() != old {
        return failed(alloc, "another meter", old.len());
    }
    Ok(())
}

/// The file of a new meter, and the one after each operation, with a header of version 1. All releases are 0. The meter in the old file
/// answers the reads as the one in the new file.
#[test]
fn an_old_store_on_a_disk_that_is_full_or_only_read(rt: HostRuntime) -> Result<(), Fail> {
    let alloc = rt.alloc();
    let (mut full, mut only_read) = (0usize, 0usize);
    for new in &files(alloc)? {
        for size in OLD_SIZES {
            let old = old_file(alloc, new, size)?;
            full = full.saturating_add(opened_on_full_disks(alloc, &old, new)?);
            on_read_only_disk_as_old(alloc, &old, new)?;
            only_read = only_read.saturating_add(1);
        }
    }
    expect_tried(alloc, full, 8 * 2 * 2_159)?;
    expect_tried(alloc, only_read, 8 * 2)
}

/// Whether a store is made on a disk with this room, over the file of another one.
fn is_made(disk: &Disk, room: Room) -> Result<bool, Fail> {
    disk.set_room(room);
    let made = DeviceStore::create_on(disk.open()?, 8, 2, b"x").err();
    disk.set_room(Some(usize::MAX));
    match made {
        None => Ok(true),
        Some(FileStoreError::StoreFault) => Ok(false),
        Some(refusal) => Err(refusal.into()),
    }
}

/// Whether there is a store on the disk.
fn holds_a_store(disk: &Disk) -> Result<bool, Fail> {
    match DeviceStore::reopen_on(disk.open()?) {
        Ok(_store) => Ok(true),
        Err(FileStoreError::BadFile) => Ok(false),
        Err(refusal) => Err(refusal.into()),
    }
}

/// What is made in part is no store: the capacity, which is written last, isn't there. The image has one byte, the header 2,158 and the
/// capacity 4. On a disk that is only read the file stays.
#[test]
fn a_store_on_a_disk_that_is_full_or_only_read(rt: HostRuntime) -> Result<(), Fail> {
    let alloc = rt.alloc();
    let files = files(alloc)?;
    let file = present(files.last(), "a file")?;
    let mut tried = 0usize;
    for room in 0..=2_163 {
        let disk = Disk::with(alloc, file)?;
        let made = is_made(&disk, Some(room))?;
        if made != (room == 2_163) || holds_a_store(&disk)? != made {
            return failed(alloc, "a store that isn't whole", room);
        }
        tried = tried.saturating_add(1);
    }
    expect_tried(alloc, tried, 2_164)?;
    let disk = Disk::with(alloc, file)?;
    if is_made(&disk, None)? || disk.bytes(alloc)?.as_slice() != file.as_slice() {
        return failed(alloc, "a store is made", 0);
    }
    Ok(())
}
