//! Files of stores with a header of either version, cut at each length, and with each byte of what a file begins with turned to each
//! value: such a file is refused by a name, or the meter is opened as its header says, which is one of version 2 then.

use crate::disk::Disk;
use crate::support::{Count, Outcome, datagrams, expect_tried, failed, note, opened, replies};
use fw_image::{MeterView, OpenError};
use fw_meter::MeterCore;
use fw_names::ImageName;
use fw_store::{DeviceStore, FileStoreError, VERSION_TWO_SIZE};
use std::alloc::Global;
use std::test::Fail;
use test_tables::{Reads, Words, each_part, present};

/// Where the first slot of a file begins: after the capacity, and the first 614 bytes of a header. Its others stand after the slots: eight of
/// releases, and in version 2 the marks of the blocks from 4,096 on, in 1,536 bytes.
const SLOTS_AT: usize = 618;

/// The header of version 2 in the bytes of a file.
fn header_of(bytes: &[u8]) -> Result<[u8; VERSION_TWO_SIZE], Fail> {
    let front = present(bytes.get(4..SLOTS_AT), "a header")?;
    let last = present(bytes.get(bytes.len().saturating_sub(1_544)..), "two slots")?;
    let mut header = [0; VERSION_TWO_SIZE];
    for (to, byte) in header.iter_mut().zip(front.iter().chain(last)) {
        *to = *byte;
    }
    Ok(header)
}

/// The 41 bytes of a name in a header, and its release there.
fn name_bytes(name: ImageName) -> ([u8; 41], [u8; 4]) {
    let mut bytes = [0; 41];
    let head = name.campaign.head().map_or(0, |head| head.number());
    bytes[0] = 1;
    bytes[1..5].copy_from_slice(&head.to_be_bytes());
    bytes[5..9].copy_from_slice(&name.campaign.serial().to_be_bytes());
    bytes[9..].copy_from_slice(&name.digest);
    (bytes, name.release.to_be_bytes())
}

/// The bytes of the goal of a header that shows this, and its release.
fn goal_bytes(view: &MeterView) -> ([u8; 45], [u8; 4]) {
    let mut bytes = [0; 45];
    let mut release = [0; 4];
    if let Some(goal) = view.goal {
        let (name, number) = name_bytes(goal.name);
        bytes[..4].copy_from_slice(&goal.size.to_be_bytes());
        bytes[4..].copy_from_slice(&name);
        release = number;
    }
    (bytes, release)
}

/// What a meter shows is what the header has in its fields.
fn shows(view: &MeterView, header: &[u8; VERSION_TWO_SIZE]) -> bool {
    let (active, active_release) = name_bytes(view.active);
    let (goal, goal_release) = goal_bytes(view);
    let marks = view.marked.as_slice();
    let Some(marked) = marks.get(..512) else {
        return false;
    };
    let Some(more_marked) = marks.get(512..) else {
        return false;
    };
    &header[..4] == b"FWH2".as_slice()
        && view.limit == 16_384
        && u8::from(view.enabled) == header[4]
        && view.status.number() == header[6]
        && u8::from(view.goal.is_some()) == header[7]
        && view.active_size.to_be_bytes().as_slice() == &header[12..16]
        && active.as_slice() == &header[16..57]
        && goal.as_slice() == &header[57..102]
        && marked == &header[102..614]
        && active_release.as_slice() == &header[614..618]
        && goal_release.as_slice() == &header[618..622]
        && more_marked == &header[622..]
}

/// What comes of the file on a disk. A meter that is opened shows what its header says.
fn judged(alloc: Global, disk: &Disk) -> Result<Outcome, Fail> {
    let store = match DeviceStore::reopen_on(disk.open()?) {
        Ok(store) => store,
        Err(FileStoreError::BadFile) => return Ok(Outcome::BadFile),
        Err(refusal) => return Err(refusal.into()),
    };
    match MeterCore::open_store(store) {
        Ok(meter) => {
            let view = meter.view();
            drop(meter);
            if shows(&view, &header_of(&disk.bytes(alloc)?)?) {
                Ok(Outcome::Opened)
            } else {
                Err("a meter was opened as its header doesn't say".into())
            }
        }
        Err((OpenError::BadHeader, _store)) => Ok(Outcome::BadHeader),
        Err((OpenError::BadImage, _store)) => Ok(Outcome::BadImage),
        Err((OpenError::Fault, _store)) => Err("a call of the store failed".into()),
    }
}

/// The file of a meter that was made with `factory`, with blocks of two bytes and slots of `capacity` bytes, after these datagrams, if any
/// came.
fn file_of(alloc: Global, capacity: u32, factory: &str, names: &str) -> Result<Vec<u8>, Fail> {
    let disk = Disk::with(alloc, b"")?;
    DeviceStore::create_on(disk.open()?, capacity, 2, factory.as_bytes())?;
    if !names.is_empty() {
        let mut meter = opened(DeviceStore::reopen_on(disk.open()?)?)?;
        replies(alloc, &mut meter, &datagrams(alloc, names)?)?;
    }
    disk.bytes(alloc)
}

/// How much shorter a file is with a header of version 1, and with one that has no releases.
const SHORTER: &[usize] = &[1_536, 1_544];

/// The first four bytes of the header of a file are made those of version 1.
fn make_old(bytes: &mut Vec<u8>) {
    if let Some(byte) = bytes.get_mut(7) {
        *byte = b'1';
    }
}

/// Whether a file of `len` bytes is judged right. With a header of version 2 it is a store at its own length, and with one of version 1 at
/// the lengths without what version 2 has besides. At a length of the other version its header is bad.
fn is_right(outcome: Outcome, old: bool, len: usize, size: usize) -> bool {
    let is_whole = len == size;
    let is_shorter = SHORTER.iter().any(|less| len.saturating_add(*less) == size);
    match outcome {
        Outcome::Opened => if old { is_shorter } else { is_whole },
        Outcome::BadHeader => if old { is_whole } else { is_shorter },
        Outcome::BadFile => !is_whole && !is_shorter,
        Outcome::BadImage => false,
    }
}

/// Bytes of a file, which are taken for what they are. What isn't opened stays as it is, and what is, is the file of a new store then.
fn is_taken_right(alloc: Global, cut: &[u8], new: &[u8], old: bool) -> Result<bool, Fail> {
    let disk = Disk::with(alloc, cut)?;
    let outcome = judged(alloc, &disk)?;
    let left = if matches!(outcome, Outcome::Opened) {
        new
    } else {
        cut
    };
    Ok(is_right(outcome, old, cut.len(), new.len()) && disk.bytes(alloc)?.as_slice() == left)
}

/// The file of a store of this capacity at each length: no byte, and so on up to one byte more than it has; once it is a new one, and once
/// its header begins as one of version 1.
fn each_length(alloc: Global, capacity: u32, old: bool) -> Result<usize, Fail> {
    let new = file_of(alloc, capacity, "x", "")?;
    let mut bytes = new.as_slice().to_vec(alloc)?;
    bytes.push(0)?;
    if old {
        make_old(&mut bytes);
    }
    let mut tried = 0usize;
    for len in 0..=bytes.len() {
        let cut = present(bytes.get(..len), "as many bytes")?;
        if !is_taken_right(alloc, cut, &new, old)? {
            return failed(alloc, "the file isn't taken for what it is", len);
        }
        tried = tried.saturating_add(1);
    }
    Ok(tried)
}

/// A file has 4 bytes, a header of 2,158, and two slots: with slots of one byte 2,164 in all, and with slots of eight 2,178. So there are
/// 2,166 lengths, and 2,180.
#[test]
fn cut_at_each_length(rt: HostRuntime) -> Result<(), Fail> {
    let alloc = rt.alloc();
    for old in [false, true] {
        expect_tried(alloc, each_length(alloc, 1, old)?, 2_166)?;
        expect_tried(alloc, each_length(alloc, 8, old)?, 2_180)?;
    }
    Ok(())
}

/// A row has what is turned: of a file with a header of version 2, `new`, or of version 1, `old`, each byte that stands before the slots or
/// is of a release, to each value; or each bit of the further `marks` of version 2. Then it has the file, as `file_of` makes it. It tells
/// from how many files the meter is opened, and how many are bad files, bad headers and bad images.
#[derive(Clone, Copy)]
struct Turned;

impl Reads for Turned {
    fn told(&mut self, alloc: Global, what: &str) -> Result<String, Fail> {
        let mut words = Words::new(what);
        let (turned, capacity, factory): (&str, u32, &str) = words.read()?;
        let mut file = file_of(alloc, capacity, factory, words.rest())?;
        let last = file.len().saturating_sub(1_536);
        let mut count = [0; 4];
        if turned == "marks" {
            turn_all(
                alloc,
                &mut file,
                last,
                last.saturating_add(1_536),
                &mut count,
            )?;
            return Ok(format!(in alloc; "{:?}", count)?);
        }
        if turned == "old" {
            file.truncate(last);
            make_old(&mut file);
        }
        turn_all(alloc, &mut file, 0, SLOTS_AT, &mut count)?;
        turn_all(alloc, &mut file, last.saturating_sub(8), last, &mut count)?;
        Ok(format!(in alloc; "{:?}", count)?)
    }
}

/// Turns the bytes of a file from `start` on up to `end`, one at a time: each to each value, or each of their bits where they are further
/// marks.
fn turn_all(
    alloc: Global,
    file: &mut [u8],
    start: usize,
    end: usize,
    count: &mut Count,
) -> Result<(), Fail> {
    let is_by_bits = end.saturating_sub(start) == 1_536;
    for at in start..end {
        for turn in 0..=255u8 {
            if !is_by_bits || turn.is_power_of_two() {
                turn_byte(file, at, turn);
                note(count, judged(alloc, &Disk::with(alloc, file)?)?);
                turn_byte(file, at, turn);
            }
        }
    }
    Ok(())
}

/// Turns these bits of a byte.
fn turn_byte(file: &mut [u8], at: usize, turn: u8) {
    if let Some(byte) = file.get_mut(at) {
        *byte = *byte ^ turn;
    }
}

/// Of each of the 626 bytes that stand before the slots or are releases the value that it has opens the meter. A file with another capacity
/// has another length than its store, except one that has that of a store of version 1, as which it doesn't begin, or of one without
/// releases.
///
/// The meter runs `x` and receives `abc`, of which the second block is there. Beside its own header a store can have: not enabled; a block
/// size of 1; a goal of 4 to 8 bytes, which has a second block too; a goal in another campaign, whose two numbers are any except 0, with
/// another digest, of any release, and with each other choice of its two marks. The image that runs isn't the name's in the other slot,
/// with 2 to 8 bytes, or under another digest.
const RECEIVING: &str = "
    // Opened: 626 + 1 + 1 + 5 + 2 * (3 * 255 + 254) + 32 * 255 + 4 * 255 + 3. Bad files: 4 * 255 - 1. Bad images: 1 + 7 + 32 * 255.
    // Of all 626 * 256 the others are bad headers, among them that with 776 bytes a slot.
    new 8 x enable initiate block-1   => [11854, 1019, 139215, 8168]
    // With twelve bytes a slot it is one without releases. Opened: one more than above.
    old 8 x enable initiate block-1   => [11855, 1019, 139214, 8168]
    // The 1,536 bytes after the releases are marks of blocks that the goal hasn't. Bad headers: 1,536 * 8.
    marks 8 x enable initiate block-1 => [0, 0, 12288, 0]
";

/// A new store with 64 bytes a slot. Beside its own header it can have: enabled; status 6; a block size of 258, 514 or 770, and any of 1 to
/// 255. The image isn't the name's if it is in the other slot, has another size of 1 to 64, or the name another digest.
const NEW: &str = "
    // Opened: 626 + 1 + 1 + 3 + 254. Bad images: 1 + 63 + 32 * 255. With 832 bytes a slot it is a bad header.
    new 64 abc => [885, 1019, 150128, 8224]
    // With 68 bytes a slot it is one without releases, which is opened.
    old 64 abc => [886, 1019, 150127, 8224]
";

/// A store that runs `x`, in which `abc` was verified. Beside its own header it can have: not enabled; statuses 1 and 4; a name of another
/// campaign, whose numbers are any except 0, or of any release. The image that runs isn't its name's in the other slot, with another size,
/// or under another digest, and the verified one isn't with four bytes, or under another digest.
const VERIFIED: &str = "
    // Opened: 626 + 1 + 2 + 2 * (3 * 255 + 254) + 4 * 255. Bad images: 1 + 63 + 32 * 255 + 1 + 32 * 255.
    new 64 x enable initiate block-0 block-1 verify   => [3687, 1019, 139165, 16385]
    // With 68 bytes a slot the second one, where the verified image is, begins elsewhere: one bad image more.
    old 64 x enable initiate block-0 block-1 verify   => [3687, 1019, 139164, 16386]
    marks 64 x enable initiate block-0 block-1 verify => [0, 0, 12288, 0]
";

/// A store that runs `abc` of release 5 from its second slot. Beside its own header it can have: not enabled; status 0; each other block
/// size as a new one; a name of another campaign, whose numbers are any except 0, or of any release. The image isn't the name's in the
/// other slot, with another size, or under another digest.
const RELEASED: &str = "
    // Opened: 626 + 1 + 1 + 3 + 254 + 2 * (3 * 255 + 254) + 4 * 255. Bad images: 1 + 63 + 32 * 255.
    new 64 x enable initiate-5 block-0 block-1 verify activate => [3943, 1019, 147070, 8224]
    old 64 x enable initiate-5 block-0 block-1 verify activate => [3943, 1019, 147069, 8225]
";

#[test]
fn each_byte_turned(rt: HostRuntime) -> Result<(), Fail> {
    each_part(rt.alloc(), &mut Turned, &[RECEIVING, NEW])
}

#[test]
fn each_byte_beside_an_image_turned(rt: HostRuntime) -> Result<(), Fail> {
    each_part(rt.alloc(), &mut Turned, &[VERIFIED, RELEASED])
}
