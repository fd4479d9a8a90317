//! Datagrams to meters by their names, the count of what was tried and of what came of it, and meters.

use fw_meter::MeterCore;
use fw_store::ImageStore;
use std::alloc::Global;
use std::test::Fail;
use test_tables::{named, present};

/// Datagrams to a meter, and its replies: an enable, which sets image_transfer_enabled to true; an initiate for `abc` of campaign 1 of head
/// end 7, and one for the same of release 5; its two blocks of two bytes, and `zz` in place of the first; GETs of attributes 2 to 7, and of
/// the active firmware identifier; the replies to a SET and to an ACTION, if the store failed, and where it is done.
const DATAGRAMS: &str = "
    enable = 000100010001000fc101c1001200002c0000ff05000301
    initiate = 000100010001003fc301c1001200002c0000ff010102020929010000000700000001ba7816bf8f01cfea414140de5dae2223b00361a396177a9cb410ff61f20015ad0600000003
    initiate-5 = 0001000100010043c301c1001200002c0000ff01010202092d02000000070000000100000005ba7816bf8f01cfea414140de5dae2223b00361a396177a9cb410ff61f20015ad0600000003
    block-0 = 0001000100010018c301c1001200002c0000ff02010202060000000009026162
    block-0-zz = 0001000100010018c301c1001200002c0000ff02010202060000000009027a7a
    block-1 = 0001000100010017c301c1001200002c0000ff020102020600000001090163
    verify = 000100010001000fc301c1001200002c0000ff03010f00
    activate = 000100010001000fc301c1001200002c0000ff04010f00
    get-2 = 000100010001000dc001c1001200002c0000ff0200
    get-3 = 000100010001000dc001c1001200002c0000ff0300
    get-4 = 000100010001000dc001c1001200002c0000ff0400
    get-5 = 000100010001000dc001c1001200002c0000ff0500
    get-6 = 000100010001000dc001c1001200002c0000ff0600
    get-7 = 000100010001000dc001c1001200002c0000ff0700
    get-firmware = 000100010001000dc001c100010100000200ff0200
    set-fault = 0001000100010004c501c101
    set-done = 0001000100010004c501c100
    fault = 0001000100010005c701c10100
    done = 0001000100010005c701c10000
";

/// The datagrams of these names, with a space between two.
pub(crate) fn datagrams(alloc: Global, names: &str) -> Result<Vec<Vec<u8>>, Fail> {
    let mut datagrams = Vec::new(alloc);
    for name in names.split(' ') {
        let digits = present(named(DATAGRAMS, name), "no datagram has this name")?;
        datagrams.push(hex::decode(alloc, digits)?)?;
    }
    Ok(datagrams)
}

/// The replies of a meter to these datagrams, one after another. It replies to each.
pub(crate) fn replies<S: ImageStore + Drop>(
    alloc: Global,
    meter: &mut MeterCore<S>,
    asks: &[Vec<u8>],
) -> Result<Vec<u8>, Fail> {
    let mut replies = Vec::new(alloc);
    for ask in asks {
        let reply = present(meter.handle(alloc, ask)?.reply, "a reply")?;
        replies.extend_from_slice(&reply)?;
    }
    Ok(replies)
}

/// The meter in a store.
pub(crate) fn opened<S: ImageStore + Drop>(store: S) -> Result<MeterCore<S>, Fail> {
    match MeterCore::open_store(store) {
        Ok(meter) => Ok(meter),
        Err((error, _store)) => Err(error.into()),
    }
}

/// As many cases were tried as are wanted.
pub(crate) fn expect_tried(alloc: Global, tried: usize, want: usize) -> Result<(), Fail> {
    if tried == want {
        return Ok(());
    }
    let told = format!(in alloc; "{tried} cases in place of {want}")?;
    Err(Fail::from(told))
}

/// A case that went wrong, by its place.
pub(crate) fn failed<T>(alloc: Global, what: &str, at: usize) -> Result<T, Fail> {
    let told = format!(in alloc; "case {at}: {what}")?;
    Err(Fail::from(told))
}

/// What comes of the bytes of a store.
#[derive(Clone, Copy)]
pub(crate) enum Outcome {
    Opened,
    BadFile,
    BadHeader,
    BadImage,
}

/// From how many stores a meter was opened, and how many were refused as a bad file, for a bad header and for a bad image.
pub(crate) type Count = [usize; 4];

/// Counts what comes of a store.
pub(crate) fn note(count: &mut Count, outcome: Outcome) {
    match outcome {
        Outcome::Opened => count[0] = count[0].saturating_add(1),
        Outcome::BadFile => count[1] = count[1].saturating_add(1),
        Outcome::BadHeader => count[2] = count[2].saturating_add(1),
        Outcome::BadImage => count[3] = count[3].saturating_add(1),
    }
}
