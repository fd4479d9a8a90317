//! A process of a meter that runs, as its log is read item by item.

ghost use Rattle.std.specs.Prelude.{◌≡◌, ◌≢◌, ◌++◌, ◌↔◌, Contains, IfOk, IsTrue, List};
ghost use Rattle.std.specs.declared.net.socket_addr.SocketAddr.{SocketAddr};
ghost use Rattle.fw_image.specs.Meter.{Meter};
ghost use Rattle.fw_meter.specs.Handling.{reply_bytes};
ghost use Rattle.fw_stored.specs.Stored.{IsSound};
ghost use Rattle.fw_audit.specs.Log.{came, item_of, sent, started, turned};
ghost use Rattle.fw_audit.specs.Stands.{MayAsk, owes, owing, switched_to, waits};
ghost use Rattle.fw_audit.specs.Private.{IsStepped, stand_in, stand_of};

use crate::error::Rule;
use crate::item::LogItem;
use crate::switched::Switched;
use fw_image::TransferStatus;
use fw_meter::{Handled, MeterCore};
use fw_names::ImageName;
use fw_store::MemoryStore;
use std::alloc::{AllocError, Global};
use std::net::SocketAddr;

/// A reply that is still to be sent.
#[derive(Drop)]
pub(crate) struct Owed {
    to: SocketAddr,
    reply: Vec<u8>,
}

/// A process that runs.
pub(crate) struct Going {
    meter: MeterCore<MemoryStore>,
    owed: Option<Owed>,
    /// The images that it switched to.
    switched: Vec<Switched>,
}

// Written out, so that letting go of it is one call in a proof.
impl Drop for Going {
    fn drop(self) {
        let Going {
            meter: _,
            owed: _,
            switched: _,
        } = self;
    }
}

/// Why an item leads nowhere.
#[derive(Clone, Copy)]
pub(crate) enum Misstep {
    /// It breaks this rule.
    Departs(Rule),
    /// Memory was refused.
    OutOfMemory,
}

impl Going {
    /// A process that was just started with this meter. It had switched to these images before.
    pub(crate) fn started(meter: MeterCore<MemoryStore>, switched: Vec<Switched>) -> Going
        ensures stand { stand_of result ≡ waits meter.meter }
        ensures meter { result.meter ≡ meter }
        ensures images { result.switched.items ≡ switched.items }
    {
        Going {
            meter,
            owed: None,
            switched,
        }
    }

    /// Its meter, and the images.
    pub(crate) fn into_parts(self) -> (MeterCore<MemoryStore>, Vec<Switched>)
        ensures meter { result.0 ≡ self.meter }
        ensures images { result.1.items ≡ self.switched.items }
    {
        let Going {
            meter,
            owed: _,
            switched,
        } = self;
        (meter, switched)
    }

    /// The process after an item, which is no start.
    ///
    /// # Errors
    ///
    /// `Departs` just if no meter that just these addresses may ask does this there.
    pub(crate) fn step(
        self,
        alloc: Global,
        heads: &[SocketAddr],
        item: &LogItem<'_>,
    ) -> Result<Going, Misstep>
        requires sound { IsSound self.meter }
        requires going { item_of item.now ≢ started }
        ensures { IsStepped heads.now self.switched.items (stand_of self) (item_of item.now) result }
    {
        let Going {
            meter,
            owed,
            switched,
        } = self;
        match owed {
            None => wait(alloc, heads, meter, switched, item),
            Some(owed) => owe(meter, switched, owed, item),
        }
    }
}

/// An item where all that came is answered.
fn wait(
    alloc: Global,
    heads: &[SocketAddr],
    meter: MeterCore<MemoryStore>,
    switched: Vec<Switched>,
    item: &LogItem<'_>,
) -> Result<Going, Misstep>
    requires sound { IsSound meter }
    requires going { item_of item.now ≢ started }
    ensures { IsStepped heads.now switched.items (waits meter.meter) (item_of item.now) result }
{
    match *item {
        LogItem::Came { from, bytes } => hear(alloc, heads, meter, switched, from, bytes),
        LogItem::Turned => turn(meter, switched),
        LogItem::Sent { .. } => Err(Misstep::Departs(Rule::NothingOwed)),
        LogItem::Started => unreachable!(),
    }
}

/// An item where a reply is owed.
fn owe(
    meter: MeterCore<MemoryStore>,
    switched: Vec<Switched>,
    owed: Owed,
    item: &LogItem<'_>,
) -> Result<Going, Misstep>
    requires sound { IsSound meter }
    requires going { item_of item.now ≢ started }
    ensures { (heads : List SocketAddr)
        → IsStepped heads switched.items (owes owed.to owed.reply.items meter.meter) (item_of item.now) result }
{
    match *item {
        LogItem::Sent { to, bytes } => pay(meter, switched, owed, to, bytes),
        LogItem::Came { .. } => Err(Misstep::Departs(Rule::ReplyMissing)),
        LogItem::Turned => Err(Misstep::Departs(Rule::ReplyMissing)),
        LogItem::Started => unreachable!(),
    }
}

/// A datagram came.
fn hear(
    alloc: Global,
    heads: &[SocketAddr],
    meter: MeterCore<MemoryStore>,
    switched: Vec<Switched>,
    from: SocketAddr,
    datagram: &[u8],
) -> Result<Going, Misstep>
    requires { IsSound meter }
    ensures { IsStepped heads.now switched.items (waits meter.meter) (came from datagram.now) result }
{
    fw_meter::laws::faultless();
    fw_meter::laws::one_answer();
    fw_meter::laws::keeps_size();
    if !may_ask(heads, from) {
        return Ok(Going::started(meter, switched));
    }
    let mut meter = meter;
    let Ok(handled) = meter.handle(alloc, datagram) else {
        return Err(Misstep::OutOfMemory);
    };
    let Handled { reply, activated } = handled;
    let Ok(switched) = with_running(alloc, &mut meter, switched, activated) else {
        return Err(Misstep::OutOfMemory);
    };
    Ok(Going {
        meter,
        owed: owed_to(from, reply),
        switched,
    })
}

/// A turn is noted.
fn turn(meter: MeterCore<MemoryStore>, switched: Vec<Switched>) -> Result<Going, Misstep>
    requires { IsSound meter }
    ensures { (heads : List SocketAddr) → IsStepped heads switched.items (waits meter.meter) turned result }
{
    fw_image::laws::one_turn();
    fw_image::laws::turn_keeps_size();
    let mut meter = meter;
    if meter.status() == TransferStatus::VerificationInitiated {
        meter.turn();
        Ok(Going::started(meter, switched))
    } else {
        Err(Misstep::Departs(Rule::NothingVerified))
    }
}

/// A datagram is sent where this reply is owed.
fn pay(
    meter: MeterCore<MemoryStore>,
    switched: Vec<Switched>,
    owed: Owed,
    to: SocketAddr,
    bytes: &[u8],
) -> Result<Going, Misstep>
    requires { IsSound meter }
    ensures { (heads : List SocketAddr)
        → IsStepped heads switched.items (owes owed.to owed.reply.items meter.meter) (sent to bytes.now) result }
{
    if !is_owed(&owed, to, bytes) {
        return Err(Misstep::Departs(Rule::OtherReply));
    }
    Ok(Going::started(meter, switched))
}

/// Whether this is the reply that is owed, to its address.
fn is_owed(owed: &Owed, to: SocketAddr, bytes: &[u8]) -> bool
    ensures { IsTrue result ↔ ((to ≡ owed.now.to) × (bytes.now ≡ owed.now.reply.items)) }
{
    to == owed.to && bytes == owed.reply.as_slice()
}

/// Whether an address may ask.
fn may_ask(heads: &[SocketAddr], from: SocketAddr) -> bool
    ensures { IsTrue result ↔ MayAsk heads.now from }
{
    heads.is_empty() || is_one_of(heads, from)
}

/// Whether an address is among these.
fn is_one_of(heads: &[SocketAddr], from: SocketAddr) -> bool
    ensures { IsTrue result ↔ Contains heads.now from }
{
    heads.contains(&from)
}

/// A reply, if there is one, that is owed to this address.
fn owed_to(to: SocketAddr, reply: Option<Vec<u8>>) -> Option<Owed>
    ensures { (meter : Meter) → stand_in meter result ≡ owing to (reply_bytes reply) meter }
{
    match reply {
        Some(reply) => Some(Owed { to, reply }),
        None => None,
    }
}

/// The images, and the one that runs, if the meter switched to it under this name.
fn with_running(
    alloc: Global,
    meter: &mut MeterCore<MemoryStore>,
    images: Vec<Switched>,
    name: Option<ImageName>,
) -> Result<Vec<Switched>, AllocError>
    requires { IsSound meter.old }
    ensures images { IfOk result (λ all. all.items ≡ images.items ++ switched_to name meter.old.meter) }
    ensures meter { meter.new.meter ≡ meter.old.meter }
    ensures sound { IsSound meter.new }
{
    let Some(name) = name else {
        return Ok(images);
    };
    let bytes = running(alloc, meter)?;
    let mut all = images;
    all.push(Switched::new(alloc, name, bytes)?)?;
    Ok(all)
}

/// The bytes of the image that runs.
fn running(alloc: Global, meter: &mut MeterCore<MemoryStore>) -> Result<Vec<u8>, AllocError>
    requires { IsSound meter.old }
    ensures bytes { IfOk result (λ bytes. bytes.items ≡ meter.old.meter.running.bytes) }
    ensures meter { meter.new.meter ≡ meter.old.meter }
    ensures sound { IsSound meter.new }
{
    let size = meter.view().active_size;
    let mut bytes = vec![in alloc; 0; size as usize]?;
    match meter.read_running(&mut bytes) {
        Ok(()) => Ok(bytes),
        Err(_) => unreachable!(),
    }
}
