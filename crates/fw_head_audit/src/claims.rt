//! What came to a head end of images that meters run.

ghost use Rattle.std.specs.Prelude.{◌≡◌, ◌≤◌, IfOk, OnErr, OnOk, length};
ghost use Rattle.fw_apdu.specs.View.{response_content};
ghost use Rattle.fw_audit.specs.Log.{item_of, log_of};
ghost use Rattle.fw_axdr.specs.View.{value_of};
ghost use Rattle.fw_head_audit.specs.Heads.{Claims, MayWantMemory};
ghost use Rattle.fw_head_audit.specs.Private.{AreClaimants, AreClaims, AreNamesAt, Finds, HaveNames, IsName, IsNamedIn, NotesClaim};

use crate::meter::AskedMeter;
use crate::reading::response_in;
use fw_apdu::{GetDataResult, Response};
use fw_audit::LogItem;
use fw_axdr::Data;
use fw_fleet_audit::AuditedMeter;
use fw_names::ImageName;
use std::alloc::{AllocError, Global};
use std::net::SocketAddr;

/// A name that a datagram claimed, and the address that it came from.
#[derive(Clone, Copy)]
pub(crate) struct Claim {
    from: SocketAddr,
    name: ImageName,
}

/// Each meter with the names that it claimed.
pub(crate) fn claimants(
    alloc: Global,
    meters: &[AskedMeter],
    items: &[LogItem<'_>],
) -> Result<Vec<AuditedMeter>, AllocError>
    ensures claimants { IfOk result (λ all. AreClaimants meters.now (log_of items.now) all.items) }
    ensures memory { OnErr result (MayWantMemory meters.now (log_of items.now)) }
{
    let claims = claims(alloc, items)?;
    let all = with_names(alloc, meters, claims.as_slice())?;
    Ok(all)
}

/// Each meter with the names in the claims that came from its address.
fn with_names(
    alloc: Global,
    meters: &[AskedMeter],
    claims: &[Claim],
) -> Result<Vec<AuditedMeter>, AllocError>
    ensures names { IfOk result (λ all. HaveNames meters.now claims.now all.items) }
    ensures memory { OnErr result (1 ≤ length meters.now) }
{
    let mut all = Vec::with_capacity(alloc, meters.len())?;
    for at in 0..meters.len() {
        let asked = meters[at];
        let names = names_at(alloc, claims, asked.at)?;
        all.push(AuditedMeter {
            meter: asked.meter,
            names,
        })?;
    }
    Ok(all)
}

/// The names in the claims that came from this address.
fn names_at(alloc: Global, claims: &[Claim], from: SocketAddr) -> Result<Vec<ImageName>, AllocError>
    ensures { IfOk result (λ names. AreNamesAt claims.now from names.items) }
{
    let mut names = Vec::new(alloc);
    for at in 0..claims.len() {
        let claim = claims[at];
        if claim.from == from {
            names.push(claim.name)?;
        }
    }
    Ok(names)
}

/// The claims in a log.
fn claims(alloc: Global, items: &[LogItem<'_>]) -> Result<Vec<Claim>, AllocError>
    ensures claims { IfOk result (λ claims. AreClaims (log_of items.now) claims.items) }
    ensures memory { OnErr result (1 ≤ length items.now) }
{
    let mut claims = Vec::new(alloc);
    for at in 0..items.len() {
        note_claim(alloc, &mut claims, &items[at])?;
    }
    Ok(claims)
}

/// Adds the claim of an item, if it is one.
fn note_claim(alloc: Global, claims: &mut Vec<Claim>, item: &LogItem<'_>) -> Result<(), AllocError>
    ensures { OnOk result (NotesClaim claims.old.items (item_of item.now) claims.new.items) }
{
    fw_wrapper::laws::one_frame();
    fw_apdu::laws::one_response();
    fw_names::laws::one_name();
    match *item {
        LogItem::Came { from, bytes } => {
            if let Some(name) = claim_in(alloc, bytes)? {
                claims.push(Claim { from, name })?;
            }
            Ok(())
        }
        LogItem::Started | LogItem::Sent { .. } | LogItem::Turned => Ok(()),
    }
}

/// The name that a datagram claims, if it does.
fn claim_in(alloc: Global, datagram: &[u8]) -> Result<Option<ImageName>, AllocError>
    ensures { IfOk result (Finds (Claims datagram.now)) }
{
    fw_wrapper::laws::one_frame();
    fw_apdu::laws::one_response();
    match response_in(alloc, datagram) {
        Ok(Some(response)) => Ok(name_in(&response)),
        Ok(None) => Ok(None),
        Err(error) => Err(error),
    }
}

/// The name that a response to a GET has.
fn name_in(response: &Response) -> Option<ImageName>
    ensures { Finds (IsNamedIn (response_content response.now)) result }
{
    match response {
        Response::Get {
            result: GetDataResult::Data(value),
            ..
        } => name_of(value),
        _ => None,
    }
}

/// The name that an octet-string spells.
fn name_of(value: &Data) -> Option<ImageName>
    ensures { Finds (IsName (value_of value.now)) result }
{
    match value {
        Data::OctetString(bytes) => ImageName::from_bytes(bytes.as_slice()),
        _ => None,
    }
}
