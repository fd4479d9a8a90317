//! The rows of a book, beside what meters switched to.

ghost use Rattle.std.specs.Prelude.{◌≡◌, ◌==◌, ◌≤◌, All, false, IfErr, IfNone, IfSome, IsTrue, OnOk};
ghost use Rattle.std.specs.List.{list_any};
ghost use Rattle.fw_names.specs.Name.{IsOpened, Name};
ghost use Rattle.fw_fleet_audit.specs.Rows.{AreBorneOut, Audited, HasSwitched, IsBorneOut, IsFirstLacking, IsRowDeparture, Lacks, campaign_of};
ghost use Rattle.fw_fleet_audit.specs.Private.{IsUnborne};

use crate::error::{RowDeparture, RowRule};
use crate::meter::AuditedMeter;
use fw_book::{Book, Row, RowState};
use fw_names::{CampaignId, HeadId, ImageName, MeterId};

/// Whether each row of a book that is done is of one of these meters, and that switched to an image under the name under which the campaign
/// offers its image. No memory is taken, and no byte of an image is read. For each row that is done, the numbers of all meters are looked
/// through.
///
/// # Errors
///
/// The first row of which that isn't so.
pub fn audit_book(book: &Book, meters: &[AuditedMeter]) -> Result<(), RowDeparture>
    ensures borne_out { OnOk result (AreBorneOut book.now meters.now) }
    ensures departs { IfErr result (IsRowDeparture book.now meters.now) }
{
    let head = book.head();
    for (serial, offer) in book.rows() {
        let campaign = campaign_of(head, *serial);
        let name = offer.name(campaign);
        if let Some(lacking) = first_lacking(meters, name, offer.rows()) {
            let (meter, rule) = lacking;
            return Err(RowDeparture {
                campaign,
                meter,
                rule,
            });
        }
    }
    Ok(())
}

/// The campaign of a head end with this serial number.
fn campaign_of(head: HeadId, serial: u32) -> CampaignId
    requires { 1 ≤ serial }
    ensures value { result ≡ campaign_of head serial }
    ensures opened { IsOpened result }
{
    match CampaignId::new(head, serial) {
        Some(campaign) => campaign,
        None => unreachable!(),
    }
}

/// The meter of the first of these rows that is done and isn't borne out, where the campaign offers its image under this name; and why.
fn first_lacking(
    meters: &[AuditedMeter],
    name: ImageName,
    rows: &[Row],
) -> Option<(MeterId, RowRule)>
    ensures none { IfNone result (All (IsBorneOut meters.now name) rows.now) }
    ensures some { IfSome result (λ found. IsFirstLacking meters.now name rows.now found.0 found.1) }
{
    for row in rows {
        if !is_borne_out(meters, name, *row) {
            let meter = row.meter;
            return Some((meter, lack(meters, meter)));
        }
    }
    None
}

/// Whether a row that is done is of a meter that switched to an image of this name.
fn is_borne_out(meters: &[AuditedMeter], name: ImageName, row: Row) -> bool
    ensures some { IsTrue result → IsBorneOut meters.now name row }
    ensures none { result ≡ false → IsUnborne meters.now name row }
{
    match row.state {
        RowState::Done => has_switched(meters, row.meter, name),
        RowState::Live | RowState::Failed | RowState::Cancelled => true,
    }
}

/// Whether a meter of this number switched to an image of this name.
fn has_switched(meters: &[AuditedMeter], meter: MeterId, name: ImageName) -> bool
    ensures some { IsTrue result → HasSwitched meters.now meter name }
    ensures none { result ≡ false → HasSwitched meters.now meter name → ⊥ }
{
    for at in 0..meters.len() {
        if meters[at].switched_to(meter, name) {
            return true;
        }
    }
    false
}

/// What lacks where a meter of this number didn't switch to an image: the switch, or its log.
fn lack(meters: &[AuditedMeter], meter: MeterId) -> RowRule
    ensures { (name : Name) → (HasSwitched meters.now meter name → ⊥) → Lacks meters.now meter name result }
{
    if is_audited(meters, meter) {
        RowRule::DoneNotActivated
    } else {
        RowRule::NotAudited
    }
}

/// Whether a meter of this number was audited.
fn is_audited(meters: &[AuditedMeter], meter: MeterId) -> bool
    ensures { result ≡ list_any (λ (audited : Audited). audited.meter == meter) meters.now }
{
    meters.iter().any(|audited| audited.number() == meter)
}
