//! What a fault of an audit is about, and why it came.

ghost use Rattle.std.specs.Prelude.{◌≡◌, Some};
ghost use Rattle.std.specs.Option.{option_map};
ghost use Rattle.dlmsfw.specs.AuditPlaces.{audit_place_of, audit_place_text, audit_refusal_of};

use crate::refusal;
use crate::refusal::Refusal;
use fw_auditor::{AuditFault, Unaudited};
use std::fmt;

/// What a fault of an audit is about.
#[derive(Clone, Copy)]
pub(crate) enum AuditPlace<'a> {
    /// The list of what is audited.
    List(&'a str),
    /// A file of a meter or of a head end.
    File(&'a str),
}

impl fmt::Display for AuditPlace<'_> {
    ghost output = { λ place. Some (audit_place_text place) };

    fn fmt<W: fmt::Write>(&self, f: &mut fmt::Formatter<W>) -> fmt::Result {
        match self {
            AuditPlace::List(file) => write!(f, "--audited {file}"),
            AuditPlace::File(file) => write!(f, "{file}"),
        }
    }
}

/// What a fault of an audit is about, if it is one of its files. This is the list.
pub(crate) fn place_of<'a>(ended: &'a AuditFault, audited: &'a str) -> Option<AuditPlace<'a>>
    ensures { option_map audit_place_text result ≡ audit_place_of ended.now audited.now }
{
    match ended.fault {
        Unaudited::ListFault | Unaudited::BadList(_, _) => Some(AuditPlace::List(audited)),
        _ => match &ended.file {
            Some(file) => Some(AuditPlace::File(file.as_str())),
            None => None,
        },
    }
}

/// Why an audit ended early, if that is known: what is wrong with the line of its list, or why a file can't be read.
pub(crate) fn refusal_of(ended: &AuditFault) -> Option<Refusal>
    ensures { result ≡ audit_refusal_of ended.now }
{
    match ended.fault {
        Unaudited::BadList(_, why) => Some(Refusal::Line(why)),
        _ => refusal::of_reason(ended.reason),
    }
}
