//! A capture of an end whose links are sealed, read as its log in plain words.

ghost use Rattle.std.specs.Prelude.{◌≡◌, IfErr, IfOk, length};
ghost use Rattle.fw_audit.specs.Log.{log_of};
ghost use Rattle.fw_evidence.specs.Private.{IsOpened, IsUnopened, refusal_at};
ghost use Rattle.fw_evidence.specs.Sealed.{HasItems, IsNoSealedLog, IsSealedLogOf, items_in, marks_in};

use crate::error::{LogError, Mark};
use crate::log::read_log;
use crate::opened::OpenedLog;
use crate::site::Site;
use crate::unsealing::{EndKeys, Opening};
use fw_audit::LogItem;
use fw_sealport::Unopened;
use std::alloc::Global;
use std::fmt;
use thiserror::Error;

/// Why a capture is no log of an end whose links are sealed.
#[derive(Clone, Copy, Debug, Error)]
pub enum SealedLogError {
    /// It is no log of the end, as it stands.
    NoLog(LogError),
    /// The datagram of this record was sent, and the end didn't seal it under the link of where it goes: there is none, it is no sealing, or its
    /// counter isn't above those of what the end sent there before.
    Unsealed(Mark, Unopened),
    /// Memory was refused to open a log.
    OutOfMemory,
}

impl fmt::Display for SealedLogError {
    fn fmt<W: fmt::Write>(&self, f: &mut fmt::Formatter<W>) -> fmt::Result {
        fmt::Debug::fmt(self, f)
    }
}

/// The log of the end at this site in plain words, if all records of this capture are of its process, and it sealed what was sent: each start and
/// each turn, what its port let through of what came under the links of these keys, and what was sent. What the port passed over says nothing
/// in it: what came from an address without a link, or opens under no link of there, or has a counter that isn't new. A start has the links
/// anew, so it takes whatever opens first.
///
/// # Errors
///
/// - `NoLog`: the capture is no log of the end, whatever is sealed.
/// - `Unsealed`: the first datagram that was sent and isn't sealed so.
/// - `OutOfMemory`.
pub fn read_sealed_log<K: EndKeys>(
    alloc: Global,
    site: Site<'_>,
    keys: &K,
    capture: &[u8],
) -> Result<OpenedLog, SealedLogError>
    ensures log { IfOk result (λ log. IsSealedLogOf (K.hears keys.now) (K.seals keys.now) site.entry capture.now (items_in log) (marks_in log)) }
    ensures count { IfOk result (λ log. HasItems site.entry capture.now log.count) }
    ensures none { IfErr result (λ error. IsNoSealedLog (K.hears keys.now) (K.seals keys.now) site.entry capture.now error) }
{
    match read_log(alloc, site, capture) {
        Ok(wire) => open_log(alloc, keys, &wire.items, &wire.marks),
        Err(error) => Err(SealedLogError::NoLog(error)),
    }
}

/// What these items say in plain words, each of which has its mark.
fn open_log<K: EndKeys>(
    alloc: Global,
    keys: &K,
    wire: &[LogItem<'_>],
    marks: &[Mark],
) -> Result<OpenedLog, SealedLogError>
    requires { length marks.now ≡ length wire.now }
    ensures opened { IfOk result (λ log. IsOpened (K.hears keys.now) (K.seals keys.now) (log_of wire.now) marks.now log) }
    ensures count { IfOk result (λ log. log.count ≡ length wire.now) }
    ensures refused { IfErr result (λ error. IsUnopened (K.hears keys.now) (K.seals keys.now) (log_of wire.now) marks.now error) }
{
    let mut opening = match Opening::new(alloc, keys) {
        Ok(opening) => opening,
        Err(_) => return Err(SealedLogError::OutOfMemory),
    };
    let mut log = OpenedLog::new(alloc, wire.len());
    for at in 0..wire.len() {
        let said = match opening.read(alloc, keys, &wire[at]) {
            Ok(said) => said,
            Err(why) => return Err(refusal_at(marks[at], why)),
        };
        match log.add(marks[at], said) {
            Ok(()) => {}
            Err(_) => return Err(SealedLogError::OutOfMemory),
        }
    }
    Ok(log)
}

/// Why the item of this mark doesn't open.
fn refusal_at(mark: Mark, why: Unopened) -> SealedLogError
    ensures { result ≡ refusal_at mark why }
{
    match why {
        Unopened::OutOfMemory => SealedLogError::OutOfMemory,
        Unopened::Stranger | Unopened::NotSealed | Unopened::Repeated => {
            SealedLogError::Unsealed(mark, why)
        }
    }
}
