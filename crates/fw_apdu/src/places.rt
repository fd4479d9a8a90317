//! Places that requests and responses have in common: the Data in them, and what ends them.

ghost use Rattle.std.specs.Prelude.{◌≡◌, [], None, IfOk, IfErr, OnOk};
ghost use Rattle.fw_axdr.specs.Spelling.{IsData, max_depth};
ghost use Rattle.fw_axdr.specs.View.{value_of};
ghost use Rattle.fw_axdr.specs.Fault.{unwritable};
ghost use Rattle.fw_axdr.specs.Memory.{MayTakeMemory};
ghost use Rattle.fw_apdu.specs.Fault.{DataFails, EndFails, IfFault, IfMemory, IsBadData};

use crate::error::ApduError;
use fw_axdr::reader::end;
use fw_axdr::{Data, read, unwritable};
use std::alloc::Global;

/// The Data that the bytes are, all of them.
pub(crate) fn data_at(alloc: Global, bytes: &[u8]) -> Result<Data, ApduError>
    ensures found { IfOk result (λ found. IsData max_depth bytes.now (value_of found)) }
    ensures fault { IfErr result (λ e. IfFault e (DataFails bytes.now e)) }
    ensures memory { IfErr result (λ e. IfMemory e (MayTakeMemory max_depth bytes.now)) }
{
    let (value, used) = read(alloc, bytes)?;
    end_at(&bytes[used..])?;
    Ok(value)
}

/// Nothing stands here.
pub(crate) fn end_at(bytes: &[u8]) -> Result<(), ApduError>
    ensures found { OnOk result (bytes.now ≡ []) }
    ensures fault { IfErr result (λ e. EndFails bytes.now e) }
    ensures memory { IfErr result (λ e. IfMemory e ⊥) }
{
    Ok(end(bytes)?)
}

/// The value has a spelling. That is judged before memory is taken.
pub(crate) fn judge(value: &Data) -> Result<(), ApduError>
    ensures fits { OnOk result (unwritable (value_of value.now) max_depth ≡ None) }
    ensures refused { IfErr result (λ e. IsBadData (unwritable (value_of value.now) max_depth) e) }
    ensures memory { IfErr result (λ e. IfMemory e ⊥) }
{
    match unwritable(value) {
        None => Ok(()),
        Some(fault) => Err(ApduError::BadData(fault)),
    }
}
