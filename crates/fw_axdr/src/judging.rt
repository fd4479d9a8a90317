//! Judging whether a value has a spelling, before it is written.

ghost use Rattle.std.specs.Prelude.{◌≡◌, ◌^◌, None, IfSome};
ghost use Rattle.fw_axdr.specs.Value.{count};
ghost use Rattle.fw_axdr.specs.View.{value_of, values_of};
ghost use Rattle.fw_axdr.specs.Spelling.{max_depth};
ghost use Rattle.fw_axdr.specs.Fault.{IfMemory, unwritable, first_unwritable, counted};

use crate::data::{Data, Items, MAX_DEPTH};
use crate::error::AxdrError;

/// Why a value has no spelling: `BadLength` or `TooDeep`, for the first part, in the order of
/// writing, that can't be written.
pub fn unwritable(value: &Data) -> Option<AxdrError>
    ensures exact { result ≡ unwritable (value_of value.now) max_depth }
    ensures fault { IfSome result (λ e. IfMemory e ⊥) }
{
    unwritable_data(MAX_DEPTH, value)
}

/// The same of a Data for which `levels` levels are left.
#[cycle(judging)]
fn unwritable_data(levels: u8, value: &Data) -> Option<AxdrError>
    ensures { result ≡ unwritable (value_of value.now) levels }
{
    if levels == 0 {
        return Some(AxdrError::TooDeep);
    }
    match value {
        Data::Array(items) => unwritable_items(levels - 1, items),
        Data::Structure(items) => unwritable_items(levels - 1, items),
        Data::BitString(bits) => unwritable_length(bits.len()),
        Data::OctetString(o) => unwritable_length(o.len()),
        Data::VisibleString(o) => unwritable_length(o.len()),
        Data::Null
        | Data::Boolean(_)
        | Data::DoubleLong(_)
        | Data::DoubleLongUnsigned(_)
        | Data::Integer(_)
        | Data::Long(_)
        | Data::Unsigned(_)
        | Data::LongUnsigned(_)
        | Data::Long64(_)
        | Data::Long64Unsigned(_)
        | Data::Enumerated(_) => None,
    }
}

/// The same of the elements of an array or a structure, and of how many there are.
#[cycle(judging)]
fn unwritable_items(levels: u8, items: &Items) -> Option<AxdrError>
    ensures { result ≡ counted (count items.now) (first_unwritable items.now levels) }
{
    match unwritable_length(items.len()) {
        Some(fault) => Some(fault),
        None => first_unwritable(levels, items.as_slice()),
    }
}

/// The same of one element after another.
#[cycle(judging)]
fn first_unwritable(levels: u8, items: &[Data]) -> Option<AxdrError>
    ensures { result ≡ first_unwritable (values_of items.now) levels }
{
    for item in items {
        match unwritable_data(levels, item) {
            Some(fault) => return Some(fault),
            None => {}
        }
    }
    None
}

/// The same of a length.
fn unwritable_length(len: usize) -> Option<AxdrError>
    ensures { result ≡ counted len None }
{
    match u32::try_from(len) {
        Ok(_) => None,
        Err(_) => Some(AxdrError::BadLength),
    }
}
