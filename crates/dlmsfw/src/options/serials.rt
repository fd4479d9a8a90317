//! The values of options that name campaigns.

use super::WrongValue;
use fw_plan::SerialRange;
use std::alloc::Global;

/// The campaigns that the value of an option names: serial numbers and ranges of them, as `7,9-12`.
pub(super) fn campaigns<'a>(
    alloc: Global,
    option: &'static str,
    text: &'a str,
) -> Result<Vec<SerialRange>, WrongValue<'a>> {
    let mut named = Vec::new(alloc);
    push_campaigns(&mut named, option, text)?;
    Ok(named)
}

/// Appends the campaigns that the value of an option names.
pub(super) fn push_campaigns<'a>(
    named: &mut Vec<SerialRange>,
    option: &'static str,
    text: &'a str,
) -> Result<(), WrongValue<'a>> {
    for part in text.split(',') {
        match range(part) {
            Some(range) => named.push(range)?,
            None => return Err(WrongValue::NoCampaigns { option, text }),
        }
    }
    Ok(())
}

/// The campaign, or the range of them, that a part of such a value names.
fn range(text: &str) -> Option<SerialRange> {
    match text.split_once('-') {
        Some((first, last)) => {
            let (first, last) = (serial(first)?, serial(last)?);
            if first <= last {
                Some(SerialRange::Span(first, last))
            } else {
                None
            }
        }
        None => Some(SerialRange::One(serial(text)?)),
    }
}

/// The serial number that a text is.
fn serial(text: &str) -> Option<u32> {
    match text.parse::<u32>() {
        Ok(serial) if serial > 0 => Some(serial),
        _ => None,
    }
}
