//! The values of options that name meters.

use super::WrongValue;
use fw_names::MeterId;
use fw_plan::MeterRange;

/// Appends the meters that the value of an option names: numbers and ranges of them, as `7,9-12`.
pub(super) fn push_meters<'a>(
    named: &mut Vec<MeterRange>,
    option: &'static str,
    text: &'a str,
) -> Result<(), WrongValue<'a>> {
    for part in text.split(',') {
        match range(part) {
            Some(range) => named.push(range)?,
            None => return Err(WrongValue::NoMeters { option, text }),
        }
    }
    Ok(())
}

/// The meter, or the range of them, that a part of such a value names.
fn range(text: &str) -> Option<MeterRange> {
    match text.split_once('-') {
        Some((first, last)) => {
            let (first, last) = (meter(first)?, meter(last)?);
            if first.number() <= last.number() {
                Some(MeterRange::Span(first, last))
            } else {
                None
            }
        }
        None => Some(MeterRange::One(meter(text)?)),
    }
}

/// The meter of the number that a text is.
fn meter(text: &str) -> Option<MeterId> {
    match text.parse::<u32>() {
        Ok(number) => MeterId::new(number),
        Err(_) => None,
    }
}
