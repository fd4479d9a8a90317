//! How the parts of a book are written.

ghost use Rattle.std.specs.Prelude.{◌≡◌, ◌≤◌, ◌++◌, length, OnOk, IfErr};
ghost use Rattle.fw_blocks.specs.Cuts.{max_image};
ghost use Rattle.fw_book.specs.Contents.{IsEntry, max_meters};
ghost use Rattle.fw_book.specs.Format.{
  row_bytes,
  rows_bytes,
  counted_bytes,
  image_bytes,
  numbers_bytes,
  entry_bytes,
  head_bytes,
};
ghost use Rattle.fw_book.specs.declared.version.Version.TheVariants.{Second};

use crate::error::BookError;
use crate::offer::Offer;
use crate::row::Row;
use fw_names::HeadId;

/// The bytes that every book begins with: the form, version 2.
const FORM: [u8; 4] = *b"FWB2";

/// Appends the form and the head end's number.
pub(crate) fn write_head(bytes: &mut Vec<u8>, head: HeadId) -> Result<(), BookError>
    ensures ok { OnOk result (bytes.new.items ≡ bytes.old.items ++ head_bytes Second head) }
    ensures memory { IfErr result (λ e. e ≡ BookError.OutOfMemory) }
{
    bytes.extend_from_slice(&FORM)?;
    bytes.extend_from_slice(&head.number().to_be_bytes())?;
    Ok(())
}

/// Appends a row.
fn write_row(bytes: &mut Vec<u8>, row: &Row) -> Result<(), BookError>
    ensures ok { OnOk result (bytes.new.items ≡ bytes.old.items ++ row_bytes row.now) }
    ensures memory { IfErr result (λ e. e ≡ BookError.OutOfMemory) }
{
    bytes.extend_from_slice(&row.meter.number().to_be_bytes())?;
    bytes.push(row.state.number())?;
    Ok(())
}

/// Appends rows.
fn write_rows(bytes: &mut Vec<u8>, rows: &[Row]) -> Result<(), BookError>
    ensures ok { OnOk result (bytes.new.items ≡ bytes.old.items ++ rows_bytes rows.now) }
    ensures memory { IfErr result (λ e. e ≡ BookError.OutOfMemory) }
{
    for row in rows {
        write_row(bytes, row)?;
    }
    Ok(())
}

/// Appends the number of rows, and then the rows.
fn write_counted(bytes: &mut Vec<u8>, rows: &[Row]) -> Result<(), BookError>
    requires { length rows.now ≤ max_meters }
    ensures ok { OnOk result (bytes.new.items ≡ bytes.old.items ++ counted_bytes rows.now) }
    ensures memory { IfErr result (λ e. e ≡ BookError.OutOfMemory) }
{
    bytes.extend_from_slice(&(rows.len() as u16).to_be_bytes())?;
    write_rows(bytes, rows)
}

/// Appends the size of an image, and then the image.
fn write_image(bytes: &mut Vec<u8>, image: &[u8]) -> Result<(), BookError>
    requires { length image.now ≤ max_image }
    ensures ok { OnOk result (bytes.new.items ≡ bytes.old.items ++ image_bytes image.now) }
    ensures memory { IfErr result (λ e. e ≡ BookError.OutOfMemory) }
{
    bytes.extend_from_slice(&(image.len() as u32).to_be_bytes())?;
    bytes.extend_from_slice(image)?;
    Ok(())
}

/// Appends a campaign's serial number and release.
fn write_numbers(bytes: &mut Vec<u8>, serial: u32, release: u32) -> Result<(), BookError>
    ensures ok { OnOk result (bytes.new.items ≡ bytes.old.items ++ numbers_bytes Second serial release) }
    ensures memory { IfErr result (λ e. e ≡ BookError.OutOfMemory) }
{
    bytes.extend_from_slice(&serial.to_be_bytes())?;
    bytes.extend_from_slice(&release.to_be_bytes())?;
    Ok(())
}

/// Appends a campaign.
pub(crate) fn write_entry(bytes: &mut Vec<u8>, serial: u32, offer: &Offer) -> Result<(), BookError>
    requires { IsEntry (serial, offer.now) }
    ensures ok { OnOk result (bytes.new.items ≡ bytes.old.items ++ entry_bytes Second (serial, offer.now)) }
    ensures memory { IfErr result (λ e. e ≡ BookError.OutOfMemory) }
{
    write_numbers(bytes, serial, offer.release())?;
    write_image(bytes, offer.image())?;
    write_counted(bytes, offer.rows())
}
