//! The writing of key files.

ghost use Rattle.std.specs.Prelude.{◌≡◌, ◌++◌, ℕ, IfOk, OnOk, decimal};
ghost use Rattle.std.specs.Net.Text.{socket_text};
ghost use Rattle.fw_keys.specs.KeyFiles.{SpellsHeadKeys, SpellsMeterKeys};
ghost use Rattle.fw_keys.specs.Links.{AreLinks};
ghost use Rattle.fw_keys.specs.Private.{AreWritten};
ghost use Rattle.fw_keys.specs.Titles.{head_title};
ghost use Rattle.fw_keys.specs.Writing.{AreShown, links_text, title_line};

use crate::file::KeyFile;
use crate::line::{put_digits, put_link};
use crate::names::EndName;
use fw_names::MeterId;
use std::alloc::{AllocError, Global};
use std::net::SocketAddr;

/// The text of a head end's key file.
///
/// # Errors
///
/// `AllocError` if memory was refused.
pub fn head_text(alloc: Global, file: &KeyFile<MeterId>) -> Result<Vec<u8>, AllocError>
    ensures lines { IfOk result (λ v. v.items ≡ links_text decimal file.now.entries) }
    ensures spells { (head : ℕ) → file.now.own ≡ head_title head → IfOk result (λ v. SpellsHeadKeys v.items head file.now) }
{
    let mut text = Vec::new(alloc);
    put_links(alloc, &mut text, file)?;
    Ok(text)
}

/// The text of a meter's key file. Flow information of an address of IPv6 isn't written.
///
/// # Errors
///
/// `AllocError` if memory was refused.
pub fn meter_text(alloc: Global, file: &KeyFile<SocketAddr>) -> Result<Vec<u8>, AllocError>
    ensures lines { IfOk result (λ v. v.items ≡ title_line file.now.own ++ links_text socket_text file.now.entries) }
    ensures spells { AreShown file.now.entries → IfOk result (λ v. SpellsMeterKeys v.items file.now) }
{
    let mut text = Vec::new(alloc);
    let own = file.title();
    put_digits(alloc, &mut text, &own)?;
    text.push(b'\n')?;
    put_links(alloc, &mut text, file)?;
    Ok(text)
}

/// Appends the lines of the links.
fn put_links<N: EndName>(
    alloc: Global,
    out: &mut Vec<u8>,
    file: &KeyFile<N>,
) -> Result<(), AllocError>
    ensures lines { OnOk result (out.new.items ≡ out.old.items ++ links_text N.spelling file.now.entries) }
    ensures links { OnOk result (AreLinks file.now.own file.now.entries) }
    ensures written { OnOk result (AreWritten N.names N.spelling N.shown file.now.entries) }
{
    let entries = file.entries();
    for entry in entries {
        let name = entry.end.to_text(alloc)?;
        put_link(alloc, out, name.as_bytes(), &entry.keys)?;
    }
    Ok(())
}
