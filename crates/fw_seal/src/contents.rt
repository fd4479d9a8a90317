//! Contents of sealings, made and deciphered under the keys of a link.

ghost use Rattle.std.specs.Prelude.{◌≡◌, ◌≢◌, ◌+◌, ◌<◌, ◌≤◌, ◌^◌, length, IfOk, MatchOption};
ghost use Rattle.fw_aes.specs.Gcm.{plaintext_of, tag_of};
ghost use Rattle.fw_seal.specs.Refusal.{max_apdu};
ghost use Rattle.fw_seal.specs.Sealing.{aad_of, content_of, iv_of};

use crate::frames::{Parts, SECURITY_CONTROL};
use crate::link::TITLE_SIZE;
use fw_aes::{Key, TAG_SIZE};
use std::alloc::{AllocError, Global};

/// How many bytes a content has beside its ciphertext: the security control byte, the invocation counter, and the authentication tag.
pub(crate) const OVERHEAD: usize = 5 + TAG_SIZE;

/// The keys of a link, which both of its ends have.
#[derive(Drop)]
pub(crate) struct Keys {
    pub(crate) encryption: Key,
    pub(crate) authentication: [u8; 16],
}

/// The initialization vector of what the end with this title seals with this counter.
fn iv(title: &[u8; TITLE_SIZE], counter: u32) -> [u8; 12]
    ensures { result ≡ iv_of title.now counter }
{
    let mut iv = [0u8; 12];
    iv[..TITLE_SIZE].copy_from_slice(title);
    iv[TITLE_SIZE..].copy_from_slice(&counter.to_be_bytes());
    iv
}

/// The additional data under an authentication key.
fn aad(authentication: &[u8; 16]) -> [u8; 17]
    ensures { result ≡ aad_of authentication.now }
{
    let mut aad = [SECURITY_CONTROL; 17];
    aad[1..].copy_from_slice(authentication);
    aad
}

impl Keys {
    /// The content of the sealings of an APDU by the end with this title, with this counter.
    pub(crate) fn content(
        &self,
        alloc: Global,
        title: &[u8; TITLE_SIZE],
        counter: u32,
        apdu: &[u8],
    ) -> Result<Vec<u8>, AllocError>
        requires { length apdu.now ≤ max_apdu }
        ensures content { IfOk result (λ v. v.items ≡ content_of
            (record { encryption = self.now.encryption; authentication = self.now.authentication }) title.now counter apdu.now) }
        ensures len { IfOk result (λ v. length v.items ≡ 17 + length apdu.now) }
    {
        let mut text = Vec::from_slice(alloc, apdu)?;
        let mac = self.encryption.seal(
            &iv(title, counter),
            &aad(&self.authentication),
            text.as_mut_slice(),
        );
        let mut content = Vec::with_capacity(alloc, OVERHEAD + apdu.len())?;
        content.push(SECURITY_CONTROL)?;
        content.extend_from_slice(&counter.to_be_bytes())?;
        content.extend_from_slice(text.as_slice())?;
        content.extend_from_slice(&mac)?;
        Ok(content)
    }

    /// The plaintext of a content by the end with this title, if its tag is right.
    pub(crate) fn plaintext(
        &self,
        alloc: Global,
        title: &[u8; TITLE_SIZE],
        parts: Parts<'_>,
    ) -> Result<Option<Vec<u8>>, AllocError>
        requires { length parts.text.now < 2 ^ 32 }
        ensures { IfOk result (λ found. let iv = iv_of title.now parts.entry.counter in
            let tag = tag_of self.now.encryption iv (aad_of self.now.authentication) parts.entry.text.now in
            MatchOption found (parts.entry.mac.now ≢ tag) (λ v.
            (parts.entry.mac.now ≡ tag) × (v.items ≡ plaintext_of self.now.encryption iv parts.entry.text.now))) }
    {
        let mut text = Vec::from_slice(alloc, parts.text)?;
        let opened = self.encryption.open(
            &iv(title, parts.counter),
            &aad(&self.authentication),
            text.as_mut_slice(),
            parts.mac,
        );
        match opened {
            Ok(()) => Ok(Some(text)),
            Err(_) => Ok(None),
        }
    }
}
