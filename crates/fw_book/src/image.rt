//! The bytes of images, which campaigns share.

ghost use Rattle.std.specs.Prelude.{◌≡◌, IfOk, IfErr};
ghost use Rattle.std.specs.Arc.{arc_value};
ghost use Rattle.sha2.specs.Sha256.{sha256};

use crate::error::BookError;
use fw_names::digest_of;
use std::alloc::Global;
use std::marker::Model;
use std::sync::Arc;

/// An image with its digest, so that it is computed once.
#[derive(Drop)]
pub(crate) struct Image {
    bytes: Vec<u8>,
    digest: [u8; 32],
}

// Contracts see the bytes.
impl Model for Image {
    ghost use Rattle.std.specs.Prelude.{◌≡◌, ℕ, List};
    ghost use Rattle.sha2.specs.Sha256.{sha256};

    ghost Value = { List ℕ };

    ghost view = { λ i. i.bytes.items };

    ghost invariant = { λ i. i.digest ≡ sha256 i.bytes.items };
}

impl Image {
    /// A copy of the bytes, which campaigns can share.
    pub(crate) fn shared(alloc: Global, bytes: &[u8]) -> Result<Arc<Image>, BookError>
        ensures image { IfOk result (λ image. arc_value image ≡ bytes.now) }
        ensures memory { IfErr result (λ e. e ≡ BookError.OutOfMemory) }
    {
        let digest = digest_of(bytes);
        let bytes = Vec::from_slice(alloc, bytes)?;
        Ok(Arc::new(alloc, Image { bytes, digest })?)
    }

    /// The bytes.
    pub(crate) fn bytes(&self) -> &[u8]
        ensures { result.now ≡ self.now }
    {
        self.bytes.as_slice()
    }

    /// Their digest. No byte is read.
    pub(crate) fn digest(&self) -> [u8; 32]
        ensures { result ≡ sha256 self.now }
    {
        self.digest
    }
}
