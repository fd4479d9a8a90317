//! The images that a meter switched to.

ghost use Rattle.std.specs.Prelude.{◌≡◌, IfOk};

use fw_names::ImageName;
use std::alloc::{AllocError, Global};
use std::marker::Model;
use std::sync::Arc;

/// An image that a meter switched to, with the bytes that ran. Where a log is followed in two ways, both share them.
#[derive(Drop)]
pub struct Switched {
    name: ImageName,
    bytes: Arc<Vec<u8>>,
}

impl Model for Switched {
    ghost use Rattle.std.specs.Arc.{arc_value};
    ghost use Rattle.fw_image.specs.Meter.{Image};

    ghost Value = { Image };

    ghost view = { λ s. record { name = s.name; bytes = (arc_value s.bytes).items } };
}

impl Switched {
    ghost use Rattle.fw_image.specs.Meter.{Image};

    /// An image of this name, with these bytes.
    pub fn new(alloc: Global, name: ImageName, bytes: Vec<u8>) -> Result<Switched, AllocError>
        ensures { IfOk result (λ image. image ≡ record { name = name; bytes = bytes.items }) }
    {
        let bytes = Arc::new(alloc, bytes)?;
        Ok(Switched { name, bytes })
    }

    /// The name under which it ran.
    pub fn name(&self) -> ImageName
        ensures { result ≡ self.now.name }
    {
        self.name
    }

    /// The bytes that ran.
    pub fn bytes(&self) -> &[u8]
        ensures { result.now ≡ self.now.bytes }
    {
        self.bytes.as_slice()
    }

    /// The same image, with the same bytes in memory.
    fn share(&self) -> Result<Switched, AllocError>
        ensures { IfOk result (λ image. image ≡ self.now) }
    {
        let bytes = Arc::try_clone(&self.bytes)?;
        Ok(Switched {
            name: self.name,
            bytes,
        })
    }
}

/// The same images. Their bytes are shared.
pub(crate) fn shared(alloc: Global, images: &[Switched]) -> Result<Vec<Switched>, AllocError>
    ensures { IfOk result (λ all. all.items ≡ images.now) }
{
    let mut all = Vec::with_capacity(alloc, images.len())?;
    for image in images {
        all.push(image.share()?)?;
    }
    Ok(all)
}
