//! Laws of sealings, over the definitions alone.

ghost use Rattle.fw_seal.specs.Laws.{OneSealing, ShortIsSealing};

/// Bytes are the sealing of at most one APDU by an end, with one counter.
pub fn one_sealing()
    ensures { OneSealing }
{
    fw_aes::laws::opens_what_was_sealed();
}

/// What is sealed with the shortest length is a sealing, so the other end opens it.
pub fn short_is_sealing()
    ensures { ShortIsSealing }
{}
