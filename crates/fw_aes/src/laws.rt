//! The law of GCM, over the definitions alone.

ghost use Rattle.fw_aes.specs.Laws.{OpensWhatWasSealed};

/// To open what was sealed gives the plaintext back.
pub fn opens_what_was_sealed()
    ensures { OpensWhatWasSealed }
{}
