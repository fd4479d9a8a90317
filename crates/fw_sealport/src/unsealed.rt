//! Why a datagram isn't sent.

ghost use Rattle.std.specs.Prelude.{◌≡◌};
ghost use Rattle.fw_sealport.specs.Counts.{sealing_refusal, wrapping_refusal};
ghost use Rattle.fw_sealport.specs.declared.unsealed.Unsealed.TheVariants.{Counter};

use fw_counter::CounterError;
use fw_seal::SealError;
use fw_wrapper::WrapError;

/// Why a datagram isn't sent. If several would apply, `Stranger` comes first, and any of the others.
#[derive(Clone, Copy, Debug)]
pub enum Unsealed {
    /// There is no link with the address that it goes to.
    Stranger,
    /// It carries no APDU from and to wPort 1 that is sealed, or one whose sealing is too long for a datagram.
    NotPlain,
    /// No counter was given.
    Counter(CounterError),
    /// Memory was refused.
    OutOfMemory,
}

impl From<CounterError> for Unsealed {
    ghost from_gives = { λ error e. e ≡ Counter error };

    fn from(error: CounterError) -> Unsealed {
        Unsealed::Counter(error)
    }
}

impl From<SealError> for Unsealed {
    ghost from_gives = { λ error e. e ≡ sealing_refusal error };

    fn from(error: SealError) -> Unsealed {
        match error {
            SealError::UnknownService | SealError::TooLong | SealError::CounterSpent => {
                Unsealed::NotPlain
            }
            SealError::OutOfMemory => Unsealed::OutOfMemory,
        }
    }
}

impl From<WrapError> for Unsealed {
    ghost from_gives = { λ error e. e ≡ wrapping_refusal error };

    fn from(error: WrapError) -> Unsealed {
        match error {
            WrapError::Short | WrapError::Version | WrapError::Length | WrapError::TooLong => {
                Unsealed::NotPlain
            }
            WrapError::OutOfMemory => Unsealed::OutOfMemory,
        }
    }
}
