//! Where random bytes come from.

ghost use Rattle.std.specs.Prelude.{List, ℕ, IfSome};

use fw_keys::RANDOM_SIZE;
use std::random::RandomSource;

/// A source of random bytes.
pub trait Randomness {
    /// Whether it gave these bytes.
    ghost gave: { Self → List ℕ → Type 0 };

    /// As many bytes as the keys of a link take. They are secret, and it never gives them again. None if it has no more.
    fn give(&self) -> Option<[u8; RANDOM_SIZE]>
        ensures { IfSome result (gave self.now) };
}

/// The system's randomness.
#[derive(Drop)]
pub struct SystemRandomness<'a, R> {
    rt: &'a R,
}

impl<'a, R: RandomSource> SystemRandomness<'a, R> {
    /// That of this system.
    pub fn of(rt: &'a R) -> SystemRandomness<'a, R> {
        SystemRandomness { rt }
    }
}

// Nothing is known of what the system gives.
impl<'a, R: RandomSource> Randomness for SystemRandomness<'a, R> {
    ghost gave = { λ _ _. Unit {0} };

    fn give(&self) -> Option<[u8; RANDOM_SIZE]> {
        let mut bytes = [0; RANDOM_SIZE];
        match self.rt.fill_bytes(&mut bytes) {
            Ok(()) => Some(bytes),
            Err(_) => None,
        }
    }
}
