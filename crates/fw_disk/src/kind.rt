//! Which files are ours while they are made.

ghost use Rattle.std.specs.Prelude.{◌≡◌, ◌≤◌, ◌↔◌, ℕ, List, IsTrue, length, take};

/// How many of a file's first bytes a kind is told by.
pub const FRONT_SIZE: usize = 16;

/// What a cut making leaves of a file, told from its first bytes and its length. Such a file is ours, and its bytes may be taken away.
pub trait Kind {
    /// Whether bytes are ours.
    ghost ours: { Self → List ℕ → Type 0 };

    /// How many bytes of a file are written and synced before all others. The file is ours from then on by these.
    ghost first: { Self → ℕ };

    /// Whether a file with these first bytes, 16 or all that it has, and this length is ours.
    fn is_ours(&self, front: &[u8], len: u64) -> bool
        ensures { (bytes : List ℕ) → front.now ≡ take 16 bytes → len ≡ length bytes → (IsTrue result ↔ ours self.now bytes) };

    /// How many bytes are written and synced first.
    fn first(&self) -> usize
        ensures { result ≡ first self.now };

    /// Any bytes, no more than these, are ours: a cut first write may leave them.
    ghost small: { (kind : Self) (bytes : List ℕ) → length bytes ≤ first kind → ours kind bytes };

    /// The first bytes of what is ours are ours: a cut emptying may leave them.
    ghost fronts: { (kind : Self) (count : ℕ) (bytes : List ℕ) → ours kind bytes → ours kind (take count bytes) };
}
