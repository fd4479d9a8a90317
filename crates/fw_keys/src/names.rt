//! The names that other ends have in key files.

ghost use Rattle.std.specs.Prelude.{◌≡◌, ◌↔◌, List, ℕ, IfOk, IsTrue, MatchOption, string_bytes, decimal};
ghost use Rattle.std.specs.Net.Grammar.{IsSocketText};
ghost use Rattle.std.specs.Net.Socket.{IsSocketAddr, socket_flowinfo};
ghost use Rattle.std.specs.Net.Text.{socket_text};
ghost use Rattle.fw_keys.specs.KeyFiles.{NamesMeter};
ghost use Rattle.fw_keys.specs.Writing.{ReadsBack};

use fw_names::MeterId;
use fw_text::words::number_of;
use std::alloc::{AllocError, Global};
use std::net::SocketAddr;

/// The name of another end: the number of a meter, or the address of a head end.
pub trait EndName: Sized + Drop {
    /// Whether a text names this end.
    ghost names: { List ℕ → Self → Type 0 };

    /// The text that is written of it.
    ghost spelling: { Self → List ℕ };

    /// Whether that text says all of it.
    ghost shown: { Self → Type 0 };

    /// The end that a text names.
    fn read(text: &[u8]) -> Option<Self>
        ensures { MatchOption result ((name : Self) → ¬ names text.now name) (λ name. names text.now name) };

    /// Whether it is the name of the same end.
    fn is(&self, other: &Self) -> bool
        ensures { IsTrue result ↔ (self.now ≡ other.now) };

    /// The name as text.
    ///
    /// # Errors
    ///
    /// `AllocError` if memory was refused.
    fn to_text(&self, alloc: Global) -> Result<String, AllocError>
        ensures text { IfOk result (λ text. string_bytes text ≡ spelling self.now) }
        ensures back { shown self.now → ReadsBack names (spelling self.now) self.now };
}

impl EndName for MeterId {
    ghost names = { NamesMeter };

    ghost spelling = { decimal };

    ghost shown = { λ _. Unit {0} };

    fn read(text: &[u8]) -> Option<MeterId> {
        MeterId::new(number_of(text)?)
    }

    fn is(&self, other: &MeterId) -> bool {
        self.number() == other.number()
    }

    fn to_text(&self, alloc: Global) -> Result<String, AllocError> {
        let number = self.number();
        format!(in alloc; "{number}")
    }
}

impl EndName for SocketAddr {
    ghost names = { IsSocketText };

    ghost spelling = { socket_text };

    ghost shown = { λ address. socket_flowinfo address ≡ 0 };

    fn read(text: &[u8]) -> Option<SocketAddr> {
        SocketAddr::parse_ascii(text).ok()
    }

    fn is(&self, other: &SocketAddr) -> bool {
        *self == *other
    }

    fn to_text(&self, alloc: Global) -> Result<String, AllocError> {
        fields_fit(self);
        let address = *self;
        format!(in alloc; "{address}")
    }
}

/// The fields of an address are in range. It is called for its clause alone: nothing is done.
fn fields_fit(address: &SocketAddr)
    ensures { IsSocketAddr address.now }
{
    match address {
        SocketAddr::V4(address) => {
            let _octets = address.ip().octets();
            let _port = address.port();
        }
        SocketAddr::V6(address) => {
            let _segments = address.ip().segments();
            let _port = address.port();
            let _scope = address.scope_id();
        }
    }
}
