//! Ports that are UDP sockets (RFC 768).

use crate::port::{Arrival, Closed, NoReport, Patience, Port};
use std::io;
use std::io::ErrorKind;
use std::net::{Net, SocketAddr, UdpSocket};
use std::time::Duration;
use thiserror::Error;

/// How long a receive that waits does so, in milliseconds.
const WAIT_LIMIT: u64 = 1_000;

/// A socket that fails so often in a row is closed.
const MAX_FAULTS_IN_A_ROW: u32 = 1_000;

/// A socket can't be made or bound, or doesn't say at which address it is.
#[derive(Clone, Copy, Debug, Error)]
#[error("Socket")]
pub struct SocketError;

impl From<io::Error> for SocketError {
    fn from(_error: io::Error) -> SocketError {
        SocketError
    }
}

/// A UDP socket. Nothing is known of what a network does, so it is not honest. It makes no reports.
#[derive(Drop)]
pub struct UdpPort {
    socket: UdpSocket,
    /// Whether a receive may wait at all.
    may_wait: bool,
    /// Whether the socket waits now.
    waits: bool,
    faults: u64,
    /// How many of the last calls failed.
    in_a_row: u32,
}

impl UdpPort {
    /// A port at this address. A receive that waits does so for a second at most.
    ///
    /// # Errors
    ///
    /// `SocketError` if the system refuses it.
    pub fn bind<N: Net>(net: &N, at: SocketAddr) -> Result<UdpPort, SocketError> {
        UdpPort::bind_for(net, at, WAIT_LIMIT)
    }

    /// A port at this address. A receive that waits does so for this time at most, in milliseconds.
    ///
    /// # Errors
    ///
    /// `SocketError` if the system refuses it, or the time is 0.
    pub fn bind_for<N: Net>(net: &N, at: SocketAddr, limit: u64) -> Result<UdpPort, SocketError> {
        let socket = UdpSocket::bind(net, at)?;
        socket.set_read_timeout(Some(Duration::from_millis(limit)))?;
        Ok(UdpPort {
            socket,
            may_wait: true,
            waits: true,
            faults: 0,
            in_a_row: 0,
        })
    }

    /// A port at this address of which no receive waits: one of many that are gone through in turn.
    ///
    /// # Errors
    ///
    /// `SocketError` if the system refuses it.
    pub fn bind_polling<N: Net>(net: &N, at: SocketAddr) -> Result<UdpPort, SocketError> {
        let socket = UdpSocket::bind(net, at)?;
        socket.set_nonblocking(true)?;
        Ok(UdpPort {
            socket,
            may_wait: false,
            waits: false,
            faults: 0,
            in_a_row: 0,
        })
    }

    /// The address that the port has, with the number that the system picked where it was bound to port 0.
    ///
    /// # Errors
    ///
    /// `SocketError` if the system doesn't say it.
    pub fn address(&self) -> Result<SocketAddr, SocketError> {
        Ok(self.socket.local_addr()?)
    }

    /// Makes the socket wait or not.
    fn turn_to(&mut self, patience: Patience) -> io::Result<()> {
        let waits = self.may_wait && patience == Patience::Waits;
        if waits != self.waits {
            self.socket.set_nonblocking(!waits)?;
            self.waits = waits;
        }
        Ok(())
    }

    /// Counts that the socket failed.
    fn count_fault(&mut self) {
        self.faults = self.faults.saturating_add(1);
        self.in_a_row = self.in_a_row.saturating_add(1);
    }
}

impl Port<NoReport> for UdpPort {
    ghost use Rattle.std.specs.Prelude.{◌≡◌, false, [], ⊤};

    ghost honest = { λ _. false };

    ghost acts = { λ _. [] };

    ghost legal = { λ _ _. ⊤ };

    /// A socket that fails is tried again, as if nothing had come, until it failed 1,000 times in a row. Then it is closed.
    fn receive(
        &mut self,
        patience: Patience,
        buffer: &mut [u8],
    ) -> Result<Option<Arrival>, Closed> {
        if self.in_a_row >= MAX_FAULTS_IN_A_ROW {
            return Err(Closed);
        }
        if self.turn_to(patience).is_err() {
            self.count_fault();
            return Ok(None);
        }
        match self.socket.recv_from(buffer) {
            Ok((count, from)) => {
                self.in_a_row = 0;
                Ok(Some(Arrival { from, count }))
            }
            Err(error) => {
                if is_quiet(&error) {
                    self.in_a_row = 0;
                } else {
                    self.count_fault();
                }
                Ok(None)
            }
        }
    }

    /// How often the socket failed, at a receive or a send.
    fn faults(&self) -> u64
        ensures { result ≡ self.now.faults }
    {
        self.faults
    }

    fn unopened(&self) -> u64
        ensures { result ≡ 0 }
    {
        0
    }

    fn send(&mut self, to: SocketAddr, bytes: &[u8]) {
        if self.socket.send_to(bytes, to).is_err() {
            self.faults = self.faults.saturating_add(1);
        }
    }
}

/// Whether nothing came in time, or a signal cut the receive short.
fn is_quiet(error: &io::Error) -> bool {
    matches!(
        error.kind(),
        ErrorKind::WouldBlock | ErrorKind::TimedOut | ErrorKind::Interrupted
    )
}
