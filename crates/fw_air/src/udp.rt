//! Wires of UDP sockets (RFC 768) on the loopback address.

ghost use Rattle.std.specs.Prelude.{◌≡◌, ◌≤◌, length, IfOk, IfSome};
ghost use Rattle.fw_air.specs.declared.udp.PairError.TheVariants as refused;

use crate::wire::{Wire, WireFault};
use std::alloc::{AllocError, AllocFailed, Global};
use std::io::ErrorKind;
use std::net::{Ipv4Addr, Net, UdpSocket};
use std::sync::Arc;
use std::sync::atomic::{AtomicU64, Ordering};
use std::time::Duration;
use std::{fmt, io};
use thiserror::Error;

/// How long a receive waits for a datagram, in milliseconds.
const RECEIVE_LIMIT: u64 = 5;

/// Why there is no wire of UDP sockets.
#[derive(Clone, Copy, Debug, Error)]
pub enum PairError {
    /// A socket can't be made, bound or joined to the other.
    Socket,
    /// Memory was refused.
    OutOfMemory,
}

impl fmt::Display for PairError {
    fn fmt<W: fmt::Write>(&self, f: &mut fmt::Formatter<W>) -> fmt::Result {
        fmt::Debug::fmt(self, f)
    }
}

impl From<io::Error> for PairError {
    ghost from_gives = { λ _ e. e ≡ refused.Socket };

    fn from(_error: io::Error) -> PairError {
        PairError::Socket
    }
}

impl From<AllocError> for PairError {
    ghost from_gives = { λ _ e. e ≡ refused.OutOfMemory };

    fn from(_error: AllocError) -> PairError {
        PairError::OutOfMemory
    }
}

impl<T: Drop> From<AllocFailed<T>> for PairError {
    ghost from_gives = { λ _ e. e ≡ refused.OutOfMemory };

    fn from(_error: AllocFailed<T>) -> PairError {
        PairError::OutOfMemory
    }
}

/// One end of a wire of two UDP sockets, each of which takes datagrams from the other alone. A receive waits only while some are
/// under way: they were sent at the other end, and have not come here yet. Nothing else can come.
#[derive(Drop)]
pub struct UdpWire {
    /// It doesn't wait, except in `wait`.
    socket: UdpSocket,
    /// How many datagrams are under way to this end.
    coming: Arc<AtomicU64, Global>,
    /// How many are under way to the other end.
    going: Arc<AtomicU64, Global>,
}

impl UdpWire {
    /// Both ends of a wire on 127.0.0.1, at ports that the system picks. A receive waits for 5 ms at most at each of them.
    pub fn pair<N: Net>(net: &N, alloc: Global) -> Result<(UdpWire, UdpWire), PairError> {
        let to_one = Arc::new(alloc, AtomicU64::new(0))?;
        let to_other = Arc::new(alloc, AtomicU64::new(0))?;
        let from_one = Arc::try_clone(&to_other)?;
        let from_other = Arc::try_clone(&to_one)?;
        let (one, other) = joined(net)?;
        let one = UdpWire {
            socket: one,
            coming: to_one,
            going: from_one,
        };
        let other = UdpWire {
            socket: other,
            coming: to_other,
            going: from_other,
        };
        Ok((one, other))
    }

    /// Receives the next datagram that the socket has, or gets while it waits.
    fn read(&mut self, buffer: &mut [u8]) -> Result<Option<usize>, WireFault>
        ensures { IfOk result (λ came. IfSome came (λ count. count ≤ length buffer.new)) }
    {
        match self.socket.recv(buffer) {
            Ok(count) => {
                if self.coming.load(Ordering::SeqCst) > 0 {
                    self.coming.fetch_sub(1, Ordering::SeqCst);
                }
                Ok(Some(count))
            }
            Err(error) if has_waited(&error) => Ok(None),
            Err(_) => Err(WireFault),
        }
    }

    /// Receives the next datagram that comes in time. If none does, those under way are lost, or late.
    fn wait(&mut self, buffer: &mut [u8]) -> Result<Option<usize>, WireFault>
        ensures { IfOk result (λ came. IfSome came (λ count. count ≤ length buffer.new)) }
    {
        if self.socket.set_nonblocking(false).is_err() {
            return Err(WireFault);
        }
        let due = self.coming.load(Ordering::SeqCst);
        let came = self.read(buffer);
        if came == Ok(None) {
            self.coming.fetch_sub(due, Ordering::SeqCst);
        }
        let _waits_again = self.socket.set_nonblocking(true).is_err();
        came
    }
}

/// Two sockets on 127.0.0.1, each joined to the other.
fn joined<N: Net>(net: &N) -> io::Result<(UdpSocket, UdpSocket)> {
    let one = bound(net)?;
    let other = bound(net)?;
    one.connect(other.local_addr()?)?;
    other.connect(one.local_addr()?)?;
    Ok((one, other))
}

/// A socket on 127.0.0.1, which doesn't wait, or for 5 ms at most.
fn bound<N: Net>(net: &N) -> io::Result<UdpSocket> {
    let socket = UdpSocket::bind(net, (Ipv4Addr::LOCALHOST, 0))?;
    socket.set_read_timeout(Some(Duration::from_millis(RECEIVE_LIMIT)))?;
    socket.set_nonblocking(true)?;
    Ok(socket)
}

impl Wire for UdpWire {
    fn send(&mut self, bytes: &[u8]) -> Result<usize, WireFault> {
        // It is counted first, since the other end may be read by another thread.
        self.going.fetch_add(1, Ordering::SeqCst);
        match self.socket.send(bytes) {
            Ok(taken) => Ok(taken),
            Err(_) => {
                self.going.fetch_sub(1, Ordering::SeqCst);
                Err(WireFault)
            }
        }
    }

    fn receive(&mut self, buffer: &mut [u8]) -> Result<Option<usize>, WireFault> {
        match self.read(buffer) {
            Ok(None) if self.coming.load(Ordering::SeqCst) > 0 => self.wait(buffer),
            came => came,
        }
    }
}

/// Whether nothing came in time.
fn has_waited(error: &io::Error) -> bool {
    matches!(error.kind(), ErrorKind::WouldBlock | ErrorKind::TimedOut)
}
