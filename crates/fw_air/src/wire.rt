//! Wires: what carries the datagrams of a link, and may lose them.

ghost use Rattle.std.specs.Prelude.{◌≡◌, ◌≤◌, ◌+◌, length, IfOk, IfSome, IfNone};
ghost use Rattle.fw_wrapper.specs.Wrapper.{max_received};

use fw_wrapper::MAX_RECEIVED;
use std::fmt;
use thiserror::Error;

/// The most datagrams that one pass reads from a wire.
pub const MAX_PASSED: u32 = 64;

/// A wire failed: what it was given to send is lost, or nothing was received.
#[derive(Clone, Copy, Debug, PartialEq, Eq, Error)]
pub struct WireFault;

impl fmt::Display for WireFault {
    fn fmt<W: fmt::Write>(&self, f: &mut fmt::Formatter<W>) -> fmt::Result {
        fmt::Debug::fmt(self, f)
    }
}

/// One end of a wire between a head end and a meter. What is sent at one end may come at the other, once, more often or never.
pub trait Wire {
    /// Sends a datagram, and returns how many of its bytes were taken. If these are fewer than given, it is lost.
    fn send(&mut self, bytes: &[u8]) -> Result<usize, WireFault>;

    /// Receives the next datagram into the buffer, and returns how many bytes of it stand there now. `None` says that nothing came in
    /// time.
    fn receive(&mut self, buffer: &mut [u8]) -> Result<Option<usize>, WireFault>
        ensures { IfOk result (λ came. IfSome came (λ count. count ≤ length buffer.new)) };
}

/// What is left of a pass, in which up to 64 datagrams are read from a wire.
#[derive(Clone, Copy)]
pub struct Pass {
    left: u32,
}

impl Pass {
    /// A whole pass.
    pub fn new() -> Pass
        ensures { result.left ≡ 64 }
    {
        Pass { left: MAX_PASSED }
    }

    /// Reads the next datagram of the pass into the buffer, and returns how many bytes of it stand there. A longer one than this profile
    /// can have is cut to bytes that nobody sent. With `None` the pass is over: nothing came in time, the wire failed, or 64 datagrams
    /// were read.
    pub fn next<W: Wire>(&mut self, wire: &mut W, buffer: &mut [u8; MAX_RECEIVED]) -> Option<usize>
        ensures one { IfSome result (λ _. self.new.left + 1 ≡ self.old.left) }
        ensures over { IfNone result (self.new.left ≡ 0) }
        ensures bound { IfSome result (λ count. count ≤ max_received) }
    {
        if self.left == 0 {
            return None;
        }
        self.left -= 1;
        match wire.receive(buffer) {
            Ok(Some(count)) => Some(count),
            Ok(None) | Err(WireFault) => {
                self.left = 0;
                None
            }
        }
    }
}
