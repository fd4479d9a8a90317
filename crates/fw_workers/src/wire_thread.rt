//! The wires of a worker's links, in a thread of their own. What is lost there is loss on the wire: no clause speaks of it.

ghost use Rattle.std.specs.Prelude.{◌≡◌, IfOk, IfErr};

use crate::error::RoundsError;
use crossbeam_channel::{Receiver, SendError, Sender, unbounded};
use fw_air::{Pass, Wire};
use fw_world::Direction;
use fw_wrapper::MAX_RECEIVED;
use std::alloc::{AllocError, Global};
use std::sync::Wait;

/// A datagram on a link of a worker.
#[derive(Drop)]
pub(crate) struct LinkDatagram {
    /// The place of the link among those of the worker.
    pub(crate) link: usize,
    pub(crate) direction: Direction,
    pub(crate) bytes: Vec<u8>,
}

/// What a worker asks its wire thread for.
#[derive(Drop)]
enum Order {
    /// To send a datagram.
    Send(LinkDatagram),
    /// To read each wire, and to pass on what came.
    Pass,
}

/// What a wire thread passes on.
#[derive(Drop)]
pub(crate) enum Arrival {
    /// A datagram that came.
    Came(LinkDatagram),
    /// The pass is over.
    Over,
}

/// A worker's end of the channels to its wire thread.
#[derive(Drop)]
pub(crate) struct WireThread {
    orders: Sender<Order>,
    pub(crate) arrivals: Receiver<Arrival>,
}

/// The wires of a worker's links: of each the head end's end and the meter's. It does what it is asked for in a thread of its own.
#[derive(Drop)]
pub(crate) struct WireLoop<W: Wire + Drop> {
    wires: Vec<(W, W)>,
    orders: Receiver<Order>,
    arrivals: Sender<Arrival>,
}

impl WireThread {
    /// Both ends, for these wires.
    pub(crate) fn with<W: Wire + Drop>(
        alloc: Global,
        wires: Vec<(W, W)>,
    ) -> Result<(WireThread, WireLoop<W>), AllocError> {
        let (orders, asked) = unbounded(alloc)?;
        let (arriving, arrivals) = unbounded(alloc)?;
        let wire_loop = WireLoop {
            wires,
            orders: asked,
            arrivals: arriving,
        };
        Ok((WireThread { orders, arrivals }, wire_loop))
    }

    /// Passes a datagram on to the wire thread, which sends it. It is lost if that thread has ended.
    pub(crate) fn send<R: Wait>(&self, rt: &R, datagram: LinkDatagram) -> Result<(), RoundsError>
        ensures { IfErr result (λ e. e ≡ RoundsError.OutOfMemory) }
    {
        self.order(rt, Order::Send(datagram))
    }

    /// Asks for a pass: what came is passed on, and then that the pass is over.
    pub(crate) fn pass<R: Wait>(&self, rt: &R) -> Result<(), RoundsError>
        ensures { IfErr result (λ e. e ≡ RoundsError.OutOfMemory) }
    {
        self.order(rt, Order::Pass)
    }

    /// Gives an order, which is lost if the wire thread has ended.
    fn order<R: Wait>(&self, rt: &R, order: Order) -> Result<(), RoundsError>
        ensures { IfErr result (λ e. e ≡ RoundsError.OutOfMemory) }
    {
        match self.orders.send(rt, order) {
            Ok(()) | Err(SendError::Disconnected(_)) => Ok(()),
            Err(SendError::OutOfMemory(_)) => Err(RoundsError::OutOfMemory),
        }
    }
}

/// The worker is gone, or memory was refused: the wire thread ends.
#[derive(Clone, Copy)]
struct Ended;

impl From<AllocError> for Ended {
    fn from(_error: AllocError) -> Ended {
        Ended
    }
}

impl From<SendError<Arrival>> for Ended {
    fn from(_error: SendError<Arrival>) -> Ended {
        Ended
    }
}

impl<W: Wire + Drop> WireLoop<W> {
    /// Does what it is asked for, in order, until nobody asks any more. It ends before if memory is refused: nothing is sent and
    /// nothing comes then any more.
    pub(crate) fn run<R: Wait>(self, rt: &R, alloc: Global) {
        let WireLoop {
            mut wires,
            orders,
            arrivals,
        } = self;
        'orders: for order in orders.iter(rt) {
            match order {
                Order::Send(datagram) => send(&mut wires, &datagram),
                Order::Pass => {
                    if pass(rt, alloc, &mut wires, &arrivals).is_err() {
                        return;
                    }
                }
            }
        }
    }
}

/// Sends a datagram from its sender's end. If the wire fails or takes fewer bytes, it is lost.
fn send<W: Wire>(wires: &mut [(W, W)], datagram: &LinkDatagram) {
    let Some(ends) = wires.get_mut(datagram.link) else {
        return;
    };
    let _taken = match datagram.direction {
        Direction::ToMeter => ends.0.send(&datagram.bytes),
        Direction::ToHead => ends.1.send(&datagram.bytes),
    };
}

/// A pass over these wires: each end is read in turn, and what came is passed on.
fn pass<W: Wire, R: Wait>(
    rt: &R,
    alloc: Global,
    wires: &mut [(W, W)],
    arrivals: &Sender<Arrival>,
) -> Result<(), Ended> {
    for (link, (head, meter)) in wires.iter_mut().enumerate() {
        let _meters = read(rt, alloc, meter, link, Direction::ToMeter, arrivals)?;
        let _heads = read(rt, alloc, head, link, Direction::ToHead, arrivals)?;
    }
    arrivals.send(rt, Arrival::Over)?;
    Ok(())
}

/// Passes on what came to an end of a wire, in a pass, and returns the pass once it is over.
fn read<W: Wire, R: Wait>(
    rt: &R,
    alloc: Global,
    wire: &mut W,
    link: usize,
    direction: Direction,
    arrivals: &Sender<Arrival>,
) -> Result<Pass, Ended>
    ensures { IfOk result (λ pass. pass.left ≡ 0) }
{
    let mut buffer = [0; MAX_RECEIVED];
    let mut pass = Pass::new();
    'datagrams: while let Some(count) = pass.next(wire, &mut buffer) {
        let bytes = buffer[..count].to_vec(alloc)?;
        let datagram = LinkDatagram {
            link,
            direction,
            bytes,
        };
        arrivals.send(rt, Arrival::Came(datagram))?;
    }
    Ok(pass)
}
