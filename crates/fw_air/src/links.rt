//! The links of a world, and what waits on each.

ghost use Rattle.std.specs.Prelude.{◌≡◌, ◌+◌, ◌-◌, ◌<◌, ◌≤◌, ◌++◌, [], All, Some, IfOk, OnOk, OnErr, length, map};
ghost use Rattle.fw_air.specs.Fates.{by_fates, comes, fate_of, waits};
ghost use Rattle.fw_air.specs.Links.{IsNew, IsThere, late_of, link_of, passed_of};
ghost use Rattle.fw_air.specs.Logs.{capped};
ghost use Rattle.fw_air.specs.Rounds.{is_link, links, links_with, stands_in};

use crate::fates::{Fate, Fates};
use fw_book::Book;
use fw_names::{HeadId, MeterId};
use fw_world::{MeterSetup, Setup, World};
use std::alloc::{AllocError, Global};
use std::mem;

/// The link of a head end and a meter that stands in its book, and what waits on it.
#[derive(Drop)]
pub struct LinkQueue {
    pub(crate) head: HeadId,
    pub(crate) meter: MeterId,
    /// How many datagrams had their fates since its first round.
    pub(crate) passed: u64,
    /// The datagrams that come at the beginning of the next round.
    pub(crate) late: Vec<usize>,
}

impl LinkQueue {
    /// The head end.
    pub fn head(&self) -> HeadId
        ensures { result ≡ (link_of self.now).head }
    {
        self.head
    }

    /// The meter.
    pub fn meter(&self) -> MeterId
        ensures { result ≡ (link_of self.now).meter }
    {
        self.meter
    }

    /// Takes the datagrams that are late, in the order in which `pass` left them: none is late then. It takes no memory.
    pub fn take_late(&mut self, alloc: Global) -> Vec<usize>
        ensures late { result.items ≡ late_of self.old }
        ensures none { late_of self.new ≡ [] }
        ensures link { link_of self.new ≡ link_of self.old }
        ensures passed { passed_of self.new ≡ passed_of self.old }
    {
        mem::replace(&mut self.late, Vec::new(alloc))
    }

    /// Gives each datagram from number `from` on and below `end` its fate: the next one of the list, which is repeated for this link.
    /// Returns those that come now, in the order of their numbers, each as often as it comes. Those that come a round late wait after
    /// the others until `take_late`, and have had their fate then.
    ///
    /// # Errors
    ///
    /// Out of memory alone, and only if a datagram comes or is late. Some of the datagrams are then late, and the others are lost.
    pub fn pass(
        &mut self,
        alloc: Global,
        fates: &Fates<'_>,
        from: usize,
        end: usize,
    ) -> Result<Vec<usize>, AllocError>
        ensures comes { IfOk result (λ coming. coming.items
            ≡ by_fates comes fates.now (passed_of self.old) from end) }
        ensures waits { OnOk result (late_of self.new
            ≡ late_of self.old ++ by_fates waits fates.now (passed_of self.old) from end) }
        ensures passed { OnOk result (passed_of self.new ≡ capped (passed_of self.old + (end - from))) }
        ensures memory { OnErr result (1 ≤ length (by_fates comes fates.now (passed_of self.old) from end)
            + length (by_fates waits fates.now (passed_of self.old) from end)) }
        ensures coming { IfOk result (λ coming. All (λ number. number < end) coming.items) }
        ensures late { All (λ number. number < end) (late_of self.old)
            → OnOk result (All (λ number. number < end) (late_of self.new)) }
        ensures link { OnOk result (link_of self.new ≡ link_of self.old) }
    {
        let mut coming = Vec::new(alloc);
        for datagram in from..end {
            let fate = self.fate_at(fates, datagram - from);
            match fate {
                Fate::Deliver => coming.push(datagram)?,
                Fate::Drop => {}
                Fate::Twice => {
                    coming.push(datagram)?;
                    coming.push(datagram)?;
                }
                Fate::Late => self.late.push(datagram)?,
            }
        }
        self.passed = self.passed.saturating_add(end.saturating_sub(from) as u64);
        Ok(coming)
    }

    /// The fate of the datagram after the next `others` ones.
    fn fate_at(&self, fates: &Fates<'_>, others: usize) -> Fate
        ensures { fate_of fates.now (capped (passed_of self.now + others)) ≡ Some result }
    {
        fates.of(self.passed.saturating_add(others as u64))
    }
}

/// The links of a world: by head ends, and then by meters, in the order of the setup. A link is a head end and a meter that stands in
/// its book, also if its rows have all ended. Nothing was sent on them, and nothing waits. Each end of a link is looked for as
/// `World::book` and `World::meter` do.
///
/// # Errors
///
/// Out of memory alone, and only if there is a link.
pub fn links_of(alloc: Global, setup: &Setup, world: &World) -> Result<Vec<LinkQueue>, AllocError>
    ensures all { IfOk result (λ made. map link_of made.items ≡ links setup.now world.now) }
    ensures there { IfOk result (λ made. All (IsThere world.now) made.items) }
    ensures unsent { IfOk result (λ made. All IsNew made.items) }
    ensures memory { OnErr result (1 ≤ length (links setup.now world.now)) }
{
    let mut made = Vec::new(alloc);
    for head in &setup.heads {
        push_links(alloc, &mut made, world, head.head, &setup.meters)?;
    }
    Ok(made)
}

/// Appends the links of a head end.
fn push_links(
    alloc: Global,
    made: &mut Vec<LinkQueue>,
    world: &World,
    head: HeadId,
    meters: &[MeterSetup],
) -> Result<(), AllocError>
    requires there { All (IsThere world.now) made.old.items }
    requires unsent { All IsNew made.old.items }
    ensures all { OnOk result (map link_of made.new.items
        ≡ map link_of made.old.items ++ links_with world.now head meters.now) }
    ensures there { OnOk result (All (IsThere world.now) made.new.items) }
    ensures unsent { OnOk result (All IsNew made.new.items) }
    ensures memory { OnErr result (1 ≤ length (links_with world.now head meters.now)) }
{
    for meter in meters {
        if has_link(world, head, meter.meter) {
            made.push(LinkQueue {
                head,
                meter: meter.meter,
                passed: 0,
                late: Vec::new(alloc),
            })?;
        }
    }
    Ok(())
}

/// Whether a meter stands in the book of a head end.
fn has_link(world: &World, head: HeadId, meter: MeterId) -> bool
    ensures { result ≡ is_link world.now head meter }
{
    match (world.meter(meter), world.book(head)) {
        (Some(_), Some(book)) => has_meter(book, meter),
        _ => false,
    }
}

/// Whether a meter stands in a campaign of a book.
fn has_meter(book: &Book, meter: MeterId) -> bool
    ensures { result ≡ stands_in book.now meter }
{
    book.rows()
        .any(|(_serial, offer)| offer.state(meter).is_some())
}
