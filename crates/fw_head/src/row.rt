//! One row of a campaign: a head end's work on one meter.

ghost use Rattle.std.specs.Prelude.{◌≡◌, ◌<◌, ◌≤◌, true, false, All, length, IfSome, IfOk, OnOk, OnErr, MatchBool};
ghost use Rattle.std.specs.FinMap.{empty};
ghost use Rattle.fw_blocks.specs.Width.{max_width};
ghost use Rattle.fw_client.specs.State.{IsWaiting};

use crate::answers::{Step, next_step};
use crate::asks::{ask_blocks, ask_one, ask_two};
use crate::ending::expect_marked;
use crate::giving_up::{GivenUp, WhyGivenUp};
use crate::news::RowNews;
use crate::reason::answer_of;
use crate::stage::Stage;
use fw_blocks::{Geometry, Width, Window};
use fw_book::{Book, Phase, Reason};
use fw_client::{ActiveClaim, Ask, Client, OutOfMemory};
use fw_names::{ImageName, MeterId};
use std::alloc::Global;
use std::marker::Model;
use std::mem;

/// The eighth return to `Start` ends a row.
const MAX_RETURNS: u8 = 8;

/// A head end's work on one meter for one campaign.
#[derive(Drop)]
pub struct RowCore {
    name: ImageName,
    size: u32,
    stage: Stage,
    client: Client,
    returns: u8,
    asks_first: bool,
}

// Contracts see the row machine. A live row returned fewer than eight times. Its image is cut within the limits, and the set of its
// known blocks counts as many as the image has. A row that is done was claimed by its own meter, its client's, under its own name. A row
// that asks first hasn't started yet.
impl Model for RowCore {
    ghost use Rattle.std.specs.Coded.{codes};
    ghost use Rattle.std.specs.FinMap.{code};
    ghost use Rattle.fw_head.specs.Row.{Row};

    ghost Value = { Row };

    ghost coded = { Prim.hlevel (codes, code) };

    ghost use Rattle.fw_head.specs.Private.{IsRow};

    ghost view = { λ r. record { name = r.name; size = r.size; stage = r.stage; client = r.client; returns = r.returns; asks_first = r.asks_first } };

    ghost invariant = { λ r. IsRow r.name r.size r.stage r.client r.returns r.asks_first };
}

impl RowCore {
    ghost use Rattle.fw_head.specs.Row.{Row, bytes_of, new_row, reopened_row, ticked, sends, moved, returned, settled, with_block};
    ghost use Rattle.fw_head.specs.Row.{went, asked_first, stepped, given_up, blocks_in, known_of};
    ghost use Rattle.fw_head.specs.Row.{
      RowHears,
      IsPermitted,
      RowMayWant,
      news_in,
      tick_asks,
      datagrams,
      asking_all,
      claim_in,
      reason_in,
      IsClaimOf,
    };
    ghost use Rattle.fw_head.specs.Phase.{phase_of, activates, has_ended, IsLive};
    ghost use Rattle.fw_head.specs.Parts.{with_end};
    ghost use Rattle.fw_head.specs.Private.{IsOfBook, Carry, IsCutOf, IsOwn, IsOwnStep, IsOwnNews, IsAsking, IsAskingStep};

    /// A new row of this meter, for the image of this name and size in bytes.
    pub fn new(meter: MeterId, name: ImageName, size: u32) -> RowCore
        ensures { result ≡ new_row meter name size }
    {
        RowCore {
            name,
            size,
            stage: Stage::Size,
            client: Client::new(meter),
            returns: 0,
            asks_first: false,
        }
    }

    /// A new row, of a book that was opened again: it asks its meter first which image runs, and which blocks of its own the meter
    /// has, before it sends any.
    pub fn reopened(meter: MeterId, name: ImageName, size: u32) -> RowCore
        ensures { result ≡ reopened_row meter name size }
    {
        let mut row = RowCore::new(meter, name, size);
        row.asks_first = true;
        row
    }

    /// Makes the row new.
    pub fn restart(&mut self)
        ensures { self.new ≡ new_row self.old.client.meter self.old.name self.old.size }
    {
        *self = RowCore::new(self.meter(), self.name, self.size);
    }

    /// Whose row it is.
    pub fn meter(&self) -> MeterId
        ensures { result ≡ self.now.client.meter }
    {
        self.client.meter()
    }

    /// The name of the image that the meter is to run.
    pub fn name(&self) -> ImageName
        ensures { result ≡ self.now.name }
    {
        self.name
    }

    /// Where the row is.
    pub fn phase(&self) -> Phase
        ensures { result ≡ phase_of self.now.stage }
    {
        self.stage.phase()
    }

    /// Into how many blocks the meter cuts the row's image, if that is known: it isn't before the meter told its block size, nor
    /// once the row ended.
    pub fn block_count(&self) -> Option<u32>
        ensures { result ≡ blocks_in self.now.stage }
    {
        self.stage.block_count()
    }

    /// How many of these blocks the meter is known to have, from the first one on.
    pub fn known_blocks(&self) -> u32
        ensures { result ≡ known_of self.now }
    {
        if self.asks_first {
            0
        } else {
            self.stage.known_blocks()
        }
    }

    /// Whether a tick asks the meter to activate the image.
    pub(crate) fn activates(&self) -> bool
        ensures { result ≡ activates self.now.stage }
    {
        self.stage.activates()
    }

    /// The claim that ended the row, if one did: the row's meter answered that it runs the image of the row's name.
    pub fn claim(&self) -> Option<ActiveClaim>
        ensures value { result ≡ claim_in self.now.stage }
        ensures own { IfSome result (IsClaimOf self.now.client.meter self.now.name) }
    {
        self.stage.claim()
    }

    /// Why the row was given up, if it was: the phase that it was in, and what its meter answered then.
    pub fn reason(&self) -> Option<Reason>
        ensures { result ≡ reason_in self.now.stage }
    {
        self.stage.reason()
    }

    /// What is told of the row if it is given up as it is now.
    pub(crate) fn given_up(&self, why: WhyGivenUp) -> GivenUp
        ensures { result ≡ given_up self.now why }
    {
        let phase = self.phase();
        let answer = why.answer();
        GivenUp {
            campaign: self.name.campaign,
            reason: Reason { phase, answer },
        }
    }

    /// Whether an ask of the row is outstanding: no answer to it came since the last tick or move.
    pub fn is_waiting(&self) -> bool
        ensures { MatchBool result (IsWaiting self.now.client) (¬ IsWaiting self.now.client) }
    {
        self.client.is_waiting()
    }

    /// The size of that image in bytes.
    pub(crate) fn size(&self) -> u32
        ensures { result ≡ self.now.size }
    {
        self.size
    }

    /// Whether the row is done or was given up.
    pub(crate) fn has_ended(&self) -> bool
        ensures { result ≡ has_ended self.now.stage }
    {
        self.stage.has_ended()
    }

    /// Marks in the book how the row ended, if it did.
    pub(crate) fn mark_end(&self, book: &mut Book)
        requires { IsOfBook book.old self.now }
        ensures { book.new ≡ with_end book.old self.now.name.campaign.serial self.now.client.meter self.now.stage }
    {
        match &self.stage {
            Stage::Done(claim) => expect_marked(book.mark_done(self.name.campaign, *claim)),
            Stage::Failed(_) => expect_marked(book.mark_failed(self.name.campaign, self.meter())),
            _ => {}
        }
    }

    /// How often the row returned to `Start`: 7 times at most, since the eighth return ends it.
    pub fn returns(&self) -> u8
        ensures count { result ≡ self.now.returns }
        ensures most { result < 8 }
    {
        self.returns
    }

    /// Drops what was asked, and makes the datagrams that are sent now. `image` has the bytes of the row's image.
    ///
    /// # Errors
    ///
    /// `OutOfMemory` alone, and only while the row has not ended. The row is then as before.
    pub fn tick(
        &mut self,
        alloc: Global,
        image: &[u8],
        width: Width,
    ) -> Result<Vec<Vec<u8>>, OutOfMemory>
        ensures sent { IfOk result (λ sent. bytes_of sent.items ≡ sends self.old image.now width) }
        // If the image has the row's size, each datagram is one that a head end may send.
        ensures permitted { IfOk result (λ sent. length image.now ≡ self.old.size
            → All (IsPermitted self.old.name image.now) (bytes_of sent.items)) }
        ensures most { IfOk result (λ sent. length sent.items ≤ max_width) }
        ensures ticked { OnOk result (self.new ≡ ticked self.old image.now width) }
        ensures same { OnErr result (self.new ≡ self.old) }
        ensures memory { OnErr result (IsLive self.old.stage) }
    {
        let mut client = self.client.duplicate();
        client.forget();
        let sent = self.ask(alloc, &mut client, image, width)?;
        self.client = client;
        Ok(sent)
    }

    /// Asks by this client what the phase asks.
    fn ask(
        &self,
        alloc: Global,
        client: &mut Client,
        image: &[u8],
        width: Width,
    ) -> Result<Vec<Vec<u8>>, OutOfMemory>
        requires { client.old.asks ≡ empty }
        ensures sent { IfOk result (λ sent. bytes_of sent.items ≡ datagrams client.old (tick_asks self.now image.now width)) }
        ensures carry { IfOk result (λ sent. Carry client.old (tick_asks self.now image.now width) (bytes_of sent.items)) }
        ensures most { IfOk result (λ sent. length sent.items ≤ max_width) }
        ensures asked { OnOk result (client.new ≡ asking_all client.old (tick_asks self.now image.now width)) }
        ensures memory { OnErr result (IsLive self.now.stage) }
    {
        let ask = match &self.stage {
            Stage::Size => Ask::BlockSize,
            Stage::Enable(_) => Ask::Enable,
            Stage::Start(_) => Ask::Initiate {
                name: self.name,
                size: self.size,
            },
            Stage::Blocks(geometry, known) => {
                let window = Window::next(known, width);
                return ask_blocks(alloc, client, image, *geometry, window.as_slice());
            }
            Stage::Check(_) => Ask::FirstMissing,
            Stage::Gaps(_) => Ask::Blocks,
            Stage::Verify(_) => Ask::Verify,
            Stage::Poll(_) => Ask::Status,
            Stage::Info(_) => Ask::Info,
            Stage::Activate(_) => Ask::Activate,
            Stage::Confirm(_) if self.asks_first => {
                return ask_two(alloc, client, &Ask::ActiveName, &Ask::Blocks);
            }
            Stage::Confirm(_) => Ask::ActiveName,
            Stage::Done(_) | Stage::Failed(_) => return Ok(Vec::new(alloc)),
        };
        ask_one(alloc, client, &ask)
    }

    /// Hears a datagram of the meter.
    ///
    /// # Errors
    ///
    /// `OutOfMemory` alone, and only if the client may take memory, or if the answer shows which blocks the meter has. The row
    /// is then as before.
    pub fn hear(&mut self, alloc: Global, datagram: &[u8]) -> Result<RowNews, OutOfMemory>
        ensures heard { IfOk result (λ told. RowHears self.old datagram.now told self.new) }
        // A claim that ends the row is of its own meter, under its own name.
        ensures claimed { IfOk result (IsOwnNews self.old.client.meter self.old.name) }
        ensures same { OnErr result (self.new ≡ self.old) }
        ensures memory { OnErr result (RowMayWant self.old datagram.now) }
    {
        let mut client = self.client.duplicate();
        let heard = client.hear(alloc, datagram)?;
        let Some(answer) = answer_of(&heard) else {
            return Ok(RowNews::Nothing);
        };
        let reason = Reason {
            phase: self.phase(),
            answer,
        };
        let step = next_step(alloc, self.name, self.size, &self.stage, heard)?;
        self.client = client;
        self.take(step, reason);
        Ok(self.stage.news())
    }

    /// Goes where an answer leads. If that ends the row, it is the reason.
    fn take(&mut self, step: Step, reason: Reason)
        requires own { IsOwnStep self.old.client.meter self.old.name self.old.size step }
        requires asking { self.old.asks_first ≡ true → IsAskingStep step }
        ensures { self.new ≡ stepped self.old step reason }
    {
        if self.asks_first {
            self.ask_first(step, reason);
        } else {
            self.follow(step, reason);
        }
    }

    /// Goes where an answer leads, and asks which image runs before it starts. If that isn't the row's own, asks which blocks the
    /// meter has.
    fn ask_first(&mut self, step: Step, reason: Reason)
        requires own { IsOwnStep self.old.client.meter self.old.name self.old.size step }
        requires asking { IsAskingStep step }
        ensures { self.new ≡ asked_first self.old step reason }
    {
        match step {
            Step::Stay => {}
            Step::Took(_) => unreachable!(),
            Step::Move(stage) => self.go(stage.confirm_first()),
            Step::Return(geometry) => {
                self.asks_first = false;
                self.go(Stage::Gaps(geometry));
            }
            Step::Fail => self.go(Stage::Failed(reason)),
        }
    }

    /// Goes where the table leads.
    fn follow(&mut self, step: Step, reason: Reason)
        requires own { IsOwnStep self.old.client.meter self.old.name self.old.size step }
        requires asked { self.old.asks_first ≡ false }
        ensures { self.new ≡ went self.old step reason }
    {
        match step {
            Step::Stay => {}
            Step::Took(number) => self.took(number),
            Step::Move(stage) => self.go(stage),
            Step::Return(geometry) => self.go_back(geometry, reason),
            Step::Fail => self.go(Stage::Failed(reason)),
        }
    }

    /// The meter took a block: the phase ends once it has them all.
    fn took(&mut self, number: u32)
        requires { self.old.asks_first ≡ false }
        ensures { self.new ≡ settled self.old (with_block self.old.stage number) }
    {
        let stage = mem::replace(&mut self.stage, Stage::Size);
        match stage.with_block(number) {
            Stage::Blocks(geometry, known) => self.stage = Stage::Blocks(geometry, known),
            stage => self.go(stage),
        }
    }

    /// Goes to another phase. The outstanding asks are forgotten.
    fn go(&mut self, stage: Stage)
        requires own { IsOwn self.old.client.meter self.old.name self.old.size stage }
        requires asking { self.old.asks_first ≡ true → IsAsking stage }
        ensures { self.new ≡ moved self.old stage }
    {
        self.client.forget();
        self.stage = stage;
    }

    /// Returns to `Start`, or gives up at the last return, for this reason.
    fn go_back(&mut self, geometry: Geometry, reason: Reason)
        requires cut { IsCutOf self.old.size geometry }
        requires asked { self.old.asks_first ≡ false }
        ensures { self.new ≡ returned self.old geometry reason }
    {
        if self.returns + 1 < MAX_RETURNS {
            self.returns += 1;
            self.go(Stage::Start(geometry));
        } else {
            self.go(Stage::Failed(reason));
        }
    }
}
