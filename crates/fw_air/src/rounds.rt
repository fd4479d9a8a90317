//! A round of a link, whoever makes its steps.

ghost use Rattle.std.specs.Prelude.{List, IfOk, OnOk, IfErr};
ghost use Rattle.fw_air.specs.Order.{IsMadeInOrder};
ghost use Rattle.fw_air.specs.declared.fates.Fate.{Fate as Fated};

use crate::fates::Fates;
use std::alloc::Global;

/// Who makes the steps of a round of a link. What a step makes, its type says: where it says nothing, nothing is known.
pub trait LinkSteps {
    /// A link, and what waits on it.
    type Link;
    /// What was sent in a step.
    type Sent: Drop;
    /// Why a step was refused.
    type Refusal: Drop;

    /// What has to be known of a link before each step of its round.
    ghost ready: { Self → Self.Link → Type 0 };

    /// What was late came, the head end ticked, and this was sent.
    ghost begun: { Self → Self.Link → Self → Self.Link → Self.Sent → Type 0 } = { λ _ _ _ _ _. Unit {0} };

    /// What was sent came or waits, by these fates, and the last was sent in return.
    ghost passed: { List Fated → Self → Self.Link → Self.Sent → Self → Self.Link → Self.Sent → Type 0 } = { λ _ _ _ _ _ _ _. Unit {0} };

    /// The meter took a turn, if it verified.
    ghost turned: { Self → Self.Link → Self → Type 0 } = { λ _ _ _. Unit {0} };

    /// What becomes of it, also if a step is refused.
    ghost goes_on: { Self → Self → Type 0 };

    /// What a step is refused for.
    ghost refuses: { Self.Refusal → Type 0 };

    /// What was late comes, and the head end ticks the meter: what was sent.
    fn begin(&mut self, alloc: Global, link: &mut Self::Link) -> Result<Self::Sent, Self::Refusal>
        requires { ready self.old link.old }
        ensures begun { IfOk result (λ sent. begun self.old link.old self.new link.new sent) }
        ensures ready { OnOk result (ready self.new link.new) }
        ensures goes_on { (start : Self) → goes_on start self.old → goes_on start self.new }
        ensures refused { IfErr result refuses };

    /// What was sent comes or waits, by its fates: what was sent in return.
    fn pass(
        &mut self,
        alloc: Global,
        link: &mut Self::Link,
        fates: &Fates<'_>,
        sent: Self::Sent,
    ) -> Result<Self::Sent, Self::Refusal>
        requires { ready self.old link.old }
        ensures passed { IfOk result (λ replies. passed fates.now self.old link.old sent self.new link.new replies) }
        ensures ready { OnOk result (ready self.new link.new) }
        ensures goes_on { (start : Self) → goes_on start self.old → goes_on start self.new }
        ensures refused { IfErr result refuses };

    /// The meter takes a turn, if it verifies.
    fn turn(&mut self, alloc: Global, link: &Self::Link) -> Result<(), Self::Refusal>
        requires { ready self.old link.now }
        ensures turned { OnOk result (turned self.old link.now self.new) }
        ensures ready { OnOk result (ready self.new link.now) }
        ensures goes_on { (start : Self) → goes_on start self.old → goes_on start self.new }
        ensures refused { IfErr result refuses };
}

/// A round of a link. The datagrams have their fates in the order in which they are sent: first the replies to what was late and what
/// the tick sends, and then the replies to what of these comes.
///
/// # Errors
///
/// Those of the steps. What was made before stays.
pub fn link_round<S: LinkSteps>(
    steps: &mut S,
    alloc: Global,
    link: &mut S::Link,
    fates: &Fates<'_>,
) -> Result<(), S::Refusal>
    requires { S.ready steps.old link.old }
    ensures made { OnOk result (IsMadeInOrder S.begun (S.passed fates.now) S.turned steps.old link.old steps.new link.new) }
    ensures ready { OnOk result (S.ready steps.new link.new) }
    ensures goes_on { (start : _) → S.goes_on start steps.old → S.goes_on start steps.new }
    ensures refused { IfErr result S.refuses }
{
    let sent = steps.begin(alloc, link)?;
    let replies = steps.pass(alloc, link, fates, sent)?;
    steps.pass(alloc, link, fates, replies)?;
    steps.turn(alloc, link)
}
