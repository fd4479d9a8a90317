//! A law of what decides in a rollout. A caller cites it by calling it: nothing is done.

ghost use Rattle.fw_plan.specs.Silence.{ContactFollows};

/// The contact with a meter says when something was heard of it last, and when it was asked first since then, from that of a meter that was
/// never asked on.
pub fn contact_follows()
    ensures { ContactFollows }
{}
