//! Laws of meters in stores, over the definitions alone. A caller cites a law by calling it: nothing is done.

ghost use Rattle.fw_image.specs.Laws.{OneMeter, FreshIsMeter, OneStep, OneTurn, StepKeepsSize, TurnKeepsSize, JoinedSize};

/// What a store holds is one meter at most.
pub fn one_meter()
    ensures { OneMeter }
{
    fw_store::laws::one_header();
}

/// A new store holds a new meter.
pub fn fresh_is_meter()
    ensures { FreshIsMeter }
{
    fw_store::laws::fresh_is_header();
}

/// Over an honest store, if no call of it failed, a meter and an operation determine the outcome and the meter afterwards.
pub fn one_step()
    ensures { OneStep }
{}

/// And a meter determines what a turn makes of it.
pub fn one_turn()
    ensures { OneTurn }
{}

/// Over an honest store, whatever a meter does leaves it its capacity.
pub fn step_keeps_size()
    ensures { StepKeepsSize }
{}

/// And so does a turn.
pub fn turn_keeps_size()
    ensures { TurnKeepsSize }
{}

/// The blocks of an image, each of its length, have its size together.
pub fn joined_size()
    ensures { JoinedSize }
{}
