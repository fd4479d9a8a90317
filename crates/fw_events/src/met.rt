//! What a row met that got nowhere.

ghost use Rattle.std.specs.Prelude.{◌≡◌};
ghost use Rattle.fw_events.specs.Events.{met_words};

use fw_book::Phase;

/// What a row met that came from this phase to ask again whether its meter has all blocks. 2 is temporary-failure, and status 1
/// transfer_initiated (IEC 62056-6-2, Image transfer).
pub fn met_after(from: Phase) -> &'static str
    ensures { result.now ≡ met_words from }
{
    match from {
        Phase::Poll => "verify 2, status 1",
        Phase::Gaps => "a block is missing by attribute 4, and none by attribute 3",
        Phase::Blocks => "blocks are missing again that were taken",
        Phase::Size
        | Phase::Enable
        | Phase::Start
        | Phase::Check
        | Phase::Verify
        | Phase::Info
        | Phase::Activate
        | Phase::Confirm
        | Phase::Done
        | Phase::Failed => "it is asked again whether it has all blocks",
    }
}
