//! Laws of logs, over the definitions alone. A caller cites a law by calling it: nothing is done.

ghost use Rattle.fw_audit.specs.Laws.{FrontsAreLogs, NoMoreReplies, OneReply, RunsTheLast};

/// What a log begins with is a log.
pub fn fronts_are_logs()
    ensures { FrontsAreLogs }
{}

/// A datagram that may be answered is followed by that reply, or by a start.
pub fn one_reply()
    ensures { OneReply }
{
    fw_meter::laws::one_answer();
}

/// No reply is sent that isn't owed.
pub fn no_more_replies()
    ensures { NoMoreReplies }
{}

/// A meter runs the last image that it switched to.
pub fn runs_the_last()
    ensures { RunsTheLast }
{}
