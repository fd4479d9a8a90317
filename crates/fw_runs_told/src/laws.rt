//! Laws of what logs tell, over the definitions alone. A caller cites a law by calling it: nothing is done.

ghost use Rattle.fw_runs_told.specs.Laws.{HeadlineOfLogs, LogsAreRuns};

/// What the logs of all ends tell is a run of the world.
pub fn logs_are_runs()
    ensures { LogsAreRuns }
{
    fw_head_audit::laws::offered_in_book();
}

/// So the headline holds of what they tell.
pub fn headline_of_logs()
    ensures { HeadlineOfLogs }
{
    logs_are_runs();
    fw_world::laws::every_run_is_safe();
}
