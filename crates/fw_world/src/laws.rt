//! Laws of the world, over the definitions alone. A caller cites a law by calling it: nothing is done.

ghost use Rattle.fw_world.specs.Laws.{
  AfterEachRun,
  IsSafeWorld,
  SetupOpens,
  EveryStepIsSafe,
  StateStepsAsWorld,
  ActorsStay,
  SentStaysAddressed,
  RunGoesOn,
  DoneRowsAreCounted,
  MarksMayBeMissing,
};
ghost use Rattle.fw_world.specs.Headline.{
  IsFactoryName,
  IsFirstName,
  InitiatesAreOffered,
  NamesAreOwn,
  GoalsAreOffered,
  ActivationsAreSafe,
  ActivationsAreEqual,
  ReleasesNeverFall,
};

/// Each step keeps what holds of a world that events led to.
pub fn every_step_is_safe()
    ensures { EveryStepIsSafe }
{
    fw_names::laws::one_name();
    fw_names::laws::spelling_size();
    fw_apdu::laws::one_request();
    fw_image::laws::joined_size();
    fw_meter::laws::tells_running();
}

/// What is kept makes the steps of the world that it is.
pub fn state_steps_as_world()
    ensures { StateStepsAsWorld }
{
    fw_book::laws::images_stay();
    fw_book::laws::opening_offers();
    fw_book::laws::states_follow();
    fw_book::laws::admitted_opens();
    fw_head::laws::row_keeps_goal();
    fw_meter::laws::stop_after_is_stop();
}

/// The world that a setup makes is an opening one.
pub fn setup_opens()
    ensures { SetupOpens }
{}

/// No step changes which head ends and which meters are there.
pub fn actors_stay()
    ensures { ActorsStay }
{}

/// If each datagram was sent between a head end and a meter that are there, each step keeps it so. In a new world none was sent.
pub fn sent_stays_addressed()
    ensures { SentStaysAddressed }
{}

/// A run, and a step after it, are a run over one event more.
pub fn run_goes_on()
    ensures { RunGoesOn }
{}

/// Over every run, what a meter switches to is what the campaign in its name offers, a meter that is done switched to it, and
/// along the images that a meter switches to releases never fall.
pub fn every_run_is_safe()
    ensures initiates { AfterEachRun (λ opening w. InitiatesAreOffered w) }
    ensures names { AfterEachRun (λ opening w. NamesAreOwn (IsFirstName opening) w) }
    ensures goals { AfterEachRun (λ opening w. GoalsAreOffered w) }
    ensures activations { AfterEachRun (λ opening w. ActivationsAreSafe w) }
    ensures equal { AfterEachRun (λ opening w. ActivationsAreEqual w) }
    ensures releases { AfterEachRun (λ opening w. ReleasesNeverFall w) }

    // So each further step keeps it: this is what `every_step_is_safe` asks of the world before.
    ensures safe { AfterEachRun (λ opening w. IsSafeWorld IsFactoryName w) }
{
    fw_names::laws::one_name();
    fw_names::laws::spelling_size();
    fw_apdu::laws::one_request();
    fw_image::laws::joined_size();
    fw_meter::laws::tells_running();
}

/// Over every run from the world that a setup makes, the number of done rows is how many of them there are: one for each head end,
/// serial number and meter that is done, and none counted twice.
pub fn done_rows_are_counted()
    ensures { DoneRowsAreCounted }
{
    fw_book::laws::admitted_opens();
}

/// Whichever marks of done meters are taken out of the world that a run leads to, there is a run to the world without them: it lacks the
/// deliveries that made them. So what holds after each run holds where a head end starts again with a book that lacks its last marks.
pub fn marks_may_be_missing()
    ensures { MarksMayBeMissing }
{}
