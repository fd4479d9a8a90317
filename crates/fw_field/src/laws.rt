//! Laws of a field, over the definitions alone. A caller cites a law by calling it: nothing is done.

ghost use Rattle.fw_world.specs.Headline.{
  IsFirstName,
  InitiatesAreOffered,
  NamesAreOwn,
  GoalsAreOffered,
  ActivationsAreSafe,
  ActivationsAreEqual,
  ReleasesNeverFall,
};
ghost use Rattle.fw_field.specs.Field.{world_of};
ghost use Rattle.fw_field.specs.Laws.{
  AfterMoves,
  IsRun,
  ReportsAreKept,
  ReportsAreTrue,
  RoundsAreTaken,
  ServingIsMoves,
  LeadingIsMoves,
  ToldIsTrue,
  SentStays,
  SentComes,
  AnswersCome,
};
ghost use Rattle.fw_field.specs.Rollouts.{RolloutIsMoves, RolloutToldIsTrue, any_list};
ghost use Rattle.fw_rollout.specs.Rollout.{no_other};

/// Whatever daemons did, and however often they were killed, is a run of the world, which leads to the world that the field is: with the
/// meters as they are, what the books in memory offer, and the rows that are done there. Where a head end was started again with a book
/// that lacks its last marks, that run lacks the deliveries which made them.
pub fn moves_are_runs()
    ensures { AfterMoves IsRun }
{
    fw_meter::laws::faultless();
    fw_meter::laws::turn_fault_is_stop();
    fw_book::laws::states_follow();
    fw_book::laws::images_stay();
    fw_head::laws::reported_by_claim();
    fw_head::laws::heads_stay();
    fw_world::laws::state_steps_as_world();
    fw_world::laws::marks_may_be_missing();
}

/// A row that was ever reported as done is done in the book that every power cut leaves of its head end from then on, and in the one in
/// memory.
pub fn reports_are_kept()
    ensures { AfterMoves (λ beginning now. ReportsAreKept now) }
{
    fw_meter::laws::faultless();
    fw_meter::laws::turn_fault_is_stop();
    fw_book::laws::states_follow();
    fw_book::laws::images_stay();
    fw_head::laws::reported_by_claim();
    fw_head::laws::heads_stay();
    fw_world::laws::state_steps_as_world();
}

/// The headline of daemons: what the daemon of a meter switched to is what the campaign in its name offers, releases never fall, and a
/// meter whose row was reported as done switched to the image of that campaign.
pub fn moves_are_safe()
    ensures initiates { AfterMoves (λ beginning now. InitiatesAreOffered (world_of now)) }
    ensures names { AfterMoves (λ beginning now. NamesAreOwn (IsFirstName (world_of beginning)) (world_of now)) }
    ensures goals { AfterMoves (λ beginning now. GoalsAreOffered (world_of now)) }
    ensures activations { AfterMoves (λ beginning now. ActivationsAreSafe (world_of now)) }
    ensures equal { AfterMoves (λ beginning now. ActivationsAreEqual (world_of now)) }
    ensures releases { AfterMoves (λ beginning now. ReleasesNeverFall (world_of now)) }
    ensures reports { AfterMoves (λ beginning now. ReportsAreTrue now) }
{
    moves_are_runs();
    reports_are_kept();
    fw_world::laws::every_run_is_safe();
}

/// A round of the daemon of a meter is a turn, or a datagram that was taken: what a move of a field is made of.
pub fn rounds_are_taken()
    ensures { RoundsAreTaken }
{
    fw_daemon::laws::switches_are_told();
}

/// Whatever the daemon of a meter does that is in a field is rounds of it, where each datagram that it heeded was sent to it there. In the
/// field that they lead to, each reply was sent.
pub fn serving_is_moves()
    ensures { ServingIsMoves }
{}

/// Whatever a head end does that is in a field is its steps as moves, where each datagram that it heard as that of a meter was sent to it
/// by that meter there. In the field that they lead to, all that it sent was sent on the link of a meter with that address, and all that
/// it reported was reported.
pub fn leading_is_moves()
    ensures { LeadingIsMoves }
{}

/// What a head end reports as done while it leads is done safely in the field that its steps lead to.
pub fn told_is_true()
    ensures { ToldIsTrue }
{
    leading_is_moves();
    moves_are_safe();
}

/// Whatever a head end does in a rollout, which gives up silent meters, is moves of the field that it is in, where each datagram that it
/// heard as that of a meter was sent to it by that meter there; of one list, and of lists that follow each other, as from wave to wave.
pub fn rollout_is_moves()
    ensures one { RolloutIsMoves no_other }
    ensures any { RolloutIsMoves any_list }
{}

/// What a head end reports as done in a rollout is done safely in the field that the rollout leads to.
pub fn rollout_told_is_true()
    ensures one { RolloutToldIsTrue no_other }
    ensures any { RolloutToldIsTrue any_list }
{
    moves_are_safe();
}

/// What was sent in a field was sent in each field that moves lead to.
pub fn sent_stays()
    ensures { SentStays }
{}

/// What a head end sent is what may come to the meter's daemon: the premise of `serving_is_moves` in any later field.
pub fn sent_comes()
    ensures { SentComes }
{
    sent_stays();
}

/// What the daemon of a meter sent is what may come to the head end: the premise of `leading_is_moves` in any later field.
pub fn answers_come()
    ensures { AnswersCome }
{
    sent_stays();
}
