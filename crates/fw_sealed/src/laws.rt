//! Laws of sealed links, over the definitions alone. A caller cites a law by calling it: nothing is done.

ghost use Rattle.fw_world.specs.Headline.{
  IsFirstName,
  InitiatesAreOffered,
  NamesAreOwn,
  GoalsAreOffered,
  ActivationsAreSafe,
  ActivationsAreEqual,
  ReleasesNeverFall,
};
ghost use Rattle.fw_field.specs.Field.{world_of};
ghost use Rattle.fw_field.specs.Laws.{ReportsAreTrue};
ghost use Rattle.fw_field.specs.Rollouts.{any_list};
ghost use Rattle.fw_rollout.specs.Rollout.{no_other};
ghost use Rattle.fw_port.specs.declared.port.NoReport.{NoReport};
ghost use Rattle.fw_rollout.specs.declared.ended.Ended.{Ended};
ghost use Rattle.fw_sealed.specs.Counting.{CountersRise};
ghost use Rattle.fw_sealed.specs.Laws.{
  AfterSealedMoves,
  SealedMovesAreMoves,
  LinksStaySealed,
  IvsNeverRepeat,
  PortsKeepMeters,
  PortsKeepHeads,
  PortsOpenOnly,
  AnswersAreSealed,
  RequestsAreSealed,
  SealedServingIsMoves,
  SealedLeadingIsMoves,
  SealedToldIsTrue,
};
ghost use Rattle.fw_sealed.specs.Rollouts.{SealedRolloutIsMoves, SealedRolloutToldIsTrue};

/// Whatever comes from the network, if nothing of it was forged, daemons behind sealing ports make moves of a field.
pub fn sealed_moves_are_moves()
    ensures { SealedMovesAreMoves }
{
    fw_field::laws::sent_stays();
}

/// Ends have sealed only what they sent, and of what came nothing was forged, whatever moves were made.
pub fn links_stay_sealed()
    ensures { LinksStaySealed }
{
    fw_field::laws::sent_stays();
}

/// The headline of daemons whose links are sealed: what the daemon of a meter switched to is what the campaign in its name offers, releases
/// never fall, and a meter whose row was reported as done switched to the image of that campaign. Of the network it asks only that of what
/// came, nothing that is a sealing under the keys of a link was made by others than the ends of that link.
pub fn sealed_moves_are_safe()
    ensures initiates { AfterSealedMoves (λ beginning now. InitiatesAreOffered (world_of now.field)) }
    ensures names { AfterSealedMoves (λ beginning now. NamesAreOwn (IsFirstName (world_of beginning.field)) (world_of now.field)) }
    ensures goals { AfterSealedMoves (λ beginning now. GoalsAreOffered (world_of now.field)) }
    ensures activations { AfterSealedMoves (λ beginning now. ActivationsAreSafe (world_of now.field)) }
    ensures equal { AfterSealedMoves (λ beginning now. ActivationsAreEqual (world_of now.field)) }
    ensures releases { AfterSealedMoves (λ beginning now. ReleasesNeverFall (world_of now.field)) }
    ensures reports { AfterSealedMoves (λ beginning now. ReportsAreTrue now.field) }
{
    sealed_moves_are_moves();
    fw_field::laws::moves_are_safe();
}

/// No end seals twice with one counter, on whichever of its links, however often it is killed and started again.
pub fn counters_rise()
    ensures { AfterSealedMoves (λ beginning now. CountersRise now.seals) }
{}

/// So no initialization vector stands twice under the keys of a link, whichever of its ends sealed.
pub fn ivs_never_repeat()
    ensures { IvsNeverRepeat }
{
    counters_rise();
}

/// What the port of a meter let through was sent to that meter by a head end: the premise of `fw_field::laws::serving_is_moves`.
pub fn ports_keep_meters()
    ensures { PortsKeepMeters }
{}

/// What the port of a head end let through was sent to it by the meter that it is heard as: the premise of
/// `fw_field::laws::leading_is_moves`.
pub fn ports_keep_heads()
    ensures { PortsKeepHeads }
{}

/// The port of `fw_sealport` lets through only what opened, as these laws ask for, whatever daemon stands behind it.
pub fn ports_open_only()
    ensures meters { PortsOpenOnly NoReport }
    ensures heads { PortsOpenOnly Ended }
{}

/// What the port of a meter sealed was sent by that meter, on the link that it is sealed for.
pub fn answers_are_sealed()
    ensures { AnswersAreSealed }
{}

/// What the port of a head end sealed was sent by that head end, on the link that it is sealed for.
pub fn requests_are_sealed()
    ensures { RequestsAreSealed }
{}

/// Whatever the daemon of a meter does behind a sealing port is rounds of it in the field.
pub fn sealed_serving_is_moves()
    ensures { SealedServingIsMoves }
{
    ports_keep_meters();
    fw_field::laws::serving_is_moves();
}

/// Whatever a head end does behind a sealing port is its steps as moves of the field.
pub fn sealed_leading_is_moves()
    ensures { SealedLeadingIsMoves }
{
    ports_keep_heads();
    fw_field::laws::leading_is_moves();
}

/// What a head end reports as done while it leads behind a sealing port is done safely in the field that its steps lead to.
pub fn sealed_told_is_true()
    ensures { SealedToldIsTrue }
{
    ports_keep_heads();
    links_stay_sealed();
    sealed_moves_are_moves();
    fw_field::laws::told_is_true();
}

/// Whatever a head end does in a rollout behind a sealing port is moves of the field.
pub fn sealed_rollout_is_moves()
    ensures one { SealedRolloutIsMoves no_other }
    ensures any { SealedRolloutIsMoves any_list }
{
    fw_field::laws::rollout_is_moves();
}

/// What a head end reports as done in a rollout behind a sealing port is done safely in the field that the rollout leads to.
pub fn sealed_rollout_told_is_true()
    ensures one { SealedRolloutToldIsTrue no_other }
    ensures any { SealedRolloutToldIsTrue any_list }
{
    links_stay_sealed();
    sealed_moves_are_moves();
    fw_field::laws::rollout_told_is_true();
}
