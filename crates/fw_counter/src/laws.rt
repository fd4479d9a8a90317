//! Laws of counters, over the definitions alone.

ghost use Rattle.fw_counter.specs.Laws.{OneBound, CountersNeverRepeat};

/// Bytes reserve the counters below one number at most.
pub fn one_bound()
    ensures { OneBound }
{
    fw_journal::laws::one_reading();
}

/// No counter is used twice, over whatever uses, reservations and kills.
pub fn counters_never_repeat()
    ensures { CountersNeverRepeat }
{}
