//! What holds of the collectors of a run.
ghost use Rattle.std.specs.Prelude.{List};
ghost use Rattle.trace_model.specs.Parcel.{Parcel};
ghost use Rattle.text_model.specs.Script.{Script as ScriptSeen};
ghost use Rattle.trace_run.specs.ledgers.Audit.{taken_in, IsAudited};
ghost use Rattle.trace_run.specs.ledgers.Headline.{IsAuditHeadline};
ghost use Rattle.trace_run.specs.threaded.Runs.{IsRunOfScript};
ghost use Rattle.trace_run.specs.declared.threaded.running.Ran.{Ran as RanSeen};

/// The headline holds of each collector that was audited against the ledgers of a run: of each CPU of the script it
/// keeps exactly what was taken from that CPU's ring, and nothing of any other CPU.
pub fn audited_collectors_have_the_headline()
    ensures { (script : ScriptSeen) (ran : RanSeen) (run : IsRunOfScript script ran) (kept : List Parcel)
        → IsAudited kept (taken_in ran.ledgers.items)
        → IsAuditHeadline script.pages script.size script.start run.rings kept ran.ledgers.items }
{}
