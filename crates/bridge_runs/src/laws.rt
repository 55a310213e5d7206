//! What holds of runs of the program.
ghost use Rattle.bridge_runs.specs.Recording.{IsLogOf};
ghost use Rattle.recorded_sessions.specs.Records.{IsRecord};
ghost use Rattle.recorded_sessions.specs.declared.recording.Recorded.{Recorded};
ghost use Rattle.run_outcomes.specs.FileRuns.{usual_limits, IsLogged};
ghost use Rattle.script_text.specs.declared.log.SessionLog.{SessionLog};
ghost use Rattle.wire_core.specs.Outside.{Outside};

/// The log that is written of a recorded session is the log of a session, as each log is that the program prints, whatever
/// the wires were that it was served over.
pub fn a_record_is_a_session()
    ensures { (old new : Outside) (r : Recorded) (log : SessionLog) → IsRecord usual_limits old new r → IsLogOf r log
        → IsLogged log }
{}
