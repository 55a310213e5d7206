//! What holds of all wires over scripts, whatever is asked of them. Each law is a contract over all scripts.
ghost use Rattle.std.specs.Prelude.{◌≡◌, Bool, false, List};
ghost use Rattle.wire_core.specs.declared.outside.Entry.{Entry};
ghost use Rattle.target_server.specs.Courses.{Goes};
ghost use Rattle.target_server.specs.Joints.{joint_of};
ghost use Rattle.script_rows.specs.declared.script.Script.{Script};
ghost use Rattle.script_wires.specs.declared.wires.ScriptWires.{ScriptWires};
ghost use Rattle.script_wires.specs.Played.{Played};
ghost use Rattle.script_wires.specs.Playing.{Playing, start_of};
ghost use Rattle.script_wires.specs.ScriptWires.{is_refused, IsOver, HasPlayed};

/// The log of wires over a script is one of that script, unless memory was refused to them: what comes is what the
/// schedule gives next, whatever the bridge sends and when.
pub fn a_log_is_played()
    ensures { (script : Script) (w : ScriptWires) → IsOver script w → is_refused w ≡ false → HasPlayed script w }
{}

/// In a session of a script the target goes by its moves alone, from the script's world and program.
pub fn a_played_target_moves()
    ensures { (script : Script) (alone : Bool) (log : List Entry) (now : Playing) → Played script alone log now
        → Goes (joint_of script.world script.program (start_of script.begin)) now.target.joint }
{}
