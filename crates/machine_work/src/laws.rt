//! What holds of every act of the machine's own. The law is the contract of a function that does nothing.

ghost use Rattle.std.specs.Prelude.{◌≡◌, ◌<◌, Bool, true};
ghost use Rattle.machine_model.specs.Due.{due};
ghost use Rattle.machine_model.specs.State.{Machine};
ghost use Rattle.machine_work.specs.Working.{is_work, work};

/// Each act but a wait and the session's end leaves the machine less to do by itself. So it comes to one of these two
/// where nothing comes from outside.
pub fn each_act_leaves_less_to_do()
    ensures { (id_pending : Bool) (m : Machine) → is_work (due id_pending m).act ≡ true
        → work (due id_pending m).next < work m }
{}
