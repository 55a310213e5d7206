//! Runs the program on its words.
ghost use Rattle.std.specs.Prelude.{◌≡◌, []};
ghost use Rattle.std.specs.List.{AllByRecursion};
ghost use Rattle.bridge_runs.specs.Command.{Does, Runs};
ghost use Rattle.command_words.specs.Words.{IsNumbered, IsValue, Names, said, usage_words};
ghost use Rattle.command_words.specs.declared.words.Task.{Task as TheTask};

use crate::dumping::dump_from;
use crate::generate::generate;
use crate::record::record_to;
use crate::replay::replay;
use crate::script::play;
use bridge_serve::serve;
use command_words::{Addresses, Task, WordsFault, read_words};
use run_outcomes::{Outcome, tell};
use session_endings::{Ending, Limits};
use std::alloc::Global;
use wire_core::{Files, Output, Wires, Word};

/// Runs the program on its words, prints what says how the run ended, and gives its status. `serve --listen A --target B`
/// connects to a Java machine at B, accepts an editor at A, serves a session between them, and prints a line. `script
/// FILE` reads the script in the file FILE, serves a session between its client and its target, and prints the log of
/// this session. `replay LOG` reads the session log in the file LOG, serves a session over what came in it, and prints
/// the log of this session. `generate N --out FILE` serves a session between the client and the target of the script of
/// the number N, writes the log of this session to the file FILE, and prints its summary. `record --listen A --target B
/// --out FILE` serves a session as `serve` does, writes its log to the file FILE, and prints a line. `dump --target B`
/// connects to a Java machine at B, and prints the stacks of all its threads, with their values. It is printed once all
/// else is done.
pub fn bridge_main<W: Wires, F: Files, O: Output>(
    alloc: Global,
    words: &[Word],
    wires: &mut W,
    files: &mut F,
    out: &mut O,
) -> u8
    requires wires_unused { (W.outside wires.old).asked ≡ [] }
    requires files_unused { (F.store files.old).asked ≡ [] }
    ensures runs { Runs words.now
        (record { wires = W.outside wires.old; files = F.store files.old; printed = O.printed out.old })
        (record { wires = W.outside wires.new; files = F.store files.new; printed = O.printed out.new }) result }

    // The words of each task in the form of the usage line are taken, where no value is empty or begins with a hyphen,
    // and the number of a script is one.
    ensures usage { (task : TheTask) → AllByRecursion IsValue (said task).1 → IsNumbered task
        → Names (usage_words task) task }
{
    let outcome = run(alloc, words, wires, files);
    tell(alloc, outcome, out)
}

fn run<W: Wires, F: Files>(alloc: Global, words: &[Word], wires: &mut W, files: &mut F) -> Outcome
    requires wires_unused { (W.outside wires.old).asked ≡ [] }
    requires files_unused { (F.store files.old).asked ≡ [] }
    ensures { Does words.now (W.outside wires.old) (W.outside wires.new) (F.store files.old) (F.store files.new) result }
{
    match read_words(alloc, words) {
        Ok(Task::Serve(Addresses { listen, target })) => match wires.connect(listen, target) {
            Ok(()) => Outcome::Ended(serve(alloc, &Limits::standard(), wires)),
            Err(_) => Outcome::NotOpened,
        },
        Ok(Task::Script(name)) => play(alloc, name, files),
        Ok(Task::Replay(name)) => replay(alloc, name, files),
        Ok(Task::Generate(number, out)) => generate(alloc, number.number, out, files),
        Ok(Task::Record(addresses, out)) => record_to(alloc, addresses, out, wires, files),
        Ok(Task::Dump(target)) => dump_from(alloc, target, wires),
        Err(WordsFault::Refused) => Outcome::Misused,
        Err(WordsFault::NoMemory) => Outcome::Ended(Ending::NoMemory),
    }
}
