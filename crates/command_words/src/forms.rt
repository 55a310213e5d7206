//! The table of commands: how the words of each go.
ghost use Rattle.std.specs.Prelude.{◌≡◌, map, option_copied};
ghost use Rattle.command_words.specs.Forms.{form_of, kind_in, rule_of_part, rules_of, usage_line};

/// A command of the program.
#[derive(Clone, Copy, Debug)]
pub enum Kind {
    Serve,
    Script,
    Replay,
    Generate,
    Record,
    Dump,
}

/// A value that a command has to be given: behind the name of an option, or alone, so that only `clap` knows its name.
#[derive(Clone, Copy, Debug)]
pub enum Part<'a> {
    Option(&'a str),
    Value(&'a str),
}

/// The commands, in the order of the usage line.
pub(crate) const KINDS: [Kind; 6] = [
    Kind::Serve,
    Kind::Script,
    Kind::Replay,
    Kind::Generate,
    Kind::Record,
    Kind::Dump,
];

/// The words of a command: its name, and the values that it has to be given.
pub(crate) fn form_of<'a>(kind: Kind) -> (&'a str, &'a [Part<'a>])
    ensures name { result.0.now ≡ (form_of kind).name }
    ensures parts { map rule_of_part result.1.now ≡ rules_of (form_of kind) }
{
    match kind {
        Kind::Serve => ("serve", &[Part::Option("listen"), Part::Option("target")]),
        Kind::Script => ("script", &[Part::Value("file")]),
        Kind::Replay => ("replay", &[Part::Value("file")]),
        Kind::Generate => ("generate", &[Part::Value("number"), Part::Option("out")]),
        Kind::Record => (
            "record",
            &[
                Part::Option("listen"),
                Part::Option("target"),
                Part::Option("out"),
            ],
        ),
        Kind::Dump => ("dump", &[Part::Option("target")]),
    }
}

/// The first of these commands that has this name, if there is one.
pub(crate) fn kind_in<'a>(kinds: &'a [Kind], name: &str) -> Option<&'a Kind>
    ensures { option_copied result ≡ kind_in kinds.now name.now }
{
    kinds.iter().find(|kind| form_of(**kind).0 == name)
}

/// The line that shows the words of each command.
pub fn usage() -> &'static str
    ensures { result.now ≡ usage_line }
{
    "usage: bridge serve --listen A --target B, script FILE, replay LOG, generate N --out FILE, \
        record --listen A --target B --out FILE, dump --target B\n"
}
