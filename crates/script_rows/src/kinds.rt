//! What a line of a script is, by its name.
ghost use Rattle.std.specs.Prelude.{◌≡◌};
ghost use Rattle.script_rows.specs.Rows.{world_kind, move_kind, turn_kind, kind_of};

/// The lines of the head, of the world, and of the end.
#[derive(Clone, Copy, Debug, PartialEq, Eq)]
pub(crate) enum WorldKind {
    Script,
    Sizes,
    Limits,
    Class,
    Method,
    Variable,
    Field,
    Object,
    Array,
    String,
    Put,
    Thread,
    Frame,
    Begin,
    End,
}

/// The lines of the program.
#[derive(Clone, Copy, Debug, PartialEq, Eq)]
pub(crate) enum MoveKind {
    At,
    Call,
    Return,
    Prepare,
    Throw,
    Start,
    Die,
    Store,
    Death,
}

/// The lines of the schedule.
#[derive(Clone, Copy, Debug, PartialEq, Eq)]
pub(crate) enum TurnKind {
    Ask,
    Client,
    Target,
    Serve,
    Move,
    Settle,
    Deliver,
    Shut,
}

#[derive(Clone, Copy, Debug, PartialEq, Eq)]
pub(crate) enum Kind {
    World(WorldKind),
    Move(MoveKind),
    Turn(TurnKind),
}

fn world_kind(name: &str) -> Option<WorldKind>
    ensures { result ≡ world_kind name.now }
{
    if name == "script" {
        Some(WorldKind::Script)
    } else if name == "sizes" {
        Some(WorldKind::Sizes)
    } else if name == "limits" {
        Some(WorldKind::Limits)
    } else if name == "class" {
        Some(WorldKind::Class)
    } else if name == "method" {
        Some(WorldKind::Method)
    } else if name == "variable" {
        Some(WorldKind::Variable)
    } else if name == "field" {
        Some(WorldKind::Field)
    } else if name == "object" {
        Some(WorldKind::Object)
    } else if name == "array" {
        Some(WorldKind::Array)
    } else if name == "string" {
        Some(WorldKind::String)
    } else if name == "put" {
        Some(WorldKind::Put)
    } else if name == "thread" {
        Some(WorldKind::Thread)
    } else if name == "frame" {
        Some(WorldKind::Frame)
    } else if name == "begin" {
        Some(WorldKind::Begin)
    } else if name == "end" {
        Some(WorldKind::End)
    } else {
        None
    }
}

fn move_kind(name: &str) -> Option<MoveKind>
    ensures { result ≡ move_kind name.now }
{
    if name == "at" {
        Some(MoveKind::At)
    } else if name == "call" {
        Some(MoveKind::Call)
    } else if name == "return" {
        Some(MoveKind::Return)
    } else if name == "prepare" {
        Some(MoveKind::Prepare)
    } else if name == "throw" {
        Some(MoveKind::Throw)
    } else if name == "start" {
        Some(MoveKind::Start)
    } else if name == "die" {
        Some(MoveKind::Die)
    } else if name == "store" {
        Some(MoveKind::Store)
    } else if name == "death" {
        Some(MoveKind::Death)
    } else {
        None
    }
}

fn turn_kind(name: &str) -> Option<TurnKind>
    ensures { result ≡ turn_kind name.now }
{
    if name == "ask" {
        Some(TurnKind::Ask)
    } else if name == "client" {
        Some(TurnKind::Client)
    } else if name == "target" {
        Some(TurnKind::Target)
    } else if name == "serve" {
        Some(TurnKind::Serve)
    } else if name == "move" {
        Some(TurnKind::Move)
    } else if name == "settle" {
        Some(TurnKind::Settle)
    } else if name == "deliver" {
        Some(TurnKind::Deliver)
    } else if name == "shut" {
        Some(TurnKind::Shut)
    } else {
        None
    }
}

/// What a line is that has this name.
#[tactic(auto, unfolding(crate::specs::Rows::kind_of))]
pub(crate) fn kind_of(name: &str) -> Option<Kind>
    ensures { result ≡ kind_of name.now }
{
    if let Some(kind) = world_kind(name) {
        return Some(Kind::World(kind));
    }
    if let Some(kind) = move_kind(name) {
        return Some(Kind::Move(kind));
    }
    match turn_kind(name) {
        Some(kind) => Some(Kind::Turn(kind)),
        None => None,
    }
}
