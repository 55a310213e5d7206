ghost use Rattle.std.specs.Prelude.{◌≡◌};
ghost use Rattle.jdwp_commands.specs.Kinds.{question_numbers, effect_numbers, numbers, kind_of_numbers};

/// Which question it is (JDWP, Detailed Command Information).
#[derive(Clone, Copy, Debug, PartialEq, Eq)]
pub enum QuestionKind {
    ClassesBySignature,
    AllClasses,
    AllThreads,
    IdSizes,
    Signature,
    Fields,
    Methods,
    SourceFile,
    Superclass,
    LineTable,
    VariableTable,
    ObjectType,
    GetFields,
    StringValue,
    ThreadName,
    Frames,
    FrameCount,
    ArrayLength,
    GetElements,
    GetSlots,
    ThisObject,
}

/// Which effect it is (JDWP, Detailed Command Information).
#[derive(Clone, Copy, Debug, PartialEq, Eq)]
pub enum EffectKind {
    Dispose,
    Suspend,
    Resume,
    Exit,
    SetField,
    SetElement,
    Set,
    Clear,
    SetSlot,
}

/// Which command it is (JDWP, Detailed Command Information).
#[derive(Clone, Copy, Debug, PartialEq, Eq)]
pub enum CommandKind {
    Question(QuestionKind),
    Effect(EffectKind),
}

impl QuestionKind {
    /// The number of the command's set, and its own in there.
    pub fn numbers(self) -> (u8, u8)
        ensures { result ≡ question_numbers self }
    {
        match self {
            QuestionKind::ClassesBySignature => (1, 2),
            QuestionKind::AllClasses => (1, 3),
            QuestionKind::AllThreads => (1, 4),
            QuestionKind::IdSizes => (1, 7),
            QuestionKind::Signature => (2, 1),
            QuestionKind::Fields => (2, 4),
            QuestionKind::Methods => (2, 5),
            QuestionKind::SourceFile => (2, 7),
            QuestionKind::Superclass => (3, 1),
            QuestionKind::LineTable => (6, 1),
            QuestionKind::VariableTable => (6, 2),
            QuestionKind::ObjectType => (9, 1),
            QuestionKind::GetFields => (9, 2),
            QuestionKind::StringValue => (10, 1),
            QuestionKind::ThreadName => (11, 1),
            QuestionKind::Frames => (11, 6),
            QuestionKind::FrameCount => (11, 7),
            QuestionKind::ArrayLength => (13, 1),
            QuestionKind::GetElements => (13, 2),
            QuestionKind::GetSlots => (16, 1),
            QuestionKind::ThisObject => (16, 3),
        }
    }
}

impl EffectKind {
    /// The number of the command's set, and its own in there.
    pub fn numbers(self) -> (u8, u8)
        ensures { result ≡ effect_numbers self }
    {
        match self {
            EffectKind::Dispose => (1, 6),
            EffectKind::Suspend => (1, 8),
            EffectKind::Resume => (1, 9),
            EffectKind::Exit => (1, 10),
            EffectKind::SetField => (9, 3),
            EffectKind::SetElement => (13, 3),
            EffectKind::Set => (15, 1),
            EffectKind::Clear => (15, 2),
            EffectKind::SetSlot => (16, 2),
        }
    }
}

impl CommandKind {
    /// The command that has these numbers; None exactly where no command has them.
    pub fn from_numbers(set: u8, command: u8) -> Option<CommandKind>
        ensures { result ≡ kind_of_numbers set command }
    {
        match set {
            1 => machine_command(command),
            2 => class_command(command),
            3 => superclass_command(command),
            6 => method_command(command),
            9 => object_command(command),
            10 => string_command(command),
            11 => thread_command(command),
            13 => array_command(command),
            15 => request_command(command),
            16 => frame_command(command),
            _ => None,
        }
    }

    /// The number of the command's set, and its own in there.
    pub fn numbers(self) -> (u8, u8)
        ensures { result ≡ numbers self }
    {
        match self {
            CommandKind::Question(kind) => kind.numbers(),
            CommandKind::Effect(kind) => kind.numbers(),
        }
    }
}

fn machine_command(command: u8) -> Option<CommandKind>
    ensures { result ≡ kind_of_numbers 1 command }
{
    match command {
        2 => Some(CommandKind::Question(QuestionKind::ClassesBySignature)),
        3 => Some(CommandKind::Question(QuestionKind::AllClasses)),
        4 => Some(CommandKind::Question(QuestionKind::AllThreads)),
        6 => Some(CommandKind::Effect(EffectKind::Dispose)),
        7 => Some(CommandKind::Question(QuestionKind::IdSizes)),
        8 => Some(CommandKind::Effect(EffectKind::Suspend)),
        9 => Some(CommandKind::Effect(EffectKind::Resume)),
        10 => Some(CommandKind::Effect(EffectKind::Exit)),
        _ => None,
    }
}

fn class_command(command: u8) -> Option<CommandKind>
    ensures { result ≡ kind_of_numbers 2 command }
{
    match command {
        1 => Some(CommandKind::Question(QuestionKind::Signature)),
        4 => Some(CommandKind::Question(QuestionKind::Fields)),
        5 => Some(CommandKind::Question(QuestionKind::Methods)),
        7 => Some(CommandKind::Question(QuestionKind::SourceFile)),
        _ => None,
    }
}

fn superclass_command(command: u8) -> Option<CommandKind>
    ensures { result ≡ kind_of_numbers 3 command }
{
    match command {
        1 => Some(CommandKind::Question(QuestionKind::Superclass)),
        _ => None,
    }
}

fn method_command(command: u8) -> Option<CommandKind>
    ensures { result ≡ kind_of_numbers 6 command }
{
    match command {
        1 => Some(CommandKind::Question(QuestionKind::LineTable)),
        2 => Some(CommandKind::Question(QuestionKind::VariableTable)),
        _ => None,
    }
}

fn object_command(command: u8) -> Option<CommandKind>
    ensures { result ≡ kind_of_numbers 9 command }
{
    match command {
        1 => Some(CommandKind::Question(QuestionKind::ObjectType)),
        2 => Some(CommandKind::Question(QuestionKind::GetFields)),
        3 => Some(CommandKind::Effect(EffectKind::SetField)),
        _ => None,
    }
}

fn string_command(command: u8) -> Option<CommandKind>
    ensures { result ≡ kind_of_numbers 10 command }
{
    match command {
        1 => Some(CommandKind::Question(QuestionKind::StringValue)),
        _ => None,
    }
}

fn thread_command(command: u8) -> Option<CommandKind>
    ensures { result ≡ kind_of_numbers 11 command }
{
    match command {
        1 => Some(CommandKind::Question(QuestionKind::ThreadName)),
        6 => Some(CommandKind::Question(QuestionKind::Frames)),
        7 => Some(CommandKind::Question(QuestionKind::FrameCount)),
        _ => None,
    }
}

fn array_command(command: u8) -> Option<CommandKind>
    ensures { result ≡ kind_of_numbers 13 command }
{
    match command {
        1 => Some(CommandKind::Question(QuestionKind::ArrayLength)),
        2 => Some(CommandKind::Question(QuestionKind::GetElements)),
        3 => Some(CommandKind::Effect(EffectKind::SetElement)),
        _ => None,
    }
}

fn request_command(command: u8) -> Option<CommandKind>
    ensures { result ≡ kind_of_numbers 15 command }
{
    match command {
        1 => Some(CommandKind::Effect(EffectKind::Set)),
        2 => Some(CommandKind::Effect(EffectKind::Clear)),
        _ => None,
    }
}

fn frame_command(command: u8) -> Option<CommandKind>
    ensures { result ≡ kind_of_numbers 16 command }
{
    match command {
        1 => Some(CommandKind::Question(QuestionKind::GetSlots)),
        2 => Some(CommandKind::Effect(EffectKind::SetSlot)),
        3 => Some(CommandKind::Question(QuestionKind::ThisObject)),
        _ => None,
    }
}
