//! The names of questions.
ghost use Rattle.std.specs.Prelude.{◌≡◌};
ghost use Rattle.ask_texts.specs.Names.{kind_of_name};

use jdwp_commands::QuestionKind;

/// The question of a name; None exactly where no question has it.
pub(crate) fn kind_of_name(name: &str) -> Option<QuestionKind>
    ensures { result ≡ kind_of_name name.now }
{
    match name {
        "ClassesBySignature" => Some(QuestionKind::ClassesBySignature),
        "AllClasses" => Some(QuestionKind::AllClasses),
        "AllThreads" => Some(QuestionKind::AllThreads),
        "IdSizes" => Some(QuestionKind::IdSizes),
        "Signature" => Some(QuestionKind::Signature),
        "Fields" => Some(QuestionKind::Fields),
        "Methods" => Some(QuestionKind::Methods),
        "SourceFile" => Some(QuestionKind::SourceFile),
        "Superclass" => Some(QuestionKind::Superclass),
        "LineTable" => Some(QuestionKind::LineTable),
        "VariableTable" => Some(QuestionKind::VariableTable),
        "ObjectType" => Some(QuestionKind::ObjectType),
        "GetFields" => Some(QuestionKind::GetFields),
        "StringValue" => Some(QuestionKind::StringValue),
        "ThreadName" => Some(QuestionKind::ThreadName),
        "Frames" => Some(QuestionKind::Frames),
        "FrameCount" => Some(QuestionKind::FrameCount),
        "ArrayLength" => Some(QuestionKind::ArrayLength),
        "GetElements" => Some(QuestionKind::GetElements),
        "GetSlots" => Some(QuestionKind::GetSlots),
        "ThisObject" => Some(QuestionKind::ThisObject),
        _ => None,
    }
}
