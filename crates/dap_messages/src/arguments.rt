ghost use Rattle.std.specs.Prelude.{◌≡◌, option_map};
ghost use Rattle.serde_json.specs.Find.{as_str};
ghost use Rattle.serde_json.specs.View.{view, items_view};
ghost use Rattle.dap_messages.specs.Arguments.{argument_name, as_int, given, int_at, int_or, text_at, texts_at};
ghost use Rattle.dap_messages.specs.Arguments.{each_in, flag_at, path_format_at, unless_broken, IsRead};
ghost use Rattle.dap_messages.specs.Arguments.{filter_at, filter_of};

use crate::requests::Filter;
use serde_json::Value;
use std::alloc::Global;
use wire_core::{List, NoMemory, Text};

const MAX_INT: u64 = (1 << 31) - 1;

/// An argument that can break its rule, or the member that holds them all.
#[derive(Clone, Copy, Drop, PartialEq, Eq)]
pub(crate) enum Argument {
    Arguments,
    AdapterId,
    LinesStartAt1,
    ColumnsStartAt1,
    PathFormat,
    SupportsVariableType,
    SourceRoots,
    Source,
    Breakpoints,
    Filters,
    ThreadId,
    StartFrame,
    Levels,
    FrameId,
    VariablesReference,
    Filter,
    Start,
    Count,
    Name,
    Value,
    Expression,
    TerminateDebuggee,
}

impl Argument {
    pub(crate) fn name(self) -> &'static str
        ensures { result.now ≡ argument_name self }
    {
        match self {
            Argument::Arguments => "arguments",
            Argument::AdapterId => "adapterID",
            Argument::LinesStartAt1 => "linesStartAt1",
            Argument::ColumnsStartAt1 => "columnsStartAt1",
            Argument::PathFormat => "pathFormat",
            Argument::SupportsVariableType => "supportsVariableType",
            Argument::SourceRoots => "sourceRoots",
            Argument::Source => "source",
            Argument::Breakpoints => "breakpoints",
            Argument::Filters => "filters",
            Argument::ThreadId => "threadId",
            Argument::StartFrame => "startFrame",
            Argument::Levels => "levels",
            Argument::FrameId => "frameId",
            Argument::VariablesReference => "variablesReference",
            Argument::Filter => "filter",
            Argument::Start => "start",
            Argument::Count => "count",
            Argument::Name => "name",
            Argument::Value => "value",
            Argument::Expression => "expression",
            Argument::TerminateDebuggee => "terminateDebuggee",
        }
    }
}

/// Why arguments were not read.
#[derive(Clone, Copy, Drop, PartialEq, Eq)]
pub(crate) enum Refused {
    NoMemory,
    Broken(Argument),
}

impl From<NoMemory> for Refused {
    ghost use Rattle.std.specs.Prelude.{◌≡◌};
    ghost use Rattle.dap_messages.specs.declared.arguments.Refused.TheVariants.{NoMemory as refused_memory};

    ghost from_gives = { λ _ refused. refused ≡ refused_memory };

    fn from(_refused: NoMemory) -> Refused {
        Refused::NoMemory
    }
}

/// The argument, unless it is missing or null.
pub(crate) fn given<'v>(arguments: &'v Value, argument: Argument) -> Option<&'v Value>
    ensures { option_map (λ v. view v.now) result ≡ given argument (view arguments.now) }
{
    match arguments.get(argument.name()) {
        Some(value) => if value.is_null() { None } else { Some(value) },
        None => None,
    }
}

/// A text that must be there.
pub(crate) fn text_at(alloc: Global, arguments: &Value, argument: Argument) -> Result<Text, Refused>
    ensures { IsRead result (text_at argument (view arguments.now)) }
{
    match given(arguments, argument) {
        Some(value) => match value.as_str() {
            Some(text) => Ok(Text::from_str(alloc, text)?),
            None => Err(Refused::Broken(argument)),
        },
        None => Err(Refused::Broken(argument)),
    }
}

/// A list of texts that must be there and have at least one.
pub(crate) fn texts_at(
    alloc: Global,
    arguments: &Value,
    argument: Argument,
) -> Result<List<Text>, Refused>
    ensures { IsRead result (texts_at argument (view arguments.now)) }
{
    let Some(items) = given(arguments, argument).and_then(Value::as_array) else {
        return Err(Refused::Broken(argument));
    };
    let texts = texts_in(alloc, argument, items.as_slice())?;
    if texts.is_empty() {
        Err(Refused::Broken(argument))
    } else {
        Ok(texts)
    }
}

/// The texts that all items are.
pub(crate) fn texts_in(
    alloc: Global,
    argument: Argument,
    items: &[Value],
) -> Result<List<Text>, Refused>
    ensures { IsRead result (unless_broken argument (each_in as_str (items_view items.now))) }
{
    let mut texts = List::new(alloc);
    for item in items {
        match item.as_str() {
            Some(text) => texts.push(Text::from_str(alloc, text)?)?,
            None => return Err(Refused::Broken(argument)),
        }
    }
    Ok(texts)
}

/// An integer from 0 to 2^31 - 1 that must be there.
pub(crate) fn int_at(arguments: &Value, argument: Argument) -> Result<u32, Refused>
    ensures { IsRead result (int_at argument (view arguments.now)) }
{
    match given(arguments, argument).and_then(as_int) {
        Some(number) => Ok(number),
        None => Err(Refused::Broken(argument)),
    }
}

/// An integer from 0 to 2^31 - 1, or `missing` where it isn't given.
pub(crate) fn int_or(arguments: &Value, argument: Argument, missing: u32) -> Result<u32, Refused>
    ensures { IsRead result (int_or argument missing (view arguments.now)) }
{
    match given(arguments, argument) {
        Some(value) => match as_int(value) {
            Some(number) => Ok(number),
            None => Err(Refused::Broken(argument)),
        },
        None => Ok(missing),
    }
}

/// The integer from 0 to 2^31 - 1 that a value is, where it is one.
pub(crate) fn as_int(value: &Value) -> Option<u32>
    ensures { result ≡ as_int (view value.now) }
{
    match value.as_u64() {
        Some(number) => if number <= MAX_INT {
            Some(number as u32)
        } else {
            None
        },
        None => None,
    }
}

/// A truth value, or `missing` where it isn't given.
pub(crate) fn flag_at(arguments: &Value, argument: Argument, missing: bool) -> Result<bool, Refused>
    ensures { IsRead result (flag_at argument missing (view arguments.now)) }
{
    match given(arguments, argument) {
        Some(value) => match value.as_bool() {
            Some(flag) => Ok(flag),
            None => Err(Refused::Broken(argument)),
        },
        None => Ok(missing),
    }
}

/// The form of paths, of which there is one, `path`.
pub(crate) fn path_format_at(arguments: &Value, argument: Argument) -> Result<(), Refused>
    ensures { IsRead result (path_format_at argument (view arguments.now)) }
{
    match given(arguments, argument) {
        Some(value) => match value.as_str() {
            Some(format) => if format == "path" {
                Ok(())
            } else {
                Err(Refused::Broken(argument))
            },
            None => Err(Refused::Broken(argument)),
        },
        None => Ok(()),
    }
}

/// Which children are wanted, which are those of both kinds where it isn't given.
pub(crate) fn filter_at(arguments: &Value, argument: Argument) -> Result<Filter, Refused>
    ensures { IsRead result (filter_at argument (view arguments.now)) }
{
    match given(arguments, argument) {
        Some(value) => match value.as_str().and_then(filter_of) {
            Some(filter) => Ok(filter),
            None => Err(Refused::Broken(argument)),
        },
        None => Ok(Filter::Both),
    }
}

fn filter_of(text: &str) -> Option<Filter>
    ensures { result ≡ filter_of text.now }
{
    if text == "indexed" {
        Some(Filter::Indexed)
    } else if text == "named" {
        Some(Filter::Named)
    } else {
        None
    }
}
