ghost use Rattle.std.specs.Prelude.{◌≡◌, IfOk, IsTrue, option_map};
ghost use Rattle.serde_json.specs.View.{view};
ghost use Rattle.dap_messages.specs.Members.{ascends, member_data, members_data};
ghost use Rattle.dap_messages.specs.Objects.{object_of};

use serde_json::{Map, Value, put};
use std::alloc::{AllocError, Global};
use wire_core::Text;

/// What a member of an object says. One that is `Maybe` is left out where it has nothing to say.
#[derive(Drop)]
pub(crate) enum Member<'a> {
    Flag(bool),
    Count(u64),
    Integer(i64),
    Words(&'a str),
    Items(Vec<Value>),
    Inner(Value),
    MaybeCount(Option<u32>),
    MaybeText(&'a Option<Text>),
    MaybeWords(Option<&'a str>),
    MaybeInner(Option<Value>),
}

/// An object of these members, whose names ascend.
pub(crate) fn object(alloc: Global, members: Vec<(&str, Member<'_>)>) -> Result<Value, AllocError>
    requires { IsTrue (ascends members.items) }
    ensures { IfOk result (λ value. view value ≡ object_of (members_data members.entry.items)) }
{
    let mut map = Map::new(alloc);
    for (name, member) in members {
        if let Some(value) = member_value(alloc, member)? {
            put(&mut map, alloc, name, value)?;
        }
    }
    Ok(Value::Object(map))
}

fn member_value(alloc: Global, member: Member<'_>) -> Result<Option<Value>, AllocError>
    ensures { IfOk result (λ value. option_map view value ≡ member_data member.entry) }
{
    match member {
        Member::Flag(flag) => Ok(Some(Value::from(flag))),
        Member::Count(number) => Ok(Some(Value::from(number))),
        Member::Integer(number) => Ok(Some(Value::from(number))),
        Member::Words(words) => Ok(Some(Value::try_from_str(alloc, words)?)),
        Member::Items(items) => Ok(Some(Value::Array(items))),
        Member::Inner(value) => Ok(Some(value)),
        Member::MaybeCount(Some(number)) => Ok(Some(Value::from(number))),
        Member::MaybeText(Some(text)) => Ok(Some(Value::try_from_str(alloc, text.as_str())?)),
        Member::MaybeWords(Some(words)) => Ok(Some(Value::try_from_str(alloc, words)?)),
        Member::MaybeInner(Some(value)) => Ok(Some(value)),
        _ => Ok(None),
    }
}
