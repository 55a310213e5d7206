//! Copies of what is sent, which is also kept.
ghost use Rattle.std.specs.Prelude.{◌≡◌, IfOk};

use machine_model::Effect;
use std::alloc::Global;
use wire_core::{List, NoMemory, Text};
use wish_sets::Wish;

/// A copy of a wish. `NoMemory` comes where memory is refused.
pub fn wish_copy(alloc: Global, wish: &Wish) -> Result<Wish, NoMemory>
    ensures { IfOk result (λ copy. copy ≡ wish.now) }
{
    match wish {
        Wish::ThreadStart => Ok(Wish::ThreadStart),
        Wish::ThreadDeath => Ok(Wish::ThreadDeath),
        Wish::Watch(package) => Ok(Wish::Watch(Text::from_str(alloc, package.as_str())?)),
        Wish::Stop(at) => Ok(Wish::Stop(*at)),
        Wish::Thrown { caught, uncaught } => Ok(Wish::Thrown {
            caught: *caught,
            uncaught: *uncaught,
        }),
        Wish::Step { thread, depth } => Ok(Wish::Step {
            thread: *thread,
            depth: *depth,
        }),
    }
}

/// A copy of an effect. `NoMemory` comes where memory is refused.
pub fn effect_copy(alloc: Global, effect: &Effect) -> Result<Effect, NoMemory>
    ensures { IfOk result (λ copy. copy ≡ effect.now) }
{
    match effect {
        Effect::Does(deed) => Ok(Effect::Does(*deed)),
        Effect::Set(wish) => Ok(Effect::Set(wish_copy(alloc, wish)?)),
        Effect::Clear { wish, request } => Ok(Effect::Clear {
            wish: wish_copy(alloc, wish)?,
            request: *request,
        }),
    }
}

/// Copies of texts, in their order. `NoMemory` comes where memory is refused.
pub fn text_copies(alloc: Global, texts: &[Text]) -> Result<List<Text>, NoMemory>
    ensures { IfOk result (λ copies. copies ≡ texts.now) }
{
    let mut copies = List::new(alloc);
    for text in texts {
        copies.push(Text::from_str(alloc, text.as_str())?)?;
    }
    Ok(copies)
}
