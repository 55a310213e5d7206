ghost use Rattle.std.specs.Prelude.{◌≡◌, true, false, Some, MatchResult, [], ◌∷◌, position};
ghost use Rattle.jdwp_values.specs.Sizes.{IsSize, is_no_size};

/// How many bytes an id of each kind takes (JDWP, VirtualMachine command set, IDSizes): from 1 to 8.
#[derive(Clone, Copy, Debug, PartialEq, Eq)]
pub struct IdSizes {
    pub field: u8,
    pub method: u8,
    pub object: u8,
    pub class: u8,
    pub frame: u8,
    ghost field_is_size: { IsSize field },
    ghost method_is_size: { IsSize method },
    ghost object_is_size: { IsSize object },
    ghost class_is_size: { IsSize class },
    ghost frame_is_size: { IsSize frame },
}

/// A size of ids outside 1 to 8: the first such, by its place from 0.
#[derive(Clone, Copy, Debug, PartialEq, Eq)]
pub struct BadSizes(pub u32);

impl IdSizes {
    /// The sizes of a field's, a method's, an object's, a reference type's and a frame's id, in this order. `BadSizes`
    /// comes exactly where one is outside 1 to 8 (JDWP, VirtualMachine command set, IDSizes).
    pub fn new(sizes: [u32; 5]) -> Result<IdSizes, BadSizes>
        ensures ok { MatchResult result (λ s. sizes ≡ s.field ∷ s.method ∷ s.object ∷ s.class ∷ s.frame ∷ [])
            (λ bad. position is_no_size sizes ≡ Some bad.0) }
    {
        let [field, method, object, class, frame] = sizes;
        Ok(IdSizes {
            field: size_at(field, 0)?,
            method: size_at(method, 1)?,
            object: size_at(object, 2)?,
            class: size_at(class, 3)?,
            frame: size_at(frame, 4)?,
        })
    }
}

fn size_at(size: u32, place: u32) -> Result<u8, BadSizes>
    ensures { MatchResult result (λ n. (n ≡ size) × IsSize n × (is_no_size size ≡ false))
        (λ bad. (bad.0 ≡ place) × (is_no_size size ≡ true)) }
{
    if size == 0 || size > 8 {
        return Err(BadSizes(place));
    }
    Ok(size as u8)
}
