//! What holds of a world that grows row by row. Each law is a contract over all worlds.
ghost use Rattle.std.specs.Prelude.{◌≡◌, true, false};
ghost use Rattle.jdwp_values.specs.declared.sizes.IdSizes.{IdSizes};
ghost use Rattle.world_model.specs.declared.rows.Put.{Put};
ghost use Rattle.world_model.specs.declared.rows.WorldArray.{WorldArray};
ghost use Rattle.world_model.specs.declared.rows.WorldClass.{WorldClass};
ghost use Rattle.world_model.specs.declared.rows.WorldField.{WorldField};
ghost use Rattle.world_model.specs.declared.rows.WorldFrame.{WorldFrame};
ghost use Rattle.world_model.specs.declared.rows.WorldMethod.{WorldMethod};
ghost use Rattle.world_model.specs.declared.rows.WorldObject.{WorldObject};
ghost use Rattle.world_model.specs.declared.rows.WorldString.{WorldString};
ghost use Rattle.world_model.specs.declared.rows.WorldThread.{WorldThread};
ghost use Rattle.world_model.specs.declared.rows.WorldVariable.{WorldVariable};
ghost use Rattle.world_model.specs.declared.world.World.{World};
ghost use Rattle.world_model.specs.Sound.{IsSound};
ghost use Rattle.script_worlds.specs.Given.{is_class, is_method, is_field, is_object, is_frame};
ghost use Rattle.script_worlds.specs.Growing.{IsGrowing, HasChains, empty_world, with_class, with_method, with_field};
ghost use Rattle.script_worlds.specs.Growing.{with_variable, with_object, with_array, with_string, with_put};
ghost use Rattle.script_worlds.specs.Growing.{with_thread, with_frame};
ghost use Rattle.script_worlds.specs.Shapes.{class_fits, method_fits, field_fits, object_fits, array_fits, has_elements};
ghost use Rattle.script_worlds.specs.Shapes.{string_fits, field_value_fits, thread_fits, frame_fits, has_room};

/// A world of which nothing was said but how many bytes ids take stays sound as rows are added that fit it and give new
/// ids, but that chains of classes may be open.
pub fn a_world_stays_sound_as_it_grows()
    ensures empty { (sizes : IdSizes) → IsGrowing (empty_world sizes) }
    ensures class { (w : World) (row : WorldClass) → IsGrowing w → class_fits w.sizes row ≡ true
        → is_class w row.id ≡ false → IsGrowing (with_class w row) }
    ensures method { (w : World) (row : WorldMethod) → IsGrowing w → method_fits w.sizes row ≡ true
        → is_method w row.class row.method.id ≡ false → IsGrowing (with_method w row) }
    ensures variable { (w : World) (row : WorldVariable) → IsGrowing w → IsGrowing (with_variable w row) }
    ensures field { (w : World) (row : WorldField) → IsGrowing w → field_fits w.sizes row ≡ true
        → is_field w row.class row.field.id ≡ false → IsGrowing (with_field w row) }
    ensures object { (w : World) (row : WorldObject) → IsGrowing w → object_fits w.sizes row ≡ true
        → is_object w row.id ≡ false → IsGrowing (with_object w row) }
    ensures array { (w : World) (row : WorldArray) → IsGrowing w → array_fits w.sizes row ≡ true
        → has_elements w row ≡ true → is_object w row.id ≡ false → is_class w row.class ≡ true
        → IsGrowing (with_array w row) }
    ensures string { (w : World) (row : WorldString) → IsGrowing w → string_fits w.sizes row ≡ true
        → is_object w row.id ≡ false → IsGrowing (with_string w row) }
    ensures put { (w : World) (row : Put) → IsGrowing w
        → field_value_fits w.sizes row.object row.field row.value ≡ true → IsGrowing (with_put w row) }
    ensures thread { (w : World) (row : WorldThread) → IsGrowing w → thread_fits w.sizes row.id ≡ true
        → is_object w (record { 0 = row.id.0 }) ≡ false → IsGrowing (with_thread w row) }
    ensures frame { (w : World) (row : WorldFrame) → IsGrowing w → frame_fits w.sizes row ≡ true
        → has_room w row.thread ≡ true → is_frame w row.id ≡ false → is_method w row.class row.method ≡ true
        → IsGrowing (with_frame w row) }
{}

/// Such a world is sound where each chain of classes ends.
pub fn a_world_whose_chains_end_is_sound()
    ensures { (w : World) → IsGrowing w → HasChains w → IsSound w }
{}
