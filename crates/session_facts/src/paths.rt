//! The paths under which the client listed breakpoints of sources.
ghost use Rattle.std.specs.Prelude.{◌≡◌, ◌<◌, ◌∷◌, ◌++◌, [], bytes_eq, length, option_copied, IfSome, OnOk};
ghost use Rattle.std.specs.List.{position_from};
ghost use Rattle.class_tables.specs.Tables.{put};
ghost use Rattle.machine_model.specs.Frames.{path_listed};
ghost use Rattle.wish_sets.specs.Names.{key_parts, same_key};

use std::alloc::Global;
use std::marker::Model;
use std::mem;
use wire_core::{NoMemory, Text};
use wish_sets::{key_file, key_package};

/// The path under which the client listed breakpoints of a source last, by the key of the source, in the order in which
/// the keys came.
#[derive(Drop)]
pub struct Paths {
    listed: Vec<(Text, Text)>,
}

impl Model for Paths {
    ghost use Rattle.std.specs.Prelude.{ℕ, List};

    ghost Value = { List (List ℕ × List ℕ) };

    ghost view = { λ p. p.listed.items };
}

// The place of a key.
fn place_of(listed: &[(Text, Text)], key: &Text) -> Option<usize>
    ensures place { result ≡ position_from (λ entry. bytes_eq key.now entry.0) 0 listed.now }
    ensures within { IfSome result (λ place. place < length listed.now) }
{
    listed
        .iter()
        .position(|entry| key.as_bytes() == entry.0.as_bytes())
}

// Whether a key is that of a source, by the folder of its package and its file.
fn is_key_of(key: &Text, folder: &[u8], file: &[u8]) -> bool
    ensures { result ≡ same_key (key_parts key.now) (record { package_path = folder.now; file = file.now }) }
{
    key_package(key) == folder && key_file(key) == file
}

// A path under its key, behind those that were listed.
fn add(listed: &mut Vec<(Text, Text)>, key: Text, path: Text) -> Result<(), NoMemory>
    ensures { OnOk result (listed.new.items ≡ listed.old.items ++ (key, path) ∷ []) }
{
    listed.push((key, path))?;
    Ok(())
}

impl Paths {
    /// No path was listed; it takes no memory.
    pub fn new(alloc: Global) -> Paths
        ensures { result ≡ [] }
    {
        Paths {
            listed: Vec::new(alloc),
        }
    }

    /// The client lists breakpoints of a source under this path. `NoMemory` comes where memory is refused.
    pub fn put(&mut self, alloc: Global, key: &Text, path: Text) -> Result<(), NoMemory>
        ensures { OnOk result (self.new ≡ put bytes_eq key.now path self.old) }
    {
        match place_of(self.listed.as_slice(), key) {
            Some(place) => {
                let _ = mem::replace(&mut self.listed[place].1, path);
                Ok(())
            }
            None => {
                let key = Text::from_str(alloc, key.as_str())?;
                add(&mut self.listed, key, path)?;
                Ok(())
            }
        }
    }

    /// The path under which breakpoints of a source were listed last, by the folder of its package
    /// and its file.
    pub fn listed(&self, folder: &[u8], file: &[u8]) -> Option<&Text>
        ensures { option_copied result
            ≡ path_listed (record { package_path = folder.now; file = file.now }) self.now }
    {
        for (key, path) in &self.listed {
            if is_key_of(key, folder, file) {
                return Some(path);
            }
        }
        None
    }
}
