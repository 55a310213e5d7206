ghost use Rattle.std.specs.Prelude.{◌≡◌, OnOk, OnErr, IfOk, filter_map, option_copied, option_map};
ghost use Rattle.class_tables.specs.Facts.{nothing, with_fact, is_loaded, has_source, has_methods, has_lines};
ghost use Rattle.class_tables.specs.Facts.{has_variables, has_fields, is_below};
ghost use Rattle.class_tables.specs.Lookups.{found_in};
ghost use Rattle.class_tables.specs.Views.{nth_in, class_in, facts_of, facts_shown, key_in, key_shown, line_in};
ghost use Rattle.class_tables.specs.Views.{binding_entries, location_in, locations_in};

use crate::lines::line_start;
use crate::loaded::{Loaded, is_prepared, signature_of, stays_prepared, tag_of};
use crate::method_lines::{MethodLines, given, kept};
use crate::table::Table;
use crate::view::{ClassView, KeyView, key_view};
use jdwp_values::{ClassId, Field, Line, LineTable, Location, Method, MethodId, TypeTag, Variable};
use std::alloc::Global;
use std::marker::Model;
use wire_core::{Blob, List, NoMemory};

/// What is known of a target's classes: for each fact of a class or of a method what was learnt last.
///
/// Contracts see a table for each kind of fact, its keys in the order in which they came.
#[derive(Debug, Drop)]
pub struct Classes {
    loaded: Table<ClassId, Loaded>,
    sources: Table<ClassId, Option<Blob>>,
    methods: Table<ClassId, List<Method>>,
    lines: Table<(ClassId, MethodId), Option<MethodLines>>,
    variables: Table<(ClassId, MethodId), Option<List<Variable>>>,
    fields: Table<ClassId, List<Field>>,
    supers: Table<ClassId, ClassId>,
    alloc: Global,
}

impl Model for Classes {
    ghost use Rattle.class_tables.specs.Facts.{Known};

    ghost Value = { Known };

    ghost view = { λ c. record {
      loaded = c.loaded;
      sources = c.sources;
      methods = c.methods;
      lines = c.lines;
      variables = c.variables;
      fields = c.fields;
      supers = c.supers;
    } };
}

impl Classes {
    /// Tables in which nothing is known; they take no memory.
    pub fn new(alloc: Global) -> Classes
        ensures { result ≡ nothing }
    {
        Classes {
            loaded: Table::new(alloc),
            sources: Table::new(alloc),
            methods: Table::new(alloc),
            lines: Table::new(alloc),
            variables: Table::new(alloc),
            fields: Table::new(alloc),
            supers: Table::new(alloc),
            alloc,
        }
    }

    /// Learns a class's tag and signature, and whether it is prepared; a class that was prepared stays so. Where memory
    /// is refused all stays as it was (JDWP, VirtualMachine command set, AllClasses; JDWP, Event command set,
    /// Composite, ClassPrepare).
    pub fn learn(
        &mut self,
        class: ClassId,
        tag: TypeTag,
        signature: Blob,
        prepared: bool,
    ) -> Result<(), NoMemory>
        ensures ok { OnOk result (self.new ≡ with_fact (is_loaded class tag signature prepared) self.old) }
        ensures err { OnErr result (self.new ≡ self.old) }
    {
        let prepared = stays_prepared(self.loaded.get(class), prepared);
        let loaded = Loaded {
            tag,
            signature,
            prepared,
        };
        self.loaded.put(class, loaded)
    }

    /// Learns the name of a class's source file, or that it has none. Where memory is refused all stays as it was
    /// (JDWP, ReferenceType command set, SourceFile).
    pub fn learn_source(&mut self, class: ClassId, source: Option<Blob>) -> Result<(), NoMemory>
        ensures ok { OnOk result (self.new ≡ with_fact (has_source class source) self.old) }
        ensures err { OnErr result (self.new ≡ self.old) }
    {
        self.sources.put(class, source)
    }

    /// Learns a class's methods. Where memory is refused all stays as it was (JDWP, ReferenceType command set,
    /// Methods).
    pub fn learn_methods(&mut self, class: ClassId, methods: List<Method>) -> Result<(), NoMemory>
        ensures ok { OnOk result (self.new ≡ with_fact (has_methods class methods) self.old) }
        ensures err { OnErr result (self.new ≡ self.old) }
    {
        self.methods.put(class, methods)
    }

    /// Learns a method's lines, or that it has none. Where memory is refused all stays as it was (JDWP, Method command
    /// set, LineTable).
    pub fn learn_lines(
        &mut self,
        class: ClassId,
        method: MethodId,
        lines: Option<LineTable>,
    ) -> Result<(), NoMemory>
        ensures ok { OnOk result (self.new ≡ with_fact (has_lines class method lines) self.old) }
        ensures err { OnErr result (self.new ≡ self.old) }
    {
        let lines = kept(self.alloc, lines)?;
        self.lines.put((class, method), lines)
    }

    /// Learns a method's variables, or that it has none. Where memory is refused all stays as it was (JDWP, Method
    /// command set, VariableTable).
    pub fn learn_variables(
        &mut self,
        class: ClassId,
        method: MethodId,
        variables: Option<List<Variable>>,
    ) -> Result<(), NoMemory>
        ensures ok { OnOk result (self.new ≡ with_fact (has_variables class method variables) self.old) }
        ensures err { OnErr result (self.new ≡ self.old) }
    {
        self.variables.put((class, method), variables)
    }

    /// Learns a class's fields. Where memory is refused all stays as it was (JDWP, ReferenceType command set, Fields).
    pub fn learn_fields(&mut self, class: ClassId, fields: List<Field>) -> Result<(), NoMemory>
        ensures ok { OnOk result (self.new ≡ with_fact (has_fields class fields) self.old) }
        ensures err { OnErr result (self.new ≡ self.old) }
    {
        self.fields.put(class, fields)
    }

    /// Learns the class that a class extends. Where memory is refused all stays as it was (JDWP, ClassType command set,
    /// Superclass).
    pub fn learn_super(&mut self, class: ClassId, above: ClassId) -> Result<(), NoMemory>
        ensures ok { OnOk result (self.new ≡ with_fact (is_below class above) self.old) }
        ensures err { OnErr result (self.new ≡ self.old) }
    {
        self.supers.put(class, above)
    }

    /// The class at a place, from 0, among those that were learnt, in the order in which they were first learnt.
    pub fn nth(&self, place: usize) -> Option<ClassId>
        ensures { result ≡ nth_in (found_in self.now) place }
    {
        self.loaded.key_at(place)
    }

    /// What is known of a class; `None` exactly where none of its facts was learnt, lines and variables aside.
    pub fn class(&self, class: ClassId) -> Option<ClassView<'_>>
        ensures { option_map facts_shown result ≡ class_in (found_in self.now) class }
    {
        let view = self.view(class);
        if view.has_any() { Some(view) } else { None }
    }

    // The facts of a class, of which none may have been learnt.
    fn view(&self, class: ClassId) -> ClassView<'_>
        ensures { facts_shown result ≡ facts_of (found_in self.now) class }
    {
        let loaded = self.loaded.get(class);
        ClassView {
            tag: tag_of(loaded),
            signature: signature_of(loaded),
            prepared: is_prepared(loaded),
            source: file_of(self.sources.get(class)),
            methods: self.methods.get(class),
            fields: self.fields.get(class),
            above: self.supers.get(class).copied(),
        }
    }

    /// The lines of a method: `None` exactly where they were not learnt, `Some(None)` where they are absent.
    pub fn lines(&self, class: ClassId, method: MethodId) -> Option<Option<&LineTable>>
        ensures { option_map option_copied result ≡ (found_in self.now).lines class method }
    {
        given(self.lines.get((class, method)))
    }

    /// The variables of a method: `None` exactly where they were not learnt, `Some(None)` where they are absent.
    pub fn variables(&self, class: ClassId, method: MethodId) -> Option<Option<&List<Variable>>>
        ensures { option_map option_copied result ≡ (found_in self.now).variables class method }
    {
        let variables = self.variables.get((class, method))?;
        Some(variables.as_ref())
    }

    /// The key of a class; `None` exactly where its source is not known or its signature is not that of a class (JDWP,
    /// ReferenceType command set, Signature and SourceFile).
    pub fn key_of(&self, class: ClassId) -> Option<KeyView<'_>>
        ensures { option_map key_shown result ≡ key_in (found_in self.now) class }
    {
        key_view(self.loaded.get(class), self.sources.get(class))
    }

    /// The line of a location: that of the entry with the greatest index not above it, the last of ties; `None` exactly
    /// where no entry of a known line table is at or below it (JDWP, Method command set, LineTable).
    pub fn line_of(&self, location: Location) -> Option<i32>
        ensures { result ≡ line_in (found_in self.now) location }
    {
        let lines = self.lines.get((location.class, location.method))?;
        let entry = lines.as_ref()?.entry_at(location.index)?;
        Some(entry.line)
    }

    /// The locations of a line in a class: for each method that has an entry of the line, in the order of the methods,
    /// the least code index of such entries; a native method has none, nor has a class that was not learnt or whose
    /// methods were not. `NoMemory` comes where memory is refused (JDWP, Method command set, LineTable; JDWP, Detailed
    /// Command Information, common data types, location).
    pub fn locations(
        &self,
        alloc: Global,
        class: ClassId,
        line: i32,
    ) -> Result<List<Location>, NoMemory>
        ensures { IfOk result (λ found. found ≡ locations_in (found_in self.now) class line) }
    {
        match (self.loaded.get(class), self.methods.get(class)) {
            (Some(loaded), Some(methods)) => {
                self.locations_among(alloc, class, loaded.tag, line, methods.as_slice())
            }
            _ => Ok(List::new(alloc)),
        }
    }

    // Where a line begins in each of these methods that has an entry of it, in their order.
    fn locations_among(
        &self,
        alloc: Global,
        class: ClassId,
        tag: TypeTag,
        line: i32,
        methods: &[Method],
    ) -> Result<List<Location>, NoMemory>
        ensures { IfOk result (λ found.
            found ≡ filter_map (λ method. location_in (found_in self.now) class tag line method.id) methods.now) }
    {
        let mut found = List::new(alloc);
        for method in methods {
            if let Some(location) = self.location_in(class, tag, line, method.id) {
                found.push(location)?;
            }
        }
        Ok(found)
    }

    // Where a line begins in a method of a class, if the method has an entry of it.
    fn location_in(
        &self,
        class: ClassId,
        tag: TypeTag,
        line: i32,
        method: MethodId,
    ) -> Option<Location>
        ensures { result ≡ location_in (found_in self.now) class tag line method }
    {
        let entries = binding_entries(self.lines(class, method));
        let index = line_start(line, entries)?;
        Some(Location {
            tag,
            class,
            method,
            index,
        })
    }
}

// The file of a source, where the source is known.
fn file_of(source: Option<&Option<Blob>>) -> Option<Option<&Blob>>
    ensures { option_map option_copied result ≡ option_copied source.entry }
{
    Some(source?.as_ref())
}

// The entries that a breakpoint may bind to: none in a native method.
fn binding_entries(lines: Option<Option<&LineTable>>) -> &[Line]
    ensures { result.now ≡ binding_entries (option_map option_copied lines.entry) }
{
    match lines {
        Some(Some(table)) if table.start >= 0 => table.lines.as_slice(),
        _ => &[],
    }
}
