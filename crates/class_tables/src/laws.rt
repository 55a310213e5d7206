//! What the look-ups tell of a whole session. Each law is a contract over all of them.
ghost use Rattle.std.specs.Prelude.{◌≡◌, ◌<◌, ℕ, ℤ, ◌↔◌, [], ◌++◌, List, codes, None, Some, Contains};
ghost use Rattle.std.specs.List.{AllByRecursion};
ghost use Rattle.jdwp_values.specs.declared.class.Line.{Line};
ghost use Rattle.jdwp_values.specs.declared.id.ClassId.{ClassId};
ghost use Rattle.jdwp_values.specs.declared.id.MethodId.{MethodId};
ghost use Rattle.jdwp_values.specs.declared.location.Location.{Location};
ghost use Rattle.class_tables.specs.Facts.{Fact};
ghost use Rattle.class_tables.specs.Lines.{entry_at, line_start, IsEntryAt, IsLineStart};
ghost use Rattle.class_tables.specs.Lookups.{Lookups, found_in};
ghost use Rattle.class_tables.specs.Signatures.{package_in, HasNoSlash};
ghost use Rattle.class_tables.specs.Views.{nth_in, class_in, key_in, line_in, locations_in, IsLocationOf};
ghost use Rattle.class_tables.specs.Histories.{after, told_by};

/// Whatever was learnt over a session, and in whatever order, each look-up answers by what was learnt last under its
/// key, a class is prepared where it ever was, and the classes stand in the order in which they were first learnt.
pub fn each_look_up_scans_what_was_learnt()
    ensures nth { (history : List Fact) (place : ℕ)
        → nth_in (found_in (after history)) place ≡ nth_in (told_by history) place }
    ensures class { (history : List Fact) (class : ClassId)
        → class_in (found_in (after history)) class ≡ class_in (told_by history) class }
    ensures lines { (history : List Fact) (class : ClassId) (method : MethodId)
        → (found_in (after history)).lines class method ≡ (told_by history).lines class method }
    ensures variables { (history : List Fact) (class : ClassId) (method : MethodId)
        → (found_in (after history)).variables class method ≡ (told_by history).variables class method }
    ensures key_of { (history : List Fact) (class : ClassId)
        → key_in (found_in (after history)) class ≡ key_in (told_by history) class }
    ensures line_of { (history : List Fact) (location : Location)
        → line_in (found_in (after history)) location ≡ line_in (told_by history) location }
    ensures locations { (history : List Fact) (class : ClassId) (line : ℤ)
        → locations_in (found_in (after history)) class line ≡ locations_in (told_by history) class line }
{}

/// A code index belongs to the entry of the greatest index not above it, of ties to the last; to none just where all
/// entries are above it.
pub fn a_code_index_belongs_to_the_greatest_entry()
    ensures found { (index : ℕ) (entries : List Line) (entry : Line)
        → (entry_at index entries ≡ Some entry) ↔ IsEntryAt index entries entry }
    ensures none { (index : ℕ) (entries : List Line)
        → (entry_at index entries ≡ None) ↔ AllByRecursion (λ entry. index < entry.index) entries }
{}

/// A line begins at the least index of its entries; nowhere just where no entry is of it.
pub fn a_line_begins_at_its_least_index()
    ensures found { (line : ℤ) (entries : List Line) (start : ℕ)
        → (line_start line entries ≡ Some start) ↔ IsLineStart line entries start }
    ensures none { (line : ℤ) (entries : List Line)
        → (line_start line entries ≡ None) ↔ AllByRecursion (λ entry. ¬ (entry.line ≡ line)) entries }
{}

/// A class stands in the package whose path its signature has before the last `/`, else in the default package; a
/// signature that is no path between `L` and `;` has none.
pub fn a_class_stands_in_the_package_of_its_signature()
    ensures in_package { (above name : List ℕ) → HasNoSlash name
        → package_in (codes "L" ++ above ++ codes "/" ++ name ++ codes ";") ≡ Some above }
    ensures in_default_package { (name : List ℕ) → HasNoSlash name
        → package_in (codes "L" ++ name ++ codes ";") ≡ Some [] }
    ensures none { (signature : List ℕ) → (package_in signature ≡ None)
        ↔ ((path : List ℕ) → ¬ (signature ≡ codes "L" ++ path ++ codes ";")) }
{}

/// A location is one of a line just where it is of the class and of its tag, in one of its methods, and where the line
/// begins in the line table of the method, which is known and not that of a native one.
pub fn a_location_of_a_line_is_its_start_in_a_method()
    ensures { (known : Lookups) (class : ClassId) (line : ℤ) (location : Location)
        → Contains (locations_in known class line) location ↔ IsLocationOf known class line location }
{}
