use session_endings::Limits;
use std::alloc::Global;
use std::test::Fail;
use talk_state::key_of;
use wire_core::{List, NoMemory, Text};

// The key of a source, with one folder of sources.
fn key_under(alloc: Global, root: &str, path: &str) -> Result<Option<Text>, NoMemory> {
    let mut roots = List::new(alloc);
    roots.push(Text::from_str(alloc, root)?)?;
    key_of(alloc, roots.as_slice(), path)
}

#[test]
fn a_key_is_the_path_behind_its_folder(rt: HostRuntime) -> Result<(), Fail> {
    let table = [
        ("/p/src", "/p/src/a/B.java", Some("a/B.java")),
        ("/p/src/", "/p/src/a/B.java", Some("a/B.java")),
        ("C:\\src", "C:\\src\\a\\B.java", Some("a/B.java")),
        ("C:/src/", "C:\\src\\é\\B.java", Some("é/B.java")),
        ("/", "/a/B.java", Some("a/B.java")),
        ("/p/src", "/p/src/B.java", Some("B.java")),
        ("/p/src", "/p/srcs/B.java", None),
        ("/p/src", "/q/B.java", None),
        ("/p/src", "/p/src", None),
    ];
    for (root, path, key) in table {
        let found = key_under(rt.alloc(), root, path)?;
        assert_eq!(rt; found.as_ref().map(Text::as_str), key, "{path}");
    }
    Ok(())
}

#[test]
fn a_session_has_standard_limits(rt: HostRuntime) {
    let limits = Limits::standard();
    assert_eq!(rt; limits.turns, 1_099_511_627_776);
    assert_eq!(rt; limits.quiet, 43_200_000);
    assert_eq!(rt; limits.waiting, 65_536);
}
