use std::alloc::{AllocError, AllocFailed};
use std::test::Fail;
use wire_core::{Blob, List, MemoryOutput, NoMemory, OutRefusal, Output};

#[test]
fn a_list_has_what_was_added(rt: HostRuntime) -> Result<(), Fail> {
    let mut list = List::new(rt.alloc());
    assert!(rt; list.is_empty());
    assert_eq!(rt; list.len(), 0);
    list.push(7)?;
    list.extend_from_slice(&[8, 9])?;
    assert_eq!(rt; list.as_slice(), [7, 8, 9].as_slice());
    assert_eq!(rt; list.len(), 3);
    assert!(rt; !list.is_empty());
    Ok(())
}

#[test]
fn a_list_is_made_of_a_slice_or_a_vector(rt: HostRuntime) -> Result<(), Fail> {
    let copied = Blob::from_slice(rt.alloc(), b"abc")?;
    assert_eq!(rt; copied.as_slice(), b"abc".as_slice());
    let kept = List::from_vec(vec![in rt.alloc(); 7; 2]?);
    assert_eq!(rt; kept.as_slice(), [7, 7].as_slice());
    Ok(())
}

#[test]
fn refused_memory_is_told(rt: HostRuntime) -> Result<(), Fail> {
    assert_eq!(rt; NoMemory::from(AllocFailed { value: 7 }), NoMemory);
    let refused = NoMemory::from(AllocError);
    assert_eq!(rt; refused, NoMemory);
    let told = format!(in rt.alloc(); "{refused}")?;
    assert_eq!(rt; told.as_str(), "out of memory");
    Ok(())
}

#[test]
fn a_failing_call_writes_nothing(rt: HostRuntime) -> Result<(), Fail> {
    let mut failing = List::new(rt.alloc());
    failing.push(1)?;
    let mut out = MemoryOutput::new(rt.alloc(), failing);
    assert_eq!(rt; out.write(b"one "), Ok(()));
    assert_eq!(rt; out.write(b"two "), Err(OutRefusal::Failed));
    assert_eq!(rt; out.write(b"three"), Ok(()));
    assert_eq!(rt; out.bytes().as_slice(), b"one three".as_slice());
    Ok(())
}
