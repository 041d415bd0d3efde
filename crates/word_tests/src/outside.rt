//! Each shelf and each sink once; what no clause can see behind the system's.
use smps_io::{
    MemoryShelf, MemorySink, NeverFails, RealShelf, RealSink, Shelf, ShelfFault, Sink, SinkFault,
};
use std::alloc::{AllocError, Global};
use std::fs;
use std::process::Abort;
use std::rt::Runtime;
use std::test::Fail;

/// A file `a` of five bytes.
fn files(alloc: Global) -> Result<Vec<(String, Vec<u8>)>, AllocError> {
    let file = (String::from_str(alloc, "a")?, b"bytes".to_vec(alloc)?);
    Ok(vec![in alloc; file]?)
}

/// A shelf that fails at its second fetch gives a file, and refuses what it doesn't hold and what is too long.
fn a_shelf_in_memory(rt: &(impl Runtime + Abort), alloc: Global) -> Result<(), Fail> {
    let mut shelf = MemoryShelf::new(alloc, files(alloc)?, vec![in alloc; 2u64]?);
    let first = shelf.fetch(rt, alloc, "a", 5)?;
    assert!(rt; first.as_slice() == b"bytes".as_slice());
    assert!(rt; shelf.fetch(rt, alloc, "a", 5).err() == Some(ShelfFault::Failed));
    assert!(rt; shelf.fetch(rt, alloc, "b", 5).err() == Some(ShelfFault::Failed));
    assert!(rt; shelf.fetch(rt, alloc, "a", 4).err() == Some(ShelfFault::TooLong));
    Ok(())
}

/// An unknown file of a shelf that never fails is empty.
fn a_sure_shelf(rt: &(impl Runtime + Abort), alloc: Global) -> Result<(), Fail> {
    let mut sure = NeverFails::new(alloc, files(alloc)?);
    assert!(rt; sure.fetch(rt, alloc, "b", 0)?.is_empty());
    Ok(())
}

/// The system's shelf gives a file that was written, and refuses what is too long and what isn't there.
fn a_real_shelf(rt: &(impl Runtime + Abort), alloc: Global) -> Result<(), Fail> {
    let mut real = RealShelf::new(alloc);
    let text = real.fetch(rt, alloc, "shelf.txt", 7)?;
    assert!(rt; text.as_slice() == b"a line\n".as_slice());
    assert!(rt; real.fetch(rt, alloc, "shelf.txt", 6).err() == Some(ShelfFault::TooLong));
    assert!(rt; real.fetch(rt, alloc, "no such file", 6).err() == Some(ShelfFault::Failed));
    Ok(())
}

#[test]
fn shelves_give_fail_and_refuse(rt: HostRuntime) -> Result<(), Fail> {
    a_shelf_in_memory(&rt, rt.alloc())?;
    a_sure_shelf(&rt, rt.alloc())?;
    fs::write(&rt, "shelf.txt", "a line\n")?;
    a_real_shelf(&rt, rt.alloc())
}

/// A sink that takes two bytes a call and fails at its third one.
fn a_sink_in_memory(rt: &(impl Runtime + Abort), alloc: Global) -> Result<(), Fail> {
    let mut sink = MemorySink::new(alloc, 2, vec![in alloc; 3u64]?);
    assert!(rt; sink.put(rt, b"whole")? == 2);
    assert!(rt; sink.put(rt, b"ole")? == 2);
    assert!(rt; sink.put(rt, b"e").err() == Some(SinkFault::Failed));
    assert!(rt; sink.bytes() == b"whol".as_slice());
    assert!(rt; sink.put(rt, b"e")? == 1);
    assert!(rt; sink.bytes() == b"whole".as_slice());
    Ok(())
}

#[test]
fn sinks_take_bytes_in_pieces(rt: HostRuntime) -> Result<(), Fail> {
    a_sink_in_memory(&rt, rt.alloc())?;
    let mut real = RealSink::new();
    real.put(&rt, b"standard output\n")?;
    Ok(())
}
