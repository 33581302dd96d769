//! Sources and sinks that move a few bytes a call, and fail.

use rl_base::memory::{MemSink, MemSource};
use rl_unit::run::{Status, run};
use std::alloc::Global;
use std::test::Fail;

/// `() => 1`.
pub const UNIT: &[u8; 64] = b"(unit [] (program [(expr (arrow y n (params [] -) (num \"1\")))]))";

/// The listing of `UNIT`, and a line feed.
const LISTING: &[u8] =
    b"(lowered (fn (at 25 60) - \"other\" n n [] [] [] (p 2 -) 0 [(block 0 \"block\" [0] (return 2 - \"implicit\" (p 0 (at 50 59))) [])] [(i 1 (p 0 (at 50 59)) (at 50 59) (primitive (number 1))) (i 0 (p 1 -) - (primitive (undefined)))]) [] [(ident - (at 50 59) 0) (ident - - 1) (ident - (at 25 60) 2)] [])\n";

/// `() => 1.5`.
const REFUSED: &[u8; 66] = b"(unit [] (program [(expr (arrow y n (params [] -) (num \"1.5\")))]))";

/// The command line `lower`.
pub fn command(alloc: Global) -> Result<Vec<String>, Fail> {
    let mut words = Vec::new(alloc);
    words.push(String::from_str(alloc, "lower")?)?;
    Ok(words)
}

#[test]
fn reads_and_writes_in_pieces(rt: HostRuntime) -> Result<(), Fail> {
    let alloc = rt.alloc();
    let words = command(alloc)?;
    let mut source = MemSource::new(Vec::from_slice(alloc, UNIT)?, 1, Vec::new(alloc));
    let mut sink = MemSink::new(alloc, 1, Vec::new(alloc));
    let status = run(alloc, words.as_slice(), &mut source, &mut sink);
    assert_eq!(rt; status, Status::Done);
    assert_eq!(rt; sink.held(), LISTING);
    Ok(())
}

#[test]
fn ends_where_the_sink_fails_in_a_listing(rt: HostRuntime) -> Result<(), Fail> {
    let alloc = rt.alloc();
    let words = command(alloc)?;
    let mut source = MemSource::new(Vec::from_slice(alloc, UNIT)?, 7, Vec::new(alloc));
    let mut sink = MemSink::new(alloc, 16, vec![in alloc; 1]?);
    let status = run(alloc, words.as_slice(), &mut source, &mut sink);
    assert_eq!(rt; status, Status::WriteFault);
    assert_eq!(rt; sink.held(), b"(lowered (fn (at".as_slice());
    Ok(())
}

#[test]
fn ends_where_the_sink_fails_in_a_report(rt: HostRuntime) -> Result<(), Fail> {
    let alloc = rt.alloc();
    let words = command(alloc)?;
    let mut source = MemSource::new(Vec::from_slice(alloc, REFUSED)?, 7, Vec::new(alloc));
    let mut sink = MemSink::new(alloc, 16, vec![in alloc; 1]?);
    let status = run(alloc, words.as_slice(), &mut source, &mut sink);
    assert_eq!(rt; status, Status::WriteFault);
    assert_eq!(rt; sink.held(), b"F43 Todo 50..61 ".as_slice());
    Ok(())
}

#[test]
fn ends_where_the_source_fails(rt: HostRuntime) -> Result<(), Fail> {
    let alloc = rt.alloc();
    let words = command(alloc)?;
    for call in [0, 1, 9] {
        let mut source = MemSource::new(Vec::from_slice(alloc, UNIT)?, 7, vec![in alloc; call]?);
        let mut sink = MemSink::new(alloc, 16, Vec::new(alloc));
        let status = run(alloc, words.as_slice(), &mut source, &mut sink);
        assert_eq!(rt; status, Status::ReadFault, "call {call}");
        assert!(rt; sink.held().is_empty(), "call {call}");
    }
    Ok(())
}
