// The wire in memory. Which calls fail, and what the others give, the clauses say: here calls that
// aren't to fail succeed.
use crate::{Fault, MemWire, Wire};
use std::alloc::{AllocError, Global};
use std::fmt::Debug;
use std::test::Fail;

// A call on a wire, whose call 8 fails, and its answer. Its connections give the texts abc and d, and
// none.
const CALLS: &str = "\
open h:3|Ok(())
send xy|Ok(())
receive|Ok(2) [97, 98]
receive|Ok(1) [99, 0]
receive|Ok(1) [100, 0]
receive|Ok(0) [0, 0]
close|1
listen h:2|Ok(())
accept|Err(Failed)
accept|Ok(())
receive|Ok(0) [0, 0]
send|Ok(())
close|2
";

fn debug<T: Debug>(alloc: Global, value: &T) -> Result<String, AllocError> {
    format!(in alloc; "{value:?}")
}

fn receive(alloc: Global, wire: &mut MemWire) -> Result<String, Fail> {
    let mut into = [0u8; 2];
    if !wire.is_open() {
        return Err(Fail::from("closed"));
    }
    let answer = wire.receive(&mut into);
    Ok(format!(in alloc; "{answer:?} {into:?}")?)
}

fn call(alloc: Global, wire: &mut MemWire, call: &str) -> Result<String, Fail> {
    let (verb, rest) = call.split_once(' ').unwrap_or((call, ""));
    let answer: Result<(), Fault> = match (verb, wire.is_open()) {
        ("listen", _) => wire.listen(rest),
        ("accept", false) => wire.accept(),
        ("open", false) => wire.open(rest),
        ("send", true) => wire.send(rest.as_bytes()),
        ("receive", _) => return receive(alloc, wire),
        ("close", _) => {
            wire.close();
            return Ok(debug(alloc, &wire.connection_count())?);
        }
        _ => return Err(Fail::from("no call")),
    };
    Ok(debug(alloc, &answer)?)
}

fn script(alloc: Global, pieces: &str) -> Result<Vec<Vec<u8>>, AllocError> {
    let mut script = Vec::new(alloc);
    for piece in pieces.split(' ') {
        script.push(piece.as_bytes().to_vec(alloc)?)?;
    }
    Ok(script)
}

#[test]
fn a_wire_in_memory(rt: HostRuntime) -> Result<(), Fail> {
    let alloc = rt.alloc();
    let scripts = vec![in alloc; script(alloc, " abc   d")?, script(alloc, "")?]?;
    let mut wire = MemWire::new(alloc, scripts, vec![in alloc; 8]?);
    for row in CALLS.lines() {
        let (row, want) = row.split_once('|').ok_or("a row")?;
        let answer = call(alloc, &mut wire, row)?;
        assert_eq!(rt; answer.as_str(), want, "{row}");
    }
    Ok(())
}
