// The objects over the system.
ghost use Rattle.std.specs.Prelude.{◌≡◌, true};

use crate::{Fault, Folder, RealFolder, Sink, StdSink, TcpWire, Wire};
use std::alloc::Global;
use std::io;
use std::io::{ErrorKind, Write};
use std::process::Command;
use std::test::Fail;

// Makes `tree`, with class files in two folders and files that are none; `deep`, with a class file in
// the last of 64 folders; `deeper`, with one there and one in a 65th; and `named`, with a name that
// isn't UTF-8.
const MAKE: &str = "\
rm -rf folders && mkdir -p folders/tree/in/side.class folders/named && cd folders
printf abc > tree/M.class
printf xy > tree/in/side.class/N.class
printf z > tree/in/other
inner=f; for i in $(seq 62); do inner=$inner/f; done
mkdir -p deep/$inner deeper/$inner/f
touch deep/$inner/D.class deeper/$inner/D.class deeper/$inner/f/D.class
touch \"$(printf 'named/M\\377.class')\"
";

fn run(rt: &HostRuntime, alloc: Global, script: &str) -> Result<bool, Fail> {
    let mut shell = Command::new(alloc, "sh")?;
    Ok(shell.arg("-c")?.arg(script)?.status(rt)?.success())
}

// How many class files a folder lists, and how many bytes their paths have.
fn count(
    alloc: Global,
    folder: &mut RealFolder<HostRuntime>,
    dir: &str,
) -> Result<(usize, usize), Fault> {
    let names = folder.names(alloc, dir)?;
    let mut len = 0usize;
    for name in &names {
        len = len.saturating_add(name.len());
    }
    Ok((names.len(), len))
}

#[test]
fn folders_of_the_system(rt: HostRuntime) -> Result<(), Fail> {
    let alloc = rt.alloc();
    let mut folder = RealFolder::new(rt.clone()?);
    assert!(rt; run(&rt, alloc, MAKE)?);
    for name in folder.names(alloc, "folders/tree")? {
        assert!(rt;
            matches!(name.as_str(), "M.class" | "in/side.class/N.class"),
            "{name}"
        );
    }
    for (dir, want) in [
        ("folders/tree", Ok((2, 28))),
        ("folders/deep", Ok((1, 133))),
        ("folders/deeper", Err(Fault::Failed)),
        ("folders/deeper/f", Ok((2, 264))),
        ("folders/named", Err(Fault::Failed)),
        ("", Err(Fault::Failed)),
        ("folders/none", Err(Fault::Failed)),
        ("folders/tree/M.class", Err(Fault::Failed)),
    ] {
        assert_eq!(rt; count(alloc, &mut folder, dir), want, "{dir}");
    }
    for (path, max, want) in [
        ("M.class", 9, "abc"),
        ("M.class", 3, "abc"),
        ("M.class", 2, "ab"),
        ("M.class", 0, ""),
        ("in/side.class/N.class", usize::MAX, "xy"),
    ] {
        let bytes = folder.read(alloc, "folders/tree", path, max)?;
        assert_eq!(rt; bytes.as_slice(), want.as_bytes(), "{path}, {max}");
    }
    for path in ["N.class", "in", ""] {
        let fault = folder.read(alloc, "folders/tree", path, 9).err();
        assert_eq!(rt; fault, Some(Fault::Failed), "{path}");
    }
    assert!(rt; run(&rt, alloc, "rm -r folders")?);
    Ok(())
}

// Whether one of many sends is refused.
fn is_refused_at_last<W: Wire>(wire: &mut W, piece: &[u8]) -> bool
    requires { W.opened wire.old ≡ true }
{
    'sends: for _ in 0..1000 {
        if wire.send(piece) == Err(Fault::Failed) {
            return true;
        }
    }
    false
}

#[test]
fn addresses_that_are_faults(rt: HostRuntime) -> Result<(), Fail> {
    for addr in [
        "",
        "nowhere",
        "127.0.0.1",
        "127.0.0.1:",
        "127.0.0.1:x",
        "127.0.0.1:70000",
        "127.0.0.1:47132",
    ] {
        let mut wire = TcpWire::new(rt.clone()?);
        assert_eq!(rt; wire.open(addr), Err(Fault::Failed), "{addr}");
        assert!(rt; !wire.is_open());
    }
    let mut wire = TcpWire::new(rt.clone()?);
    assert_eq!(rt; wire.listen("127.0.0.1"), Err(Fault::Failed));
    assert_eq!(rt; wire.accept(), Err(Fault::Failed));
    Ok(())
}

// A send to a peer that has closed is refused, and doesn't end the process.
#[test]
fn a_pair_over_tcp(rt: HostRuntime) -> Result<(), Fail> {
    let mut server = TcpWire::new(rt.clone()?);
    let mut client = TcpWire::new(rt.clone()?);
    let mut into = [0u8; 3];
    assert_eq!(rt; server.listen("127.0.0.1:47131"), Ok(()));
    assert_eq!(rt; client.open("127.0.0.1:47131"), Ok(()));
    assert_eq!(rt; server.accept(), Ok(()));
    assert_eq!(rt; client.send(b"".as_slice()), Ok(()));
    assert_eq!(rt; client.send(b"ping".as_slice()), Ok(()));
    assert_eq!(rt; server.receive(&mut into), Ok(3));
    assert_eq!(rt; into, *b"pin");
    assert_eq!(rt; server.receive(&mut into), Ok(1));
    assert_eq!(rt; into, *b"gin");
    client.close();
    assert_eq!(rt; server.receive(&mut into), Ok(0));
    assert!(rt; is_refused_at_last(&mut server, b"late".as_slice()));
    assert!(rt; server.is_open());
    server.close();
    assert!(rt; !server.is_open());
    Ok(())
}

// A writer that takes a byte of each piece. One of its calls, counted from 1, ends otherwise: by the
// error, or by taking nothing.
#[derive(Drop)]
struct Halting {
    calls: u8,
    halt: u8,
    error: Option<ErrorKind>,
}

impl Halting {
    // Counts a call, and gives how it ends.
    fn next(&mut self) -> io::Result<usize> {
        self.calls = self.calls.saturating_add(1);
        if self.calls != self.halt {
            return Ok(1);
        }
        match self.error {
            Some(kind) => Err(io::Error::from(kind)),
            None => Ok(0),
        }
    }
}

impl Write for Halting {
    fn write(&mut self, piece: &[u8]) -> io::Result<usize> {
        Ok(self.next()?.min(piece.len()))
    }

    fn flush(&mut self) -> io::Result<()> {
        self.next()?;
        Ok(())
    }
}

// The sink writes byte after byte, then flushes, and makes a call again that was interrupted.
#[test]
fn a_sink_over_a_writer(rt: HostRuntime) -> Result<(), Fail> {
    for (halt, error, want) in [
        (0, None, Ok(())),
        (1, Some(ErrorKind::Interrupted), Ok(())),
        (2, None, Err(Fault::Failed)),
        (2, Some(ErrorKind::BrokenPipe), Err(Fault::Failed)),
        (2, Some(ErrorKind::OutOfMemory), Err(Fault::NoMemory)),
        (3, Some(ErrorKind::Interrupted), Ok(())),
        (3, Some(ErrorKind::BrokenPipe), Err(Fault::Failed)),
        (4, Some(ErrorKind::BrokenPipe), Ok(())),
    ] {
        let mut sink = StdSink::new(Halting {
            calls: 0,
            halt,
            error,
        });
        assert_eq!(rt; sink.write(b"ab".as_slice()), want, "{halt}");
    }
    let mut out = StdSink::new(rt.stdout());
    assert_eq!(rt; out.write(b"a line\n".as_slice()), Ok(()));
    assert_eq!(rt; out.write(b"".as_slice()), Ok(()));
    Ok(())
}
