// A wire over TCP. It tells nothing.
ghost use Rattle.std.specs.Prelude.{◌≡◌, ◌≤◌, [], false, is_some};
ghost use Rattle.nr_outside.specs.Causes.{HasCause};

use crate::counted::{counted, failed};
use crate::fault::Fault;
use crate::wire::Wire;
use crate::write_whole::write_whole;
use std::io::{ErrorKind, Read};
use std::net::{Net, OpenListener, TcpListener, TcpStream};

/// A wire over TCP. An address is `HOST:PORT`; one that can't be read is a fault.
#[derive(Drop)]
pub struct TcpWire<R: Net + Drop> {
    rt: R,
    listener: Option<R::Listener>,
    stream: Option<R::Stream>,
    open_faults: u64,
    stream_faults: u64,
    ends: u64,
}

impl<R: Net + Drop> TcpWire<R> {
    /// A wire over the network that `rt` reaches, with nothing open.
    pub fn new(rt: R) -> Self
        ensures opened { ⟦<TcpWire<R> as Wire>⟧.opened result ≡ false }
        ensures open_faults { ⟦<TcpWire<R> as Wire>⟧.open_faults result ≡ 0 }
        ensures stream_faults { ⟦<TcpWire<R> as Wire>⟧.stream_faults result ≡ 0 }
        ensures ends { ⟦<TcpWire<R> as Wire>⟧.ends result ≡ 0 }
    {
        TcpWire {
            rt,
            listener: None,
            stream: None,
            open_faults: 0,
            stream_faults: 0,
            ends: 0,
        }
    }
}

impl<R: Net + Drop> Wire for TcpWire<R> {
    ghost Tells = { ⊥ };

    ghost TellsOrder = { ⊥ };

    ghost Honest = { ⊥ };

    ghost says = { λ _ _ _. ⊥ };

    ghost opened = { λ w. is_some w.stream };

    ghost addresses = { λ _. [] };

    ghost past = { λ _. [] };

    ghost sent = { λ _. [] };

    ghost given = { λ _. [] };

    ghost to_come = { λ _. [] };

    ghost order = { λ _. [] };

    ghost open_faults = { λ w. w.open_faults };

    ghost stream_faults = { λ w. w.stream_faults };

    ghost ends = { λ w. w.ends };

    fn is_open(&self) -> bool {
        self.stream.is_some()
    }

    fn listen(&mut self, addr: &str) -> Result<(), Fault> {
        match TcpListener::bind(&self.rt, addr) {
            Ok(listener) => {
                self.listener = Some(listener);
                Ok(())
            }
            Err(error) => Err(counted(error, &mut self.open_faults)),
        }
    }

    fn accept(&mut self) -> Result<(), Fault> {
        let Some(listener) = &self.listener else {
            return Err(failed(&mut self.open_faults));
        };
        match listener.accept() {
            Ok((stream, _)) => {
                self.stream = Some(stream);
                Ok(())
            }
            Err(error) => Err(counted(error, &mut self.open_faults)),
        }
    }

    fn open(&mut self, addr: &str) -> Result<(), Fault> {
        match TcpStream::connect(&self.rt, addr) {
            Ok(stream) => {
                self.stream = Some(stream);
                Ok(())
            }
            Err(error) => Err(counted(error, &mut self.open_faults)),
        }
    }

    fn send(&mut self, piece: &[u8]) -> Result<(), Fault> {
        match &mut self.stream {
            Some(stream) => write_whole(stream, piece, &mut self.stream_faults),
            None => unreachable!(),
        }
    }

    fn receive(&mut self, into: &mut [u8]) -> Result<usize, Fault> {
        let Some(stream) = &mut self.stream else {
            unreachable!()
        };
        'tries: for _ in 0..u64::MAX {
            match stream.read(into) {
                Ok(count) => {
                    if count == 0 {
                        self.ends = self.ends.saturating_add(1);
                    }
                    return Ok(count);
                }
                Err(error) if error.kind() == ErrorKind::Interrupted => {}
                Err(error) => return Err(counted(error, &mut self.stream_faults)),
            }
        }
        Err(failed(&mut self.stream_faults))
    }

    fn close(&mut self) {
        self.stream = None;
    }
}
