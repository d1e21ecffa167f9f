// A wire in memory: each connection gives the pieces of a script, and some calls fail.
ghost use Rattle.std.specs.Prelude.{◌≡◌, ◌<◌, [], true, length, vec_len, vec_capacity, map};
ghost use Rattle.std.specs.String.{string_bytes};
ghost use Rattle.nr_outside.specs.Link.{link_to_come, connection_of};

use crate::counted::failed;
use crate::fail_plan::FailPlan;
use crate::fault::Fault;
use crate::wire::Wire;
use crate::wire::event::Event;
use crate::wire::link::Link;
use std::alloc::Global;
use std::collections::VecDeque;
use std::mem;

/// A wire that gives scripts, and tells all that it tells of.
///
/// An `open` or `accept` that isn't to fail takes the next script, and is `Failed` where none is
/// left. A `receive` gives bytes of one piece. It counts its calls of `listen`, `accept`, `open`,
/// `send` and `receive`. Its peers may say anything.
#[derive(Drop)]
pub struct MemWire {
    alloc: Global,
    scripts: VecDeque<Vec<Vec<u8>>>,
    plan: FailPlan,
    addresses: Vec<String>,
    past: Vec<Link>,
    live: Link,
    opened: bool,
    events: Vec<Event>,
    open_faults: u64,
    stream_faults: u64,
    ends: u64,
    ghost room: { opened ≡ true → vec_len past < vec_capacity past },
}

impl MemWire {
    ghost use Rattle.std.specs.Prelude.{◌≡◌, ◌<◌, ◌++◌, ◌∷◌, [], true, false, is_ok, length, vec_len, vec_capacity, map, OnOk, OnErr, IsErrOf, Some, slice_get};
    ghost use Rattle.std.specs.String.{string_bytes};
    ghost use Rattle.nr_outside.specs.Causes.{HasCause};
    ghost use Rattle.nr_outside.specs.Wire.{OpenIsTold};
    ghost use Rattle.nr_outside.specs.Link.{script_pieces};
    ghost use Rattle.nr_outside.specs.MemWire.{mem_wire_opened, mem_wire_addresses, mem_wire_past, mem_wire_connections, mem_wire_events, mem_wire_pieces, mem_wire_scripts, mem_wire_calls, mem_wire_fails};

    /// A wire with nothing open, whose connections give these scripts in turn, each the pieces that
    /// it gives; a piece with no bytes is skipped. `fails` has the numbers, from 1, of the calls
    /// that are to fail.
    pub fn new(alloc: Global, scripts: Vec<Vec<Vec<u8>>>, fails: Vec<u64>) -> Self
        ensures opened { mem_wire_opened result ≡ false }
        ensures addresses { mem_wire_addresses result ≡ [] }
        ensures past { mem_wire_past result ≡ [] }
        ensures events { mem_wire_events result ≡ [] }
        ensures sent { ⟦<MemWire as Wire>⟧.sent result ≡ [] }
        ensures given { ⟦<MemWire as Wire>⟧.given result ≡ [] }
        ensures to_come { ⟦<MemWire as Wire>⟧.to_come result ≡ [] }
        ensures scripts { mem_wire_scripts result ≡ map script_pieces scripts.items }
        ensures calls { mem_wire_calls result ≡ 0 }
        ensures open_faults { ⟦<MemWire as Wire>⟧.open_faults result ≡ 0 }
        ensures stream_faults { ⟦<MemWire as Wire>⟧.stream_faults result ≡ 0 }
        ensures ends { ⟦<MemWire as Wire>⟧.ends result ≡ 0 }
        ensures fails { mem_wire_fails result ≡ fails.items }
    {
        MemWire {
            alloc,
            scripts: VecDeque::from_vec(scripts),
            plan: FailPlan::new(fails),
            addresses: Vec::new(alloc),
            past: Vec::new(alloc),
            live: Link::new(alloc, VecDeque::new(alloc)),
            opened: false,
            events: Vec::new(alloc),
            open_faults: 0,
            stream_faults: 0,
            ends: 0,
        }
    }

    /// The addresses at which it listened or to which it opened, or failed to, the first first.
    pub fn addresses(&self) -> &[String]
        ensures { map string_bytes result.now ≡ mem_wire_addresses self.now }
    {
        &self.addresses
    }

    /// The events, the first first.
    pub fn events(&self) -> &[Event]
        ensures { result.now ≡ mem_wire_events self.now }
    {
        &self.events
    }

    /// How many connections were opened or accepted.
    pub fn connection_count(&self) -> usize
        ensures { result ≡ length (mem_wire_connections self.now) }
    {
        if self.opened {
            self.past.len() + 1
        } else {
            self.past.len()
        }
    }

    /// What was sent on a connection, counted from 0 in the order of opening.
    pub fn sent(&self, connection: usize) -> &[u8]
        requires { connection < length (mem_wire_connections self.now) }
        ensures { slice_get (map (λ c. c.sent) (mem_wire_connections self.now)) connection
            ≡ Some result.now }
    {
        if connection < self.past.len() {
            &self.past[connection].sent
        } else {
            &self.live.sent
        }
    }

    // Opens a connection that gives the next script.
    fn connect(&mut self) -> Result<(), Fault>
        requires closed { self.old.opened ≡ false }
        requires past_room { vec_len self.old.past < vec_capacity self.old.past }
        requires event_room { vec_len self.old.events < vec_capacity self.old.events }
        ensures opened { self.new.opened ≡ is_ok result }
        ensures memory { IsErrOf result Fault.NoMemory → ⊥ }
        ensures script { OnOk result
            (mem_wire_scripts self.old ≡ mem_wire_pieces self.new ∷ mem_wire_scripts self.new) }
        ensures none { OnErr result (mem_wire_scripts self.old ≡ []) }
        ensures kept { OnErr result (mem_wire_scripts self.new ≡ mem_wire_scripts self.old) }
        ensures sent { OnOk result (self.new.live.sent.items ≡ []) }
        ensures given { OnOk result (self.new.live.given.items ≡ []) }
        ensures events { OpenIsTold self.old.events.items self.new.events.items result }
        ensures past { self.new.past.items ≡ self.old.past.items }
        ensures addresses { self.new.addresses ≡ self.old.addresses }
        ensures plan { self.new.plan ≡ self.old.plan }
        ensures cause { HasCause self.old.open_faults self.new.open_faults result }
        ensures stream_faults { self.new.stream_faults ≡ self.old.stream_faults }
        ensures ends { self.new.ends ≡ self.old.ends }
    {
        match self.scripts.pop_front() {
            Some(script) => {
                self.live = Link::new(self.alloc, VecDeque::from_vec(script));
                self.opened = true;
                self.events.push(Event::Opened).unwrap();
                Ok(())
            }
            None => Err(failed(&mut self.open_faults)),
        }
    }
}

impl Wire for MemWire {
    ghost use Rattle.std.specs.Prelude.{◌≡◌, ◌≢◌, ◌<◌, ◌≤◌, ◌++◌, ◌∷◌, ◌⊎◌, [], true, false, is_ok, length, Ok, OnOk, OnErr, IfOk, IsErr, IsErrOf, IsTrue};
    ghost use Rattle.nr_outside.specs.Bytes.{AddsPart};
    ghost use Rattle.nr_outside.specs.Causes.{HasCause, Rose};
    ghost use Rattle.nr_outside.specs.FailPlan.{is_planned, IsCounted};
    ghost use Rattle.nr_outside.specs.Link.{link_to_come, GivesOfOne};
    ghost use Rattle.nr_outside.specs.Wire.{AddressesGrow, Gives, OpenIsTold, ReceiveIsTold, SendIsTold};
    ghost use Rattle.nr_outside.specs.MemWire.{mem_wire_addresses, mem_wire_past, mem_wire_events, mem_wire_pieces, mem_wire_scripts};

    ghost Tells = { Unit {0} };

    ghost TellsOrder = { Unit {0} };

    ghost Honest = { Unit {0} };

    ghost says = { λ _ _ _. Unit {0} };

    ghost opened = { λ w. w.opened };

    ghost addresses = { λ w. map string_bytes w.addresses.items };

    ghost past = { λ w. map connection_of w.past.items };

    ghost sent = { λ w. w.live.sent.items };

    ghost given = { λ w. w.live.given.items };

    ghost to_come = { λ w. link_to_come w.live };

    ghost order = { λ w. w.events.items };

    ghost open_faults = { λ w. w.open_faults };

    ghost stream_faults = { λ w. w.stream_faults };

    ghost ends = { λ w. w.ends };

    fn is_open(&self) -> bool {
        self.opened
    }

    /// It is `Failed` just where the call is to fail.
    fn listen(&mut self, addr: &str) -> Result<(), Fault>
        ensures opened { self.new.opened ≡ self.old.opened }
        ensures addresses { AddressesGrow (mem_wire_addresses self.old)
            (mem_wire_addresses self.new) addr.now result }
        ensures past { mem_wire_past self.new ≡ mem_wire_past self.old }
        ensures live { self.new.live ≡ self.old.live }
        ensures scripts { mem_wire_scripts self.new ≡ mem_wire_scripts self.old }
        ensures events { mem_wire_events self.new ≡ mem_wire_events self.old }
        ensures cause { HasCause self.old.open_faults self.new.open_faults result }
        ensures stream_faults { self.new.stream_faults ≡ self.old.stream_faults }
        ensures ends { self.new.ends ≡ self.old.ends }
        ensures planned { IsTrue (is_planned self.old.plan) → IsErr result }
        ensures failed { IsErrOf result Fault.Failed → IsTrue (is_planned self.old.plan) }
        ensures counted { IsCounted self.old.plan self.new.plan }
    {
        let fails = self.plan.is_next_to_fail();
        self.addresses.push(String::from_str(self.alloc, addr)?)?;
        if fails {
            return Err(failed(&mut self.open_faults));
        }
        Ok(())
    }

    /// It is `Failed` just where the call is to fail or no script is left.
    fn accept(&mut self) -> Result<(), Fault>
        requires { self.old.opened ≡ false }
        ensures opened { self.new.opened ≡ is_ok result }
        ensures addresses { mem_wire_addresses self.new ≡ mem_wire_addresses self.old }
        ensures past { mem_wire_past self.new ≡ mem_wire_past self.old }
        ensures sent { OnOk result (self.new.live.sent.items ≡ []) }
        ensures given { OnOk result (self.new.live.given.items ≡ []) }
        ensures script { OnOk result
            (mem_wire_scripts self.old ≡ mem_wire_pieces self.new ∷ mem_wire_scripts self.new) }
        ensures scripts { OnErr result (mem_wire_scripts self.new ≡ mem_wire_scripts self.old) }
        ensures events { OpenIsTold (mem_wire_events self.old) (mem_wire_events self.new) result }
        ensures cause { HasCause self.old.open_faults self.new.open_faults result }
        ensures stream_faults { self.new.stream_faults ≡ self.old.stream_faults }
        ensures ends { self.new.ends ≡ self.old.ends }
        ensures planned { IsTrue (is_planned self.old.plan) → IsErr result }
        ensures failed { IsErrOf result Fault.Failed → IsTrue (is_planned self.old.plan)
            ⊎ (mem_wire_scripts self.old ≡ []) }
        ensures counted { IsCounted self.old.plan self.new.plan }
    {
        if self.plan.is_next_to_fail() {
            return Err(failed(&mut self.open_faults));
        }
        self.past.reserve(1)?;
        self.events.reserve(1)?;
        self.connect()
    }

    /// It is `Failed` just where the call is to fail or no script is left.
    fn open(&mut self, addr: &str) -> Result<(), Fault>
        requires { self.old.opened ≡ false }
        ensures opened { self.new.opened ≡ is_ok result }
        ensures addresses { AddressesGrow (mem_wire_addresses self.old)
            (mem_wire_addresses self.new) addr.now result }
        ensures past { mem_wire_past self.new ≡ mem_wire_past self.old }
        ensures sent { OnOk result (self.new.live.sent.items ≡ []) }
        ensures given { OnOk result (self.new.live.given.items ≡ []) }
        ensures script { OnOk result
            (mem_wire_scripts self.old ≡ mem_wire_pieces self.new ∷ mem_wire_scripts self.new) }
        ensures scripts { OnErr result (mem_wire_scripts self.new ≡ mem_wire_scripts self.old) }
        ensures events { OpenIsTold (mem_wire_events self.old) (mem_wire_events self.new) result }
        ensures cause { HasCause self.old.open_faults self.new.open_faults result }
        ensures stream_faults { self.new.stream_faults ≡ self.old.stream_faults }
        ensures ends { self.new.ends ≡ self.old.ends }
        ensures planned { IsTrue (is_planned self.old.plan) → IsErr result }
        ensures failed { IsErrOf result Fault.Failed → IsTrue (is_planned self.old.plan)
            ⊎ (mem_wire_scripts self.old ≡ []) }
        ensures counted { IsCounted self.old.plan self.new.plan }
    {
        let fails = self.plan.is_next_to_fail();
        let addr = String::from_str(self.alloc, addr)?;
        self.past.reserve(1)?;
        self.events.reserve(1)?;
        self.addresses.push(addr)?;
        if fails {
            return Err(failed(&mut self.open_faults));
        }
        self.connect()
    }

    /// It is `Failed` just where the call is to fail.
    fn send(&mut self, piece: &[u8]) -> Result<(), Fault>
        requires { self.old.opened ≡ true }
        ensures opened { self.new.opened ≡ true }
        ensures sent { OnOk result
            (self.new.live.sent.items ≡ self.old.live.sent.items ++ piece.now) }
        ensures part { AddsPart self.old.live.sent.items self.new.live.sent.items piece.now }
        ensures addresses { mem_wire_addresses self.new ≡ mem_wire_addresses self.old }
        ensures past { mem_wire_past self.new ≡ mem_wire_past self.old }
        ensures given { self.new.live.given.items ≡ self.old.live.given.items }
        ensures pieces { mem_wire_pieces self.new ≡ mem_wire_pieces self.old }
        ensures scripts { mem_wire_scripts self.new ≡ mem_wire_scripts self.old }
        ensures events { SendIsTold (mem_wire_events self.old) (mem_wire_events self.new)
            self.old.live.sent.items self.new.live.sent.items piece.now result }
        ensures cause { HasCause self.old.stream_faults self.new.stream_faults result }
        ensures open_faults { self.new.open_faults ≡ self.old.open_faults }
        ensures ends { self.new.ends ≡ self.old.ends }
        ensures planned { IsTrue (is_planned self.old.plan) → IsErr result }
        ensures failed { IsErrOf result Fault.Failed → IsTrue (is_planned self.old.plan) }
        ensures counted { IsCounted self.old.plan self.new.plan }
    {
        let fails = self.plan.is_next_to_fail();
        self.events.reserve(1)?;
        if fails {
            self.events.push(Event::SendFailed(0)).unwrap();
            return Err(failed(&mut self.stream_faults));
        }
        self.live.sent.extend_from_slice(piece)?;
        self.events.push(Event::Sent(piece.len())).unwrap();
        Ok(())
    }

    /// It is `Failed` just where the call is to fail.
    fn receive(&mut self, into: &mut [u8]) -> Result<usize, Fault>
        requires open { self.old.opened ≡ true }
        requires room { 0 < length into.old }
        ensures opened { self.new.opened ≡ true }
        ensures bound { IfOk result (λ n. n ≤ length into.new) }
        ensures gives { Gives self.old.live.given.items (link_to_come self.old.live)
            self.new.live.given.items (link_to_come self.new.live) result into.new }
        ensures into { OnErr result (into.new ≡ into.old) }
        ensures piece { IfOk result (λ n. GivesOfOne (length into.old) n (mem_wire_pieces self.old)
            (mem_wire_pieces self.new)) }
        ensures kept { OnErr result (mem_wire_pieces self.new ≡ mem_wire_pieces self.old) }
        ensures scripts { mem_wire_scripts self.new ≡ mem_wire_scripts self.old }
        ensures addresses { mem_wire_addresses self.new ≡ mem_wire_addresses self.old }
        ensures past { mem_wire_past self.new ≡ mem_wire_past self.old }
        ensures sent { self.new.live.sent.items ≡ self.old.live.sent.items }
        ensures events { ReceiveIsTold (mem_wire_events self.old)
            (mem_wire_events self.new) result }
        ensures cause { HasCause self.old.stream_faults self.new.stream_faults result }
        ensures open_faults { self.new.open_faults ≡ self.old.open_faults }
        ensures some { link_to_come self.old.live ≢ [] → IfOk result (λ n. 0 < n) }
        ensures end { IfOk result (λ n. n ≡ 0 → Rose self.old.ends self.new.ends) }
        ensures ends { self.old.ends ≤ self.new.ends }
        ensures still { (result ≡ Ok 0) ⊎ (self.new.ends ≡ self.old.ends) }
        ensures planned { IsTrue (is_planned self.old.plan) → IsErr result }
        ensures failed { IsErrOf result Fault.Failed → IsTrue (is_planned self.old.plan) }
        ensures counted { IsCounted self.old.plan self.new.plan }
    {
        let fails = self.plan.is_next_to_fail();
        self.events.reserve(1)?;
        if fails {
            self.events.push(Event::ReceiveFailed).unwrap();
            return Err(failed(&mut self.stream_faults));
        }
        let count = self.live.receive(into)?;
        if count == 0 {
            self.ends = self.ends.saturating_add(1);
        }
        self.events.push(Event::Received(count)).unwrap();
        Ok(count)
    }

    fn close(&mut self)
        ensures opened { self.new.opened ≡ false }
        ensures addresses { mem_wire_addresses self.new ≡ mem_wire_addresses self.old }
        ensures none { self.old.opened ≡ false → mem_wire_past self.new ≡ mem_wire_past self.old }
        ensures past { self.old.opened ≡ true
            → mem_wire_past self.new ≡ mem_wire_past self.old ++ connection_of self.old.live ∷ [] }
        ensures scripts { mem_wire_scripts self.new ≡ mem_wire_scripts self.old }
        ensures events { mem_wire_events self.new ≡ mem_wire_events self.old }
        ensures open_faults { self.new.open_faults ≡ self.old.open_faults }
        ensures stream_faults { self.new.stream_faults ≡ self.old.stream_faults }
        ensures ends { self.new.ends ≡ self.old.ends }
        ensures plan { self.new.plan ≡ self.old.plan }
    {
        if self.opened {
            let fresh = Link::new(self.alloc, VecDeque::new(self.alloc));
            let link = mem::replace(&mut self.live, fresh);
            self.opened = false;
            self.past.push(link).unwrap();
        }
    }
}
