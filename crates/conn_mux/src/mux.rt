//! The connections of a front, with what is left of their streams.
ghost use Rattle.std.specs.Prelude.{◌≡◌, [], Some, None, IfOk, OnOk, OnErr};
ghost use Rattle.conn_mux.specs.Held.{flow_of, Appends, Holds, KeepsAll, Takes};

use crate::buffer::Buffer;
use crate::flow::Flow;
use crate::incoming::Incoming;
use basis::Memory;
use std::alloc::Global;
use std::collections::BTreeMap;
use std::marker::Model;

/// The connections that are held, by their numbers, with what is left of their streams.
#[derive(Debug, Drop)]
pub struct Mux {
    alloc: Global,
    flows: BTreeMap<u32, Flow>,
}

impl Model for Mux {
    ghost use Rattle.conn_mux.specs.Held.{Held};

    ghost Value = { Held };

    ghost view = { λ m. m.flows.entries };
}

fn open(flows: &mut BTreeMap<u32, Flow>, c: u32, flow: Flow) -> Result<(), Memory>
    ensures ok { OnOk result (Holds flows.old.entries c (Some flow) flows.new.entries) }
    ensures err { OnErr result (KeepsAll flows.old.entries flows.new.entries) }
{
    flows.insert(c, flow)?;
    Ok(())
}

fn append(flows: &mut BTreeMap<u32, Flow>, c: u32, bytes: &[u8]) -> Result<(), Memory>
    ensures ok { OnOk result (Appends flows.old.entries c bytes.now flows.new.entries) }
    ensures err { OnErr result (KeepsAll flows.old.entries flows.new.entries) }
{
    match flows.get_mut(&c) {
        Some(flow) => flow.append(bytes),
        None => Ok(()),
    }
}

fn take(alloc: Global, flows: &mut BTreeMap<u32, Flow>, c: u32) -> Result<Option<Incoming>, Memory>
    ensures ok { IfOk result (λ taken. Takes flows.old.entries c taken flows.new.entries) }
    ensures err { OnErr result (KeepsAll flows.old.entries flows.new.entries) }
{
    match flows.get_mut(&c) {
        Some(flow) => flow.take(alloc),
        None => Ok(None),
    }
}

fn drop_flow(flows: &mut BTreeMap<u32, Flow>, c: u32)
    ensures { Holds flows.old.entries c None flows.new.entries }
{
    flows.remove(&c);
}

impl Mux {
    /// No connection is held. Takes no memory.
    pub fn new(alloc: Global) -> Mux
        ensures { result ≡ [] }
    {
        Mux {
            alloc,
            flows: BTreeMap::new(alloc),
        }
    }

    /// Holds the connection, with an empty stream. A number is held once at a time.
    pub fn opened(&mut self, c: u32) -> Result<(), Memory>
        requires { flow_of self.old c ≡ None }
        ensures ok { OnOk result (Holds self.old c (Some (Flow.Going [])) self.new) }
        ensures err { OnErr result (KeepsAll self.old self.new) }
    {
        open(&mut self.flows, c, Flow::Going(Buffer::new(self.alloc)))
    }

    /// Puts the bytes behind those of the connection's stream. Those of one that isn't held are ignored.
    pub fn piece(&mut self, c: u32, bytes: &[u8]) -> Result<(), Memory>
        ensures ok { OnOk result (Appends self.old c bytes.now self.new) }
        ensures err { OnErr result (KeepsAll self.old self.new) }
    {
        append(&mut self.flows, c, bytes)
    }

    /// The client closed the connection: it isn't held any more.
    pub fn closed(&mut self, c: u32)
        ensures { Holds self.old c None self.new }
    {
        drop_flow(&mut self.flows, c);
    }

    /// The server shut the connection: it isn't held any more.
    pub fn shut(&mut self, c: u32)
        ensures { Holds self.old c None self.new }
    {
        drop_flow(&mut self.flows, c);
    }

    /// Takes the next item of the connection's stream. None comes where the stream has none, and where the connection
    /// isn't held.
    pub fn take(&mut self, c: u32) -> Result<Option<Incoming>, Memory>
        ensures ok { IfOk result (λ taken. Takes self.old c taken self.new) }
        ensures err { OnErr result (KeepsAll self.old self.new) }
    {
        take(self.alloc, &mut self.flows, c)
    }
}
