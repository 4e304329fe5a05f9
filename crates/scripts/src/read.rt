//! A script from its text.
ghost use Rattle.std.specs.Prelude.{◌≡◌, [], ◌∷◌, ◌++◌, IfOk, IfErr, IfSome, IfNone};
ghost use Rattle.scripts.specs.Lawful.{MayFollow};
ghost use Rattle.scripts.specs.Reading.{GoesOn, IsBadBehind, IsFaultOf, Means};

use crate::connections::Connections;
use crate::line::event_of;
use crate::lines::lines;
use crate::script::{Script, ScriptEvent};
use basis::Memory;
use std::alloc::Global;
use std::error::Error;
use std::fmt;
use std::marker::Model;

/// Why a text is no script.
#[derive(Clone, Copy, Debug, PartialEq, Eq)]
pub enum ScriptFault {
    /// The first line, numbered from 1, that writes no event or one that may not follow those before it.
    BadLine { number: u64 },
    /// Memory ran out.
    Memory,
}

impl fmt::Display for ScriptFault {
    fn fmt<W: fmt::Write>(&self, f: &mut fmt::Formatter<W>) -> fmt::Result {
        match self {
            ScriptFault::BadLine { number } => write!(f, "bad line {number}"),
            ScriptFault::Memory => f.write_str("out of memory"),
        }
    }
}

impl Error for ScriptFault {}

// The events of the lines that were read.
#[derive(Drop)]
struct Reading {
    script: Script,
    connections: Connections,
}

impl Model for Reading {
    ghost use Rattle.std.specs.Prelude.{List};
    ghost use Rattle.scripts.specs.declared.script.ScriptEvent.{ScriptEvent as EventS};

    ghost Value = { List EventS };

    ghost use Rattle.scripts.specs.Standing.{IsStanding};

    ghost view = { λ r. r.script };

    ghost invariant = { λ r. IsStanding r.connections r.script };
}

impl Reading {
    fn new(alloc: Global) -> Self
        ensures { result ≡ [] }
    {
        Reading {
            script: Script::new(),
            connections: Connections::new(alloc),
        }
    }

    // The events, and one more that may follow them.
    fn with_event(self, alloc: Global, event: ScriptEvent) -> Result<Self, Memory>
        requires { MayFollow self event }
        ensures { IfOk result (λ next. next ≡ self ++ event ∷ []) }
    {
        let Reading {
            mut script,
            connections,
        } = self;
        let connections = connections.behind(&event)?;
        script.push(alloc, event)?;
        Ok(Reading {
            script,
            connections,
        })
    }

    // The events, and that of one line more, if it writes one that may follow them.
    fn with_line(self, alloc: Global, line: &[u8]) -> Result<Option<Self>, Memory>
        ensures some { IfOk result (λ o. IfSome o (λ next. GoesOn line.now self next)) }
        ensures none { IfOk result (λ o. IfNone o (IsBadBehind line.now self)) }
    {
        let Some(event) = event_of(alloc, line)? else {
            return Ok(None);
        };
        if !self.connections.allow(&event) {
            return Ok(None);
        }
        Ok(Some(self.with_event(alloc, event)?))
    }
}

impl Script {
    /// The script whose events the lines of the text write: `open`, `piece 3 "text"`, `bytes 3 6a6b` or `close 3`. What
    /// is refused is the first line that writes no event, or one that may not follow those before it.
    pub fn read(alloc: Global, text: &[u8]) -> Result<Script, ScriptFault>
        ensures ok { IfOk result (λ script. Means text.now script) }
        ensures err { IfErr result (IsFaultOf text.now) }
    {
        let Ok(lines) = lines(alloc, text) else {
            return Err(ScriptFault::Memory);
        };
        let mut reading = Reading::new(alloc);
        for (index, line) in lines.iter().enumerate() {
            match reading.with_line(alloc, line) {
                Ok(Some(next)) => reading = next,
                Ok(None) => {
                    return Err(ScriptFault::BadLine {
                        number: index as u64 + 1,
                    });
                }
                Err(_) => return Err(ScriptFault::Memory),
            }
        }
        Ok(reading.script)
    }
}
