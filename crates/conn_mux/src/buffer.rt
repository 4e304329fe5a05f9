//! The bytes of a stream that no item has taken yet.
ghost use Rattle.std.specs.Prelude.{◌≡◌, ◌++◌, List, [], drop, length, vec_len, IfOk, OnOk, OnErr, ◌≤◌};
ghost use Rattle.conn_mux.specs.Items.{Splits};

use crate::incoming::Incoming;
use basis::Memory;
use http_front::{Known, Next, next_item, nothing_known};
use std::alloc::Global;
use std::marker::Model;

/// The rest of a stream: its bytes behind the items that were taken.
#[derive(Debug, Drop)]
pub struct Buffer {
    // Some that were taken, and all of the rest.
    bytes: Vec<u8>,
    // Where the rest begins.
    start: usize,
    // What is known of the rest, so that it is read once.
    known: Known,
}

impl Model for Buffer {
    ghost use Rattle.std.specs.Prelude.{ℕ, List, ◌≤◌, drop, vec_len};
    ghost use Rattle.http_front.specs.Waits.{IsKnown};

    ghost Value = { List ℕ };

    ghost view = { λ b. drop b.start b.bytes.items };

    ghost invariant = { λ b. record {
      within : b.start ≤ vec_len b.bytes;
      known : IsKnown (drop b.start b.bytes.items) b.known;
    } };
}

// Leaves out the first bytes.
fn let_go(bytes: &mut Vec<u8>, count: usize)
    requires { count ≤ vec_len bytes.old }
    ensures { bytes.new.items ≡ drop count bytes.old.items }
{
    let left = bytes.len() - count;
    bytes.as_mut_slice().rotate_left(count);
    bytes.truncate(left);
}

impl Buffer {
    pub fn new(alloc: Global) -> Buffer
        ensures { result ≡ [] }
    {
        Buffer {
            bytes: Vec::new(alloc),
            start: 0,
            known: nothing_known(),
        }
    }

    // Lets the bytes that were taken go, once they are more than the rest.
    fn compact(&mut self)
        ensures { self.new ≡ self.old }
    {
        if self.start > self.bytes.len() - self.start {
            let_go(&mut self.bytes, self.start);
            self.start = 0;
        }
    }

    /// Puts the bytes behind the rest.
    pub fn append(&mut self, bytes: &[u8]) -> Result<(), Memory>
        ensures ok { OnOk result (self.new ≡ self.old ++ bytes.now) }
        ensures err { OnErr result (self.new ≡ self.old) }
    {
        self.compact();
        self.bytes.extend_from_slice(bytes)?;
        Ok(())
    }

    /// Takes the next item. What can't be taken stays.
    pub fn take(&mut self, alloc: Global) -> Result<Option<Incoming>, Memory>
        ensures ok { IfOk result (λ taken. Splits self.old taken self.new) }
        ensures err { OnErr result (self.new ≡ self.old) }
    {
        let rest = self.bytes.as_slice().split_at(self.start).1;
        match next_item(alloc, rest, self.known)? {
            Next::Waits(known) => {
                self.known = known;
                Ok(None)
            }
            Next::Bad => Ok(Some(Incoming::Bad)),
            Next::Whole(request, used) => {
                self.start += used;
                self.known = nothing_known();
                Ok(Some(Incoming::Whole(request)))
            }
        }
    }
}
