//! A reply, ready to be sent.
ghost use Rattle.std.specs.Prelude.{◌≡◌, Contains, IfOk};
ghost use Rattle.http_front.specs.Replies.{reply_codes, reply_text};

use basis::Memory;
use http_front::{Reply, reply_bytes};
use minor_version::Blob;
use std::alloc::Global;

/// A reply's bytes, and whether the connection closes after it.
#[derive(Debug, Drop)]
pub(crate) struct Outgoing {
    pub bytes: Blob,
    pub last: bool,
}

/// The bytes of the reply.
pub(crate) fn outgoing_of(alloc: Global, reply: &Reply) -> Result<Outgoing, Memory>
    requires { Contains reply_codes reply.now.code }
    ensures bytes { IfOk result (λ o. o.bytes ≡ reply_text reply.now) }
    ensures last { IfOk result (λ o. o.last ≡ reply.now.last) }
{
    let bytes = reply_bytes(alloc, reply)?;
    Ok(Outgoing {
        bytes,
        last: reply.last,
    })
}
