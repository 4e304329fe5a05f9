//! The refusals that go by the head of a request, in the order in which they are tested.
ghost use Rattle.std.specs.Prelude.{◌≡◌, ◌≢◌, None, OnOk, IfErr};
ghost use Rattle.http_front.specs.declared.request.Length.TheVariants.{Chunked};
ghost use Rattle.request_target.specs.Methods.{Allows, methods};
ghost use Rattle.request_target.specs.Queries.{unsupported};
ghost use Rattle.request_target.specs.Targets.{asked};
ghost use Rattle.plain_machine.specs.Heads.{IsCase, IsCaseOf, IsStop, IsRefusedByHead, PassesHead};
ghost use Rattle.plain_machine.specs.Refusals.{IsTooLong, not_allowed as method_case, bad_query as query_case, no_length as length_case, too_large as size_case};

use crate::answer::{bad_query, no_length, not_allowed, too_large};
use crate::stop::Stop;
use http_front::{Length, Request};
use request_target::{Target, unsupported};
use std::alloc::Global;

/// The longest body that is read.
const LONGEST_BODY: u64 = 65_536;

fn allowed(alloc: Global, request: &Request, target: Target<'_>) -> Result<(), Stop>
    ensures ok { OnOk result (Allows (methods (asked target.entry)) request.now.verb) }
    ensures refused { IfErr result
        (IsStop (IsCaseOf request.now (asked target.entry) method_case)) }
{
    let methods = target.methods();
    if methods.allow(request.verb) {
        Ok(())
    } else {
        Err(Stop::Refused(not_allowed(alloc, methods)?))
    }
}

fn supported(alloc: Global, request: &Request) -> Result<(), Stop>
    ensures ok { OnOk result (unsupported request.now.query ≡ None) }
    ensures refused { IfErr result (IsStop (IsCase request.now query_case)) }
{
    match unsupported(request.query.bytes()) {
        Some(name) => Err(Stop::Refused(bad_query(alloc, name)?)),
        None => Ok(()),
    }
}

fn counted(alloc: Global, request: &Request) -> Result<(), Stop>
    ensures ok { OnOk result (request.now.length ≢ Chunked) }
    ensures refused { IfErr result (IsStop (IsCase request.now length_case)) }
{
    match request.length {
        Length::Given(_) => Ok(()),
        Length::Chunked => Err(Stop::Refused(no_length(alloc)?)),
    }
}

fn short(alloc: Global, request: &Request) -> Result<(), Stop>
    ensures ok { OnOk result (¬ IsTooLong request.now.length) }
    ensures refused { IfErr result (IsStop (IsCase request.now size_case)) }
{
    match request.length {
        Length::Given(number) if number > LONGEST_BODY => { Err(Stop::Refused(too_large(alloc)?)) }
        _ => Ok(()),
    }
}

/// What asks for something that is served isn't refused by its head.
pub(crate) fn passes_head(alloc: Global, request: &Request, target: Target<'_>) -> Result<(), Stop>
    ensures ok { OnOk result (PassesHead request.now (asked target.entry)) }
    ensures refused { IfErr result (IsStop (IsRefusedByHead request.now (asked target.entry))) }
{
    allowed(alloc, request, target)?;
    supported(alloc, request)?;
    counted(alloc, request)?;
    short(alloc, request)?;
    Ok(())
}
