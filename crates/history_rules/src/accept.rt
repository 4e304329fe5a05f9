ghost use Rattle.std.specs.Prelude.{◌≡◌, IfOk, IfErr, IfSome, IfNone};
ghost use Rattle.schemas.specs.Dated.{Dated};
ghost use Rattle.schemas.specs.Rules.{HasReleases, IsAccepted, first_of, last_of, date_checks, gate_checks, api_checks, field_checks, checks, FindsFault};
ghost use Rattle.history_rules.specs.Fault.{IsFaultOf};

use crate::api_rules::{
    first_early_forgetting, first_mixed_kind, first_out_of_order, first_unfair_deprecation,
    first_unplanned,
};
use crate::dates::Dates;
use crate::fault::CheckFault;
use crate::gate_rules::{first_not_rising, first_unfit_spec, first_unripe_removal};
use crate::late::first_late;
use crate::previous::{link_gates, link_versions};
use basis::Memory;
use field_rules::first_broken;
use gate_spec::GateEntry;
use lifecycle::ApiEntry;
use minor_version::Minor;
use schemas::{Accepted, Array, Broken, History, accepted_is_unbroken};
use std::alloc::Global;

/// The first and the last release, where both are there and the first isn't above the last (HR1).
fn releases(h: &History) -> Option<(Minor, Minor)>
    ensures some { IfSome result (λ r. HasReleases h.now × (first_of h.now ≡ r.0)
        × (last_of h.now ≡ r.1)) }
    ensures none { IfNone result (¬ HasReleases h.now) }
{
    match (h.first, h.last) {
        (Some(first), Some(last)) => {
            if first <= last {
                Some((first, last))
            } else {
                None
            }
        }
        _ => None,
    }
}

/// An entry that breaks the rule.
fn broken(rule: u8, array: Array, index: u64) -> Option<Broken>
    ensures { result ≡ Some (record { rule = rule; array = array; index = index }) }
{
    Some(Broken { rule, array, index })
}

/// The first entry dated after the last release (HR2).
fn first_late_entry(last: Minor, h: &History) -> Option<Broken>
    requires { last_of h.now ≡ last }
    ensures { FindsFault h.now date_checks result }
{
    if let Some(index) = first_late(last, h.gates.items()) {
        return broken(2, Array::Gate, index);
    }
    if let Some(index) = first_late(last, h.apis.items()) {
        return broken(2, Array::Api, index);
    }
    if let Some(index) = first_late(last, h.fields.items()) {
        return broken(2, Array::Field, index);
    }
    if let Some(index) = first_late(last, h.spells.items()) {
        return broken(2, Array::Spell, index);
    }
    None
}

/// The first fault of the gates: the rules HR3 to HR5.
fn first_gate_fault(alloc: Global, gates: &[GateEntry]) -> Result<Option<Broken>, Memory>
    ensures { IfOk result (λ found. (h : Dated) → h.gates ≡ gates.now
        → FindsFault h gate_checks found) }
{
    let previous = link_gates(alloc, gates)?;
    if let Some(index) = first_not_rising(gates, &previous) {
        return Ok(broken(3, Array::Gate, index));
    }
    if let Some(index) = first_unfit_spec(gates) {
        return Ok(broken(4, Array::Gate, index));
    }
    if let Some(index) = first_unripe_removal(gates, &previous) {
        return Ok(broken(5, Array::Gate, index));
    }
    Ok(None)
}

/// The first fault of the versions: the rules HR6 to HR10.
fn first_api_fault(alloc: Global, last: Minor, apis: &[ApiEntry]) -> Result<Option<Broken>, Memory>
    ensures { IfOk result (λ found. (h : Dated) → last_of h ≡ last → h.apis ≡ apis.now
        → FindsFault h api_checks found) }
{
    let previous = link_versions(alloc, apis)?;
    let all = Dates::new(alloc, apis)?;
    if let Some(index) = first_out_of_order(apis, &previous) {
        return Ok(broken(6, Array::Api, index));
    }
    match first_mixed_kind(alloc, apis) {
        Ok(Some(index)) => return Ok(broken(7, Array::Api, index)),
        Ok(None) => {}
        Err(Memory) => return Err(Memory),
    }
    if let Some(index) = first_unfair_deprecation(&all, apis) {
        return Ok(broken(8, Array::Api, index));
    }
    if let Some(index) = first_unplanned(&all, last, apis, &previous) {
        return Ok(broken(9, Array::Api, index));
    }
    if let Some(index) = first_early_forgetting(&all, apis, &previous) {
        return Ok(broken(10, Array::Api, index));
    }
    Ok(None)
}

/// The first fault of fields and spellings: the rules HR11 to HR16.
fn first_field_fault(alloc: Global, first: Minor, h: &History) -> Result<Option<Broken>, Memory>
    requires { first_of h.now ≡ first }
    ensures { IfOk result (FindsFault h.now field_checks) }
{
    first_broken(
        alloc,
        first,
        h.gates.items(),
        h.apis.items(),
        h.fields.items(),
        h.spells.items(),
    )
}

/// The lowest rule that the history breaks, at the first entry that breaks it.
fn first_fault(alloc: Global, h: &History) -> Result<Option<Broken>, Memory>
    ensures { IfOk result (FindsFault h.now checks) }
{
    let Some((first, last)) = releases(h) else {
        return Ok(broken(1, Array::Top, 0));
    };
    if let Some(late) = first_late_entry(last, h) {
        return Ok(Some(late));
    }
    match first_gate_fault(alloc, h.gates.items()) {
        Ok(Some(fault)) => return Ok(Some(fault)),
        Ok(None) => {}
        Err(Memory) => return Err(Memory),
    }
    match first_api_fault(alloc, last, h.apis.items()) {
        Ok(Some(fault)) => return Ok(Some(fault)),
        Ok(None) => {}
        Err(Memory) => return Err(Memory),
    }
    first_field_fault(alloc, first, h)
}

/// Accepts the history, or names the lowest rule that it breaks, at the first entry that breaks it. Either refusal
/// drops the history.
pub fn check(alloc: Global, h: History) -> Result<Accepted, CheckFault>
    ensures same { IfOk result (λ accepted. accepted ≡ h) }
    ensures accepted { IfOk result IsAccepted }
    ensures broken { IfErr result (IsFaultOf h) }
{
    match first_fault(alloc, &h) {
        Ok(None) => {
            accepted_is_unbroken(&h);
            Ok(Accepted::take(h))
        }
        Ok(Some(Broken { rule, array, index })) => Err(CheckFault::Broken { rule, array, index }),
        Err(Memory) => Err(CheckFault::Memory),
    }
}
