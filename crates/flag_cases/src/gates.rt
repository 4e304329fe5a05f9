//! Questions on gates.
use crate::history::History;
use gate_flags::{GateFault, GateRow, GateValues, gate_values};
use gate_spec::{rises_in_date, spec_at};
use minor_version::{Memory, Minor};
use std::alloc::Global;
use std::fmt::Write;

fn said(alloc: Global, text: &str) -> Result<String, Memory> {
    Ok(String::from_str(alloc, text)?)
}

/// The fault with all that it says.
fn whole_fault(alloc: Global, fault: GateFault) -> Result<String, Memory> {
    Ok(format!(in alloc; "{fault:?}")?)
}

/// What the release knows of the gate.
pub fn spec(alloc: Global, history: &History, e: Minor, name: &str) -> Result<String, Memory> {
    if !rises_in_date(history.gates.items()) {
        return said(alloc, "dates fall");
    }
    let spec = spec_at(history.gates.items(), name.as_bytes(), e);
    Ok(format!(in alloc; "{spec:?}")?)
}

fn push_row(line: &mut String, row: &GateRow) -> Result<(), Memory> {
    let name = row.name.as_str();
    match write!(
        line,
        "{name} {:?} {} {} {};",
        row.stage, row.default, row.locked, row.value
    ) {
        Ok(()) => Ok(()),
        Err(_) => Err(Memory),
    }
}

fn push_rows(line: &mut String, rows: &[GateRow]) -> Result<(), Memory> {
    for row in rows {
        match push_row(line, row) {
            Ok(()) => {}
            Err(memory) => return Err(memory),
        }
    }
    Ok(())
}

fn listed(alloc: Global, values: &GateValues) -> Result<String, Memory> {
    let mut line = String::new(alloc);
    match push_rows(&mut line, values.rows()) {
        Ok(()) => Ok(line),
        Err(memory) => Err(memory),
    }
}

/// The rows that the text gives, or the fault with all that it says.
pub fn rows(alloc: Global, history: &History, e: Minor, text: &str) -> Result<String, Memory> {
    if !rises_in_date(history.gates.items()) {
        return said(alloc, "dates fall");
    }
    match gate_values(alloc, history.gates.items(), e, text.as_bytes()) {
        Ok(values) => listed(alloc, &values),
        Err(fault) => whole_fault(alloc, fault),
    }
}

/// The fault as it is printed.
pub fn fault(alloc: Global, history: &History, e: Minor, text: &str) -> Result<String, Memory> {
    if !rises_in_date(history.gates.items()) {
        return said(alloc, "dates fall");
    }
    match gate_values(alloc, history.gates.items(), e, text.as_bytes()) {
        Ok(_) => said(alloc, "none"),
        Err(fault) => Ok(format!(in alloc; "{fault}")?),
    }
}

fn value_in(alloc: Global, values: &GateValues, name: &str) -> Result<String, Memory> {
    let value = values.value(name.as_bytes());
    Ok(format!(in alloc; "{value:?}")?)
}

/// `<name> <text>`: the value of the gate.
pub fn value(alloc: Global, history: &History, e: Minor, rest: &str) -> Result<String, Memory> {
    let (name, text) = rest.split_once(' ').unwrap_or((rest, ""));
    if !rises_in_date(history.gates.items()) {
        return said(alloc, "dates fall");
    }
    match gate_values(alloc, history.gates.items(), e, text.as_bytes()) {
        Ok(values) => value_in(alloc, &values, name),
        Err(fault) => whole_fault(alloc, fault),
    }
}
