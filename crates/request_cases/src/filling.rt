//! Many objects in a server.
use crate::requests::request;
use crate::slot::{Slot, replied};
use basis::Memory;
use std::alloc::Global;

/// The line that asks for a new widget with this number.
fn creation(alloc: Global, number: u16) -> Result<String, Memory> {
    let path = "/apis/demo.example/v1/namespaces/default/widgets";
    Ok(format!(in alloc;
        "POST {path} - {{\"metadata\":{{\"name\":\"w{number}\"}},\"spec\":{{\"dimensions\":{{\"size\":{number}}}}}}}"
    )?)
}

/// Whether the widget with this number was made.
fn makes(alloc: Global, slot: &mut Slot, number: u16) -> Result<bool, Memory> {
    let line = creation(alloc, number)?;
    let request = request(alloc, line.as_str())?;
    let reply = replied(alloc, slot, &request)?;
    Ok(reply.code == 201)
}

/// Asks for so many widgets, until one isn't made. How many were made.
fn made(alloc: Global, slot: &mut Slot, count: u16) -> Result<u16, Memory> {
    for number in 0..count {
        match makes(alloc, slot, number) {
            Ok(true) => {}
            Ok(false) => return Ok(number),
            Err(_) => return Err(Memory),
        }
    }
    Ok(count)
}

/// So many widgets, in decimal.
pub fn answer(alloc: Global, slot: &mut Slot, count: &str) -> Result<String, Memory> {
    let made = made(alloc, slot, count.parse::<u16>().unwrap_or(0))?;
    Ok(format!(in alloc; "{made} made")?)
}
