//! Cases of the real world: a line of standard input is a case, and what comes of it is printed. The clients of the
//! listener are in this process: each of their steps brings one event, which is taken before the next step.
#![tactic(auto)]

mod clients;
mod server;

use crate::clients::Clients;
use crate::server::{serve, serve_one};
use disk::{Disk, File};
use minor_version::Text;
use real_world::{RealWorld, WorldFault};
use std::io::{self, ErrorKind};
use words::Places;
use world::Front;

const STORE: &str = "store";

fn memory() -> io::Error {
    io::Error::from(ErrorKind::OutOfMemory)
}

fn text(rt: &HostRuntime, text: &str) -> io::Result<Text> {
    Text::from_str(rt.alloc(), text).map_err(|_| memory())
}

fn script_places(rt: &HostRuntime, path: &str) -> io::Result<Places> {
    Ok(Places {
        store: Some(text(rt, STORE)?),
        port: None,
        connections: 0,
        script: Some(text(rt, path)?),
    })
}

fn port_places(rt: &HostRuntime, store: &str, port: &str, connections: u32) -> io::Result<Places> {
    Ok(Places {
        store: Some(text(rt, store)?),
        port: port.parse::<u16>().ok(),
        connections,
        script: None,
    })
}

fn print_fault(rt: &HostRuntime, fault: WorldFault) -> io::Result<()> {
    println!(rt; "{fault}")
}

fn run_script(rt: &HostRuntime, path: &str) -> io::Result<()> {
    let places = script_places(rt, path)?;
    match RealWorld::from(rt, rt.alloc(), &places) {
        Ok(mut world) => serve(rt, &mut world),
        Err(fault) => print_fault(rt, fault),
    }
}

// The calls of a world without places.
fn run_nowhere(rt: &HostRuntime) -> io::Result<()> {
    let places = Places {
        store: None,
        port: None,
        connections: 0,
        script: None,
    };
    match RealWorld::from(rt, rt.alloc(), &places) {
        Ok(mut world) => {
            let is_taken = world.next(&mut [0; 8]).is_ok();
            let is_long = world.len(File::Left).is_ok();
            let is_written = world.write_at(File::Left, 0, b"x").is_ok();
            println!(rt; "next {is_taken} len {is_long} write_at {is_written}")
        }
        Err(fault) => print_fault(rt, fault),
    }
}

// A second world at a store that a first one holds.
fn run_held(rt: &HostRuntime, path: &str) -> io::Result<()> {
    let places = script_places(rt, path)?;
    match RealWorld::from(rt, rt.alloc(), &places) {
        Ok(_first) => run_script(rt, path),
        Err(fault) => print_fault(rt, fault),
    }
}

fn print_second(rt: &HostRuntime, places: &Places) -> io::Result<()> {
    match RealWorld::from(rt, rt.alloc(), places) {
        Ok(_second) => println!(rt; "bound twice"),
        Err(fault) => print_fault(rt, fault),
    }
}

// A second world at a port on which a first one listens.
fn run_bound(rt: &HostRuntime, port: &str) -> io::Result<()> {
    let places = port_places(rt, STORE, port, 1)?;
    let others = port_places(rt, "other", port, 1)?;
    match RealWorld::from(rt, rt.alloc(), &places) {
        Ok(_first) => print_second(rt, &others),
        Err(fault) => print_fault(rt, fault),
    }
}

fn take_steps<W: Front>(
    rt: &HostRuntime,
    world: &mut W,
    clients: &mut Clients,
    steps: &str,
) -> io::Result<()> {
    for step in steps.split(' ') {
        let brings_event = match clients.step(rt, step) {
            Ok(brings_event) => brings_event,
            Err(error) => return Err(error),
        };
        if brings_event {
            match serve_one(rt, world) {
                Ok(_) => {}
                Err(error) => return Err(error),
            }
        }
    }
    Ok(())
}

fn run_listener(rt: &HostRuntime, port: &str, connections: u32, steps: &str) -> io::Result<()> {
    let places = port_places(rt, STORE, port, connections)?;
    let mut clients = Clients::new(rt.alloc(), places.port.unwrap_or(0));
    match RealWorld::from(rt, rt.alloc(), &places) {
        Ok(mut world) => take_steps(rt, &mut world, &mut clients, steps)?,
        Err(fault) => print_fault(rt, fault)?,
    }
    // The world is gone, and with it its sockets.
    clients.print_replies(rt)
}

fn run(rt: &HostRuntime, case: &str) -> io::Result<()> {
    let (name, rest) = case.split_once(' ').unwrap_or((case, ""));
    match name {
        "script" => run_script(rt, rest),
        "nowhere" => run_nowhere(rt),
        "held" => run_held(rt, rest),
        "bound" => run_bound(rt, rest),
        _ => {
            let (port, rest) = rest.split_once(' ').unwrap_or((rest, ""));
            let (count, steps) = rest.split_once(' ').unwrap_or((rest, ""));
            run_listener(rt, port, count.parse::<u32>().unwrap_or(0), steps)
        }
    }
}

fn main(rt: HostRuntime) -> anyhow::Result<()> {
    for line in rt.lines(rt.alloc()) {
        let line = line?;
        println!(rt; "- {}", line.as_str())?;
        run(&rt, line.as_str())?;
    }
    Ok(())
}
