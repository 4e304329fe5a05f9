//! The clients of the cases, numbered from 0.
use std::alloc::Global;
use std::io::{self, ErrorKind, Read, Write};
use std::net::{Ipv4Addr, Shutdown, TcpStream};

/// Clients of a port of loopback.
#[derive(Drop)]
pub struct Clients {
    port: u16,
    streams: Vec<TcpStream>,
}

fn print_reply(rt: &HostRuntime, stream: &TcpStream) -> io::Result<()> {
    let mut reply = Vec::new(rt.alloc());
    let mut reader = stream;
    reader.read_to_end(&mut reply)?;
    let text = str::from_utf8(reply.as_slice()).unwrap_or("not UTF-8");
    println!(rt; "read [{text}]")
}

impl Clients {
    pub fn new(alloc: Global, port: u16) -> Self {
        Clients {
            port,
            streams: Vec::new(alloc),
        }
    }

    fn connect(&mut self, rt: &HostRuntime) -> io::Result<()> {
        let stream = TcpStream::connect(rt, (Ipv4Addr::LOCALHOST, self.port))?;
        self.streams.push(stream)?;
        Ok(())
    }

    fn stream(&self, number: &str) -> io::Result<&TcpStream> {
        let number = number.parse::<usize>().unwrap_or(usize::MAX);
        match self.streams.get(number) {
            Some(stream) => Ok(stream),
            None => Err(io::Error::from(ErrorKind::NotConnected)),
        }
    }

    /// Takes a step, and says whether it brings an event: `open`; `0:text`, a client sends the text; `0.`, it shuts its
    /// writing half; `0,`, it does so where it was shut; `end`, nothing is done.
    pub fn step(&mut self, rt: &HostRuntime, step: &str) -> io::Result<bool> {
        if step == "open" {
            self.connect(rt)?;
            return Ok(true);
        }
        if let Some((number, text)) = step.split_once(':') {
            let mut writer = self.stream(number)?;
            writer.write_all(text.as_bytes())?;
            return Ok(true);
        }
        if let Some(number) = step.strip_suffix(".") {
            self.stream(number)?.shutdown(Shutdown::Write)?;
            return Ok(true);
        }
        if let Some(number) = step.strip_suffix(",") {
            self.stream(number)?.shutdown(Shutdown::Write)?;
            return Ok(false);
        }
        Ok(true)
    }

    /// Prints what each client is sent, to the end.
    pub fn print_replies(&self, rt: &HostRuntime) -> io::Result<()> {
        for stream in &self.streams {
            match print_reply(rt, stream) {
                Ok(()) => {}
                Err(error) => return Err(error),
            }
        }
        Ok(())
    }
}
