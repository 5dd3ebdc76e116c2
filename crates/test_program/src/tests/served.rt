//! Connections that are served at a port that the system chooses.
use super::acting::fails;
use super::lives::{is_made, remove};
use disk_files::MachineNetwork;
use register_desk::Finish;
use register_program::{Attendance, Network, serve_on};
use std::io::{self, Write};
use std::net::TcpStream;
use std::test::Fail;
use test_desk_trials::{ADVANCE, make_desk};

/// A client's connection to the network's port, with these bytes on it. It waits there to be accepted.
fn send(rt: &HostRuntime, network: &MachineNetwork<'_>, bytes: &[u8]) -> io::Result<TcpStream> {
    let mut stream = TcpStream::connect(rt, network.local_addr()?)?;
    stream.write_all(bytes)?;
    Ok(stream)
}

/// Whether one client that sends *advanced* is served, at a moment of this machine's clock.
fn is_served(rt: &HostRuntime) -> Result<bool, Fail> {
    let mut desk = make_desk(rt.alloc())?;
    let mut network = MachineNetwork::new(rt);
    network.listen_at_localhost(0)?;
    let stream = send(rt, &network, ADVANCE.as_bytes())?;
    let mut attendance = Attendance::new();
    let finish = serve_on(rt.alloc(), &mut desk, &mut network, 1, &mut attendance);
    let reply = io::read_to_string(rt.alloc(), stream)?;
    Ok(
        finish == (Finish::AtEnd { rest: 0 })
            && reply.as_str().starts_with("HTTP/1.1 200 OK\r\n")
            && desk.latest().seconds() > 1_700_000_000,
    )
}

#[test]
fn a_connection_is_served(rt: HostRuntime) -> Result<(), Fail> {
    assert!(rt; is_served(&rt)?);
    Ok(())
}

/// Whether `serve` at a port that is taken is told.
fn is_taken_port_told(rt: &HostRuntime, file: &str) -> Result<bool, Fail> {
    let mut network = MachineNetwork::new(rt);
    network.listen_at_localhost(0)?;
    let number = network.local_addr()?.port();
    let port = format!(in rt.alloc(); "{number}")?;
    let words = [
        "serve",
        "--file",
        file,
        "--port",
        port.as_str(),
        "--exchanges",
        "1",
    ];
    let is_told = fails(rt, &words, b"", 4, "keyreg: ReadFault\n")?;
    drop(network);
    Ok(is_told)
}

#[test]
fn a_port_that_is_taken_is_told(rt: HostRuntime) -> Result<(), Fail> {
    let file = "taken_port.keyreg";
    assert!(rt; is_made(&rt, file)?);
    assert!(rt; is_taken_port_told(&rt, file)?);
    remove(&rt, file)
}
