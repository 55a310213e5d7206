use crate::running::Running;
use std::alloc::Global;
use std::io::{self, Read, Write};
use std::net::{Net, Shutdown, SocketAddr, TcpListener, TcpStream};
use std::test::Fail;
use std::time::{Clock, Duration};
use wire_core::{Happening, OpenFailed, Side, Text, Wires};
use wire_edge::TcpWires;

// The system's network, with this listener in place of a new one; a target that listens has dropped its link by then.
#[derive(Drop)]
struct Staged<'a> {
    rt: &'a HostRuntime,
    listener: &'a TcpListener,
    target: Option<&'a TcpListener>,
}

impl Net for Staged<'_> {
    type Stream = TcpStream;

    type Listener = TcpListener;

    fn bind(&self, _address: SocketAddr) -> io::Result<TcpListener> {
        if let Some(target) = self.target {
            target.accept()?;
        }
        self.listener.try_clone()
    }

    fn connect(&self, address: SocketAddr) -> io::Result<TcpStream> {
        TcpStream::connect(self.rt, address)
    }
}

impl Alloc for Staged<'_> {
    type A = Global;

    fn alloc(&self) -> Global {
        self.rt.alloc()
    }
}

impl Clock for Staged<'_> {
    fn monotonic(&self) -> io::Result<Duration> {
        self.rt.monotonic()
    }

    fn since_1970(&self) -> io::Result<Duration> {
        self.rt.since_1970()
    }
}

// Connections to a listener: one ends at once, another stays silent, and an editor's sends three bytes.
fn editors(rt: &HostRuntime, listener: &TcpListener) -> io::Result<(TcpStream, TcpStream)> {
    let address = listener.local_addr()?;
    drop(TcpStream::connect(rt, address)?);
    let silent = TcpStream::connect(rt, address)?;
    let mut editor = TcpStream::connect(rt, address)?;
    editor.write_all(b"abc")?;
    Ok((silent, editor))
}

// Wires that were opened to the target at this address.
fn opened(staged: Staged<'_>, target: SocketAddr) -> Result<Running<TcpWires<Staged<'_>>>, Fail> {
    let alloc = staged.alloc();
    let listen = Text::from_str(alloc, "127.0.0.1:0")?;
    let target = Text::from_string(target.to_string(alloc)?);
    let mut wires = TcpWires::new(staged);
    match wires.connect(listen, target) {
        Ok(()) => Ok(Running::new(alloc, wires)?),
        Err(_) => Err("not opened".into()),
    }
}

// What is heard next, waits in vain left out.
fn hear<W: Wires + Drop>(running: &mut Running<W>) -> Option<Happening> {
    for _ in 0..1000 {
        let happening = running.next();
        if happening != Some(Happening::Quiet) {
            return happening;
        }
    }
    None
}

// The target that the first send dials again, once it has shaken hands.
fn shaken<W: Wires + Drop>(
    running: &mut Running<W>,
    listener: &TcpListener,
) -> Result<TcpStream, Fail> {
    if !running.send(Side::Target, b"JDWP-Handshake") {
        return Err("the handshake is not sent".into());
    }
    let (mut target, _) = listener.accept()?;
    let mut got = [0; 16];
    if target.read(&mut got)? != 14 {
        return Err("another handshake".into());
    }
    target.write_all(b"JDWP-Handshake")?;
    Ok(target)
}

#[test]
fn bytes_go_both_ways(rt: HostRuntime) -> Result<(), Fail> {
    let dialled = TcpListener::bind(&rt, "127.0.0.1:0")?;
    let listener = TcpListener::bind(&rt, "127.0.0.1:0")?;
    let (_silent, mut editor) = editors(&rt, &listener)?;
    let staged = Staged {
        rt: &rt,
        listener: &listener,
        target: Some(&dialled),
    };
    let mut running = opened(staged, dialled.local_addr()?)?;

    // Nobody hears that the target dropped its link, and the first send dials again.
    assert_eq!(rt; hear(&mut running), Some(Happening::Bytes(Side::Client, 3)));
    let target = shaken(&mut running, &dialled)?;
    assert_eq!(rt;
        hear(&mut running),
        Some(Happening::Bytes(Side::Target, 14))
    );
    assert!(rt; running.send(Side::Client, b"de"));
    assert_eq!(rt; editor.read(&mut [0; 16])?, 2);
    drop(target);
    assert_eq!(rt; hear(&mut running), Some(Happening::Shut(Side::Target)));
    assert_eq!(rt; running.next(), Some(Happening::Quiet));
    drop(editor);
    assert_eq!(rt; hear(&mut running), Some(Happening::Shut(Side::Client)));
    Ok(())
}

#[test]
fn what_was_sent_arrives(rt: HostRuntime) -> Result<(), Fail> {
    let dialled = TcpListener::bind(&rt, "127.0.0.1:0")?;
    let listener = TcpListener::bind(&rt, "127.0.0.1:0")?;
    let (_silent, mut editor) = editors(&rt, &listener)?;
    let staged = Staged {
        rt: &rt,
        listener: &listener,
        target: None,
    };
    let mut running = opened(staged, dialled.local_addr()?)?;
    assert!(rt; running.send(Side::Client, b"answer"));

    // Three bytes of the editor are not read before the end, and the link isn't reset for that.
    editor.shutdown(Shutdown::Write)?;
    running.into_wires().close();
    let mut heard = Vec::new(rt.alloc());
    editor.read_to_end(&mut heard)?;
    assert_eq!(rt; heard.as_slice(), b"answer".as_slice());
    Ok(())
}

// Wires that reached the target at this address, and no client.
fn reached(rt: &HostRuntime, target: SocketAddr) -> Result<Running<TcpWires<&HostRuntime>>, Fail> {
    let target = Text::from_string(target.to_string(rt.alloc())?);
    let mut wires = TcpWires::new(rt);
    match wires.reach(target) {
        Ok(()) => Ok(Running::reached(rt.alloc(), wires)?),
        Err(_) => Err("not reached".into()),
    }
}

#[test]
fn a_target_is_reached_alone(rt: HostRuntime) -> Result<(), Fail> {
    let dialled = TcpListener::bind(&rt, "127.0.0.1:0")?;
    let mut running = reached(&rt, dialled.local_addr()?)?;
    let target = shaken(&mut running, &dialled)?;
    assert_eq!(rt;
        hear(&mut running),
        Some(Happening::Bytes(Side::Target, 14))
    );
    assert!(rt; !running.send(Side::Client, b"de"));
    drop(target);
    assert_eq!(rt; hear(&mut running), Some(Happening::Shut(Side::Target)));
    assert_eq!(rt; running.next(), None);
    Ok(())
}

#[test]
fn a_name_that_the_system_refuses_is_a_fault(rt: HostRuntime) -> Result<(), Fail> {
    let listen = Text::from_str(rt.alloc(), "127.0.0.1:0")?;
    let target = Text::from_str(rt.alloc(), "no port")?;
    let alone = Text::from_str(rt.alloc(), "no port")?;
    assert_eq!(rt; TcpWires::new(&rt).connect(listen, target), Err(OpenFailed));
    assert_eq!(rt; TcpWires::new(&rt).reach(alone), Err(OpenFailed));
    Ok(())
}
