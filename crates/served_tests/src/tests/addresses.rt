//! Addresses that can't be listened at.
use log::Log;
use std::alloc::Global;
use std::net::{Net, TcpListener, TcpStream};
use std::test::Fail;
use std::time::Clock;
use tcp_server::{hint_of, listen};

// Whether there is no listener at the address, nothing is written, and the hint on standard error
// is right.
fn is_no_address<R: Net<Listener = TcpListener, Stream = TcpStream> + Eprint + Log + Clock>(
    rt: &R,
    alloc: Global,
    address: &str,
) -> bool {
    let mut out = Vec::<u8>::new(alloc);
    let listener = listen(rt, rt, alloc, address, &mut out);
    let hint = match TcpListener::bind(rt, address) {
        Ok(_) => "",
        Err(error) => hint_of(&error),
    };
    listener.is_none()
        && out.is_empty()
        && hint == "; HOST:PORT is wanted, as 127.0.0.1:7001 or [::1]:7001"
}

#[test]
fn no_addresses(rt: HostRuntime) -> Result<(), Fail> {
    let alloc = rt.alloc();
    assert!(rt; is_no_address(&rt, alloc, "7001"));
    assert!(rt; is_no_address(&rt, alloc, "127.0.0.1"));
    assert!(rt; is_no_address(&rt, alloc, "127.0.0.1:70000"));
    assert!(rt; is_no_address(&rt, alloc, ""));
    Ok(())
}

#[test]
fn taken_address(rt: HostRuntime) -> Result<(), Fail> {
    let taken = TcpListener::bind(&rt, "127.0.0.1:0")?;
    match TcpListener::bind(&rt, taken.local_addr()?) {
        Ok(_) => Err("it is taken".into()),
        Err(error) => {
            assert_eq!(rt; hint_of(&error), "");
            Ok(())
        }
    }
}
