use dns_zone::{DatagramLimit, Zone};
use std::alloc::Global;
use std::test::Fail;
use stub_link::{Link, ScriptedLink, WireHandle};

/// A handle over a link to a zone without addresses, and without ids.
fn handle(alloc: Global) -> Result<WireHandle<ScriptedLink>, Fail> {
    let text = "t. 60 IN SOA ns.t. h.t. 1 3600 600 86400 30\n";
    let zone = Zone::from_text(alloc, text, &[], None)?;
    let link = ScriptedLink::new(alloc, zone, DatagramLimit::new(512)?);
    Ok(WireHandle::new(alloc, link, Vec::new(alloc)))
}

/// The zone refuses z. A, which is outside of it (RFC 1035 section 4.1.1).
#[test]
fn a_handle_lends_its_link(rt: HostRuntime) -> Result<(), Fail> {
    let request = [0, 8, 1, 0, 0, 1, 0, 0, 0, 0, 0, 0, 1, 0x7A, 0, 0, 1, 0, 1];
    let want: [u8; 19] = [
        0, 8, 0x81, 5, 0, 1, 0, 0, 0, 0, 0, 0, 1, 0x7A, 0, 0, 1, 0, 1,
    ];
    let mut handle = handle(rt.alloc())?;
    assert!(rt; handle.link_mut().send_datagram(&request).is_ok());
    let Ok(Some(reply)) = handle.link_mut().next_datagram() else {
        return Err(Fail::new("no reply came"));
    };
    assert_eq!(rt; reply.as_slice(), want.as_slice());
    Ok(())
}
