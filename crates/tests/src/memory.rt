//! Names of up to 24 labels, whose bytes are up to 32, take no memory: these tests pass where every allocation is
//! refused (`rt try --test --fail-alloc 1`).

use dns_names::{Label, Name, ParseError};
use dns_wire::BinDecoder;
use std::alloc::{AllocError, Global};
use std::test::Fail;

/// 24 labels, and 32 bytes in them.
const MANY: &str = "aaaaaaaaa.b.c.d.e.f.g.h.i.j.k.l.m.n.o.p.q.r.s.t.u.v.w.x.";

/// One label, and 32 bytes in it.
const LONG: &str = "abcdefghijklmnopqrstuvwxyzABCDEF.";

#[test]
fn short_names_take_no_memory(rt: HostRuntime) -> Result<(), Fail> {
    for text in [MANY, LONG, "a.b.", "."] {
        let found = read_and_copied(rt.alloc(), text)?;
        assert_eq!(rt; found, [true; 3], "the text {text}");
    }
    Ok(())
}

/// Whether a name that was read from text is equal to its copy in lower case, lies below its base, and has no fewer
/// labels than its wildcard.
fn read_and_copied(alloc: Global, text: &str) -> Result<[bool; 3], ParseError> {
    let name = Name::from_ascii(alloc, text)?;
    Ok([is_lowered(&name)?, has_base(&name)?, has_star(&name)?])
}

fn is_lowered(name: &Name) -> Result<bool, AllocError> {
    let lower = name.clone()?.to_lowercase()?;
    Ok(*name == lower)
}

fn has_base(name: &Name) -> Result<bool, AllocError> {
    Ok(name.base_name()?.zone_of(name))
}

fn has_star(name: &Name) -> Result<bool, AllocError> {
    let star = name.clone()?.into_wildcard()?;
    Ok(star.num_labels() <= name.num_labels())
}

/// A name that ends in pointers, at the ninth byte.
const POINTERS: &[u8] = b"\x01a\x01b\x00\x01c\xC0\x02\x01d\xC0\x05";

/// The name of 24 labels and 32 bytes on the wire.
const MANY_ON_THE_WIRE: &[u8] =
    b"\x09aaaaaaaaa\x01b\x01c\x01d\x01e\x01f\x01g\x01h\x01i\x01j\x01k\x01l\x01m\x01n\x01o\x01p\x01q\x01r\x01s\x01t\x01u\x01v\x01w\x01x\x00";

/// How many labels a name has that stands at a place, and where it ends.
fn read_counted(alloc: Global, bytes: &[u8], place: usize) -> Result<(u8, usize), Fail> {
    if place > bytes.len() {
        return Err(Fail::new("a place in the bytes"));
    }
    let mut decoder = BinDecoder::new(bytes).clone(place);
    let count = Name::read(alloc, &mut decoder)?.num_labels();
    Ok((count, decoder.index()))
}

#[test]
fn names_with_pointers_are_read_without_memory(rt: HostRuntime) -> Result<(), Fail> {
    assert_eq!(rt; read_counted(rt.alloc(), POINTERS, 9)?, (3, 13));
    Ok(())
}

#[test]
fn the_longest_short_name_is_read_without_memory(rt: HostRuntime) -> Result<(), Fail> {
    assert_eq!(rt; read_counted(rt.alloc(), MANY_ON_THE_WIRE, 0)?, (24, 57));
    Ok(())
}

#[test]
fn short_names_are_made_without_memory(rt: HostRuntime) -> Result<(), Fail> {
    assert_eq!(rt; made_len(rt.alloc())?, 14);
    Ok(())
}

/// How long a name is that is made of labels and names.
fn made_len(alloc: Global) -> Result<usize, ParseError> {
    let label = Label::from_ascii(alloc, "www")?.to_lowercase()?;
    let name = made_of_labels(alloc)?.prepend_label(&label)?;
    Ok(name.append_name(&Name::new(alloc))?.len())
}

fn made_of_labels(alloc: Global) -> Result<Name, ParseError> {
    Name::root(alloc)
        .append_label("a")?
        .append_label(b"Example".as_slice())
}

#[test]
fn names_of_addresses_of_four_octets_take_no_memory(rt: HostRuntime) -> Result<(), Fail> {
    assert!(rt; is_named(rt.alloc())?);
    Ok(())
}

/// Whether the name of an address has its labels.
fn is_named(alloc: Global) -> Result<bool, AllocError> {
    let address = std::net::IpAddr::V4(std::net::Ipv4Addr::new(255, 255, 255, 255));
    Ok(Name::from(alloc, address)?.num_labels() == 6)
}
