use dns_wire::{BinEncoder, NameEncoding};
use std::alloc::Global;

/// An encoder's mode while a guard is alive, and after the guard is dropped.
fn modes_around_a_guard(alloc: Global) -> (NameEncoding, NameEncoding) {
    let mut buffer = Vec::new(alloc);
    let mut encoder = BinEncoder::new(alloc, &mut buffer);
    encoder.set_name_encoding(NameEncoding::UncompressedLowercase);
    let inside = {
        let mut guard = encoder.with_name_encoding(NameEncoding::Uncompressed);
        guard.encoder_mut().name_encoding()
    };
    (inside, encoder.name_encoding())
}

#[test]
fn a_mode_is_restored(rt: HostRuntime) {
    assert_eq!(rt;
        modes_around_a_guard(rt.alloc()),
        (
            NameEncoding::Uncompressed,
            NameEncoding::UncompressedLowercase
        )
    );
}
