ghost use Rattle.std.specs.Prelude.{◌≤◌, IfOk};

use dns_zone_file::Types;
use std::alloc::{AllocError, Global};
use std::io;
use stub_play::{PlayFault, PlayFormat, PlayInput, play_in_memory};

/// A writer that takes so many writes, and fails from then on. It cannot be flushed.
#[derive(Drop)]
struct Failing {
    left: usize,
}

impl io::Write for Failing {
    fn write(&mut self, bytes: &[u8]) -> io::Result<usize> {
        if self.left == 0 {
            return Err(io::Error::from(io::ErrorKind::BrokenPipe));
        }
        self.left -= 1;
        Ok(bytes.len())
    }

    fn flush(&mut self) -> io::Result<()> {
        Err(io::Error::from(io::ErrorKind::BrokenPipe))
    }
}

/// The input of a run that finds an address.
fn input(alloc: Global) -> Result<PlayInput, AllocError>
    ensures { IfOk result (λ input. 512 ≤ input.limit) }
{
    let zone = "t. 60 IN SOA ns.t. h.t. 1 3600 600 86400 30\na.t. 60 IN A 10.0.0.1\n";
    Ok(PlayInput {
        zone: String::from_str(alloc, zone)?,
        script: String::from_str(alloc, "0 lookup a.t. A\n")?,
        hosts: Vec::new(alloc),
        origin: None,
        limit: 1232,
        cache: 8192,
        max_ttl: 86_400,
        udp: false,
        types: Types::Nine,
        format: PlayFormat::Text,
    })
}

/// The first write fails, or a later one, or only the flush.
#[test]
fn a_writer_that_fails(rt: HostRuntime) -> Result<(), AllocError> {
    for left in [0, 1, 2, 3, 100] {
        let input = input(rt.alloc())?;
        let mut writer = Failing { left };
        let played = play_in_memory(rt.alloc(), &input, &mut writer);
        assert!(rt; matches!(&played, Err(PlayFault::Write)), "after {left}");
    }
    Ok(())
}
