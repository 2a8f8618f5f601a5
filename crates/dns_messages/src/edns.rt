//! The OPT record of a message: extension mechanisms for DNS (RFC 6891).

ghost use Rattle.std.specs.Prelude.{◌≡◌, ◌≢◌, ◌<◌, ◌/◌, ◌*◌, ◌%◌, []};
ghost use Rattle.dns_messages.specs.declared.edns.Edns.{Edns};

use dns_data::{EdnsOption, OPT, RData};
use dns_names::Name;
use dns_records::{Record, RecordParts, emit_behind_owner};
use dns_wire::{BinEncodable, BinEncoder, DNSClass, EncodeError, NameEncoding, RecordType};
use std::alloc::{AllocError, Global};

/// The payload size that messages announce by default, in bytes.
pub const DEFAULT_MAX_PAYLOAD_LEN: u16 = 1232;

/// The flags of an OPT record (RFC 6891 section 6.1.4).
#[derive(Clone, Copy, Debug, PartialEq, Eq)]
pub struct EdnsFlags {
    /// DO: records of DNSSEC are wanted (RFC 3225 section 3).
    pub dnssec_ok: bool,
    /// The other flags, which are reserved: 15 bits.
    pub z: u16,
}

/// The OPT record of a message (RFC 6891 section 6.1).
#[derive(Drop)]
pub struct Edns {
    pub(crate) rcode_high: u8,
    pub(crate) version: u8,
    pub(crate) flags: EdnsFlags,
    pub(crate) max_payload: u16,
    pub(crate) options: OPT,
}

impl From<u16> for EdnsFlags {
    ghost use Rattle.std.specs.Prelude.{◌≡◌};
    ghost use Rattle.dns_messages.specs.Edns.{flags_of};

    ghost from_gives = { λ number flags. flags ≡ flags_of number };

    fn from(number: u16) -> EdnsFlags {
        EdnsFlags {
            dnssec_ok: number / 32768 % 2 == 1,
            z: number % 32768,
        }
    }
}

/// Flags that do not fit 15 bits lose their upper bit.
impl From<EdnsFlags> for u16 {
    ghost use Rattle.std.specs.Prelude.{◌≡◌};
    ghost use Rattle.dns_messages.specs.Edns.{flags_number};

    ghost from_gives = { λ flags number. number ≡ flags_number flags };

    fn from(flags: EdnsFlags) -> u16 {
        32768 * u16::from(flags.dnssec_ok) + flags.z % 32768
    }
}

impl Edns {
    ghost use Rattle.std.specs.Prelude.{if◌then◌else◌, Some, None, IsOk};
    ghost use Rattle.dns_wire.specs.Encoder.{state_of, IsAtEnd};
    ghost use Rattle.dns_wire.specs.Encodable.{position_of, Emits, AreWritable};
    ghost use Rattle.dns_messages.specs.Edns.{is_opt_data, edns_of, edns_pieces, edns_ttl};

    /// Converts an OPT record, without copying its options. Answers `None` for any other record.
    pub fn from_record(opt: Record) -> Option<Edns>
        ensures { result ≡ if is_opt_data opt.rdata then Some (edns_of opt) else None }
    {
        let RecordParts {
            name: _,
            dns_class,
            ttl,
            rdata,
        } = opt.into_parts();
        let max_payload = u16::from(dns_class);
        let options = rdata.into_opt()?;
        Some(Edns {
            rcode_high: (ttl / 16_777_216) as u8,
            version: (ttl / 65_536 % 256) as u8,
            flags: EdnsFlags::from((ttl % 65_536) as u16),
            max_payload,
            options,
        })
    }

    /// Writes the OPT record with other upper eight bits of the response code. The options are not copied.
    pub(crate) fn emit_with_code(
        &self,
        rcode_high: u8,
        encoder: &mut BinEncoder<'_>,
    ) -> Result<(), EncodeError>
        requires { IsAtEnd (state_of encoder.old) }
        ensures emits { Emits (state_of encoder.old)
            (edns_pieces (position_of (state_of encoder.old))
            (record self.now { rcode_high = rcode_high })) result (state_of encoder.new) }
        ensures writable { IsOk result → AreWritable (edns_pieces
            (position_of (state_of encoder.old)) (record self.now { rcode_high = rcode_high })) }
    {
        let ttl = ttl_of(rcode_high, self.version, self.flags);
        emit_root(encoder)?;
        let class = DNSClass::OPT(self.max_payload);
        emit_behind_owner(RecordType::OPT, class, ttl, &self.options, encoder)
    }
}

impl Edns {
    ghost use Rattle.std.specs.Prelude.{true, false, [], max, option_map, IfOk, IsOk};
    ghost use Rattle.std.specs.List.{find};
    ghost use Rattle.std.specs.Option.{option_copied};
    ghost use Rattle.std.specs.Borrow.{sem};
    ghost use Rattle.dns_messages.specs.Edns.{opt_record, has_code};
    ghost use Rattle.dns_messages.specs.Lending.{LendsFlags, LendsOptions};

    /// Creates an OPT record of version 0 without flags and options, which announces [`DEFAULT_MAX_PAYLOAD_LEN`].
    pub fn new(alloc: Global) -> Edns
        ensures { result ≡ record {
          rcode_high = 0;
          version = 0;
          flags = record { dnssec_ok = false; z = 0 };
          max_payload = 1232;
          options = [];
        } }
    {
        Edns {
            rcode_high: 0,
            version: 0,
            flags: EdnsFlags {
                dnssec_ok: false,
                z: 0,
            },
            max_payload: DEFAULT_MAX_PAYLOAD_LEN,
            options: OPT::new(Vec::new(alloc)),
        }
    }

    /// Returns the upper eight bits of the response code (RFC 6891 section 6.1.3).
    pub fn rcode_high(&self) -> u8
        ensures { result ≡ self.now.rcode_high }
    {
        self.rcode_high
    }

    /// Returns the version.
    pub fn version(&self) -> u8
        ensures { result ≡ self.now.version }
    {
        self.version
    }

    /// Returns the flags.
    pub fn flags(&self) -> &EdnsFlags
        ensures { result.now ≡ self.now.flags }
    {
        &self.flags
    }

    /// Returns the flags, which can be changed.
    pub fn flags_mut(&mut self) -> &mut EdnsFlags
        ensures value { result.now ≡ self.old.flags }
        ensures* lends { sem 𝓛 (LendsFlags self.entry result) }
    {
        &mut self.flags
    }

    /// Returns the payload size, in bytes.
    pub fn max_payload(&self) -> u16
        ensures { result ≡ self.now.max_payload }
    {
        self.max_payload
    }

    /// Returns the first option with a code.
    pub fn option(&self, code: u16) -> Option<&EdnsOption>
        ensures { option_copied result ≡ find (has_code code) self.now.options }
    {
        self.options
            .options()
            .iter()
            .find(|option| option.code() == code)
    }

    /// Returns the options.
    pub fn options(&self) -> &OPT
        ensures { result.now ≡ self.now.options }
    {
        &self.options
    }

    /// Returns the options, which can be changed.
    pub fn options_mut(&mut self) -> &mut OPT
        ensures value { result.now ≡ self.old.options }
        ensures* lends { sem 𝓛 (LendsOptions self.entry result) }
    {
        &mut self.options
    }

    /// Sets the upper eight bits of the response code.
    pub fn set_rcode_high(&mut self, rcode_high: u8)
        ensures { self.new ≡ record self.old { rcode_high = rcode_high } }
    {
        self.rcode_high = rcode_high;
    }

    /// Sets the version.
    pub fn set_version(&mut self, version: u8)
        ensures { self.new ≡ record self.old { version = version } }
    {
        self.version = version;
    }

    /// Sets DO: records of DNSSEC are wanted (RFC 3225 section 3).
    pub fn enable_dnssec(&mut self)
        ensures { self.new ≡ record self.old {
          flags = record self.old.flags { dnssec_ok = true };
        } }
    {
        self.set_dnssec_ok(true);
    }

    /// Sets or clears DO (RFC 3225 section 3).
    pub fn set_dnssec_ok(&mut self, dnssec_ok: bool)
        ensures { self.new ≡ record self.old {
          flags = record self.old.flags { dnssec_ok = dnssec_ok };
        } }
    {
        self.flags.dnssec_ok = dnssec_ok;
    }

    /// Sets the payload size, in bytes. Less than 512 means 512 (RFC 6891 section 6.2.3).
    pub fn set_max_payload(&mut self, max_payload: u16)
        ensures { self.new ≡ record self.old { max_payload = max max_payload 512 } }
    {
        self.max_payload = max_payload.max(512);
    }

    /// Copies the record. One without options takes no memory.
    pub fn clone(&self) -> Result<Edns, AllocError>
        ensures ok { IfOk result (λ copy. copy ≡ self.now) }
        ensures empty { self.now.options ≡ [] → IsOk result }
    {
        Ok(Edns {
            rcode_high: self.rcode_high,
            version: self.version,
            flags: self.flags,
            max_payload: self.max_payload,
            options: self.options.clone()?,
        })
    }

    /// Converts to a record, which is owned by the root. The options are copied; without any it takes no memory.
    pub fn to_record(&self, alloc: Global) -> Result<Record, AllocError>
        ensures ok { IfOk result (λ opt. opt ≡ opt_record self.now) }
        ensures empty { self.now.options ≡ [] → IsOk result }
    {
        Ok(Record {
            name: Name::root(alloc),
            dns_class: DNSClass::OPT(self.max_payload),
            ttl: ttl_of(self.rcode_high, self.version, self.flags),
            rdata: RData::OPT(self.options.clone()?),
        })
    }
}

/// The upper eight bits of the response code are its own.
impl BinEncodable for Edns {
    ghost use Rattle.dns_messages.specs.Edns.{edns_pieces};

    ghost pieces = { λ e s. edns_pieces s e };

    fn emit(&self, encoder: &mut BinEncoder<'_>) -> Result<(), EncodeError> {
        self.emit_with_code(self.rcode_high, encoder)
    }
}

ghost use Rattle.std.specs.Prelude.{◌∷◌, ◌+◌, ◌*◌};
ghost use Rattle.dns_messages.specs.Edns.{flags_number};
ghost use Rattle.dns_wire.specs.Encoder.{state_of, IsAtEnd};
ghost use Rattle.dns_wire.specs.Encodable.{Emits, Domain};

/// Returns the TTL of an OPT record: the upper eight bits of the response code, the version and the flags (RFC 6891
/// section 6.1.3).
fn ttl_of(rcode_high: u8, version: u8, flags: EdnsFlags) -> u32
    ensures { result ≡ 16777216 * rcode_high + (65536 * version + flags_number flags) }
{
    let flags = u16::from(flags);
    16_777_216 * u32::from(rcode_high) + (65_536 * u32::from(version) + u32::from(flags))
}

/// Writes the name of the root.
fn emit_root(encoder: &mut BinEncoder<'_>) -> Result<(), EncodeError>
    requires { IsAtEnd (state_of encoder.old) }
    ensures { Emits (state_of encoder.old) (Domain [] ∷ []) result (state_of encoder.new) }
{
    if let NameEncoding::Compressed = encoder.name_encoding() {
        encoder.begin_name();
    }
    encoder.emit_u8(0)
}
