//! Sections of records: which record may be where, and what a section has.

ghost use Rattle.std.specs.Prelude.{◌≡◌, ◌≢◌, ◌++◌, ◌∷◌, true, [], None, Ok, IfOk, IfErr, OnOk};
ghost use Rattle.dns_data.specs.rdata.{IsSoundData};
ghost use Rattle.dns_records.specs.Record.{ReadsRecord};
ghost use Rattle.dns_messages.specs.Section.{head_fault, opt_fault, record_fault, with_record, RefusesNext, ReadsSectionRecords, RefusesSection};
ghost use Rattle.dns_messages.specs.Grammar.{kind_of};
ghost use Rattle.dns_messages.specs.Sound.{is_update_code};

use crate::edns::Edns;
use crate::op_code::OpCode;
use dns_data::RData;
use dns_names::Name;
use dns_records::{Record, RecordHead, Sequence};
use dns_wire::{BinDecoder, DecodeError, RecordType};
use std::alloc::{AllocError, Global};

/// The number of items for which memory is allocated at most before they are decoded: a count may be false.
const MAX_EXPECTED: u16 = 16;

/// The records of a section.
#[derive(Drop)]
pub struct SectionRecords {
    /// The records that are neither an OPT record nor a signature.
    pub records: Sequence<Record>,
    /// The OPT record (RFC 6891 section 6.1).
    pub edns: Option<Edns>,
    /// The signature: a TSIG record with data (RFC 8945 section 4.2).
    pub signature: Option<Record>,
}

/// Where a record is.
#[derive(Clone, Copy)]
pub(crate) struct Setting {
    /// The message is an update (RFC 2136).
    pub(crate) is_update: bool,
    /// The section is the additional section.
    pub(crate) is_additional: bool,
    /// An OPT record precedes it in the section.
    pub(crate) has_edns: bool,
    /// No record follows it in the section.
    pub(crate) is_last: bool,
}

impl SectionRecords {
    /// Creates an empty section.
    pub(crate) fn new(alloc: Global) -> SectionRecords
        ensures { result ≡ record { records = []; edns = None; signature = None } }
    {
        SectionRecords {
            records: Sequence::new(alloc),
            edns: None,
            signature: None,
        }
    }

    /// Decodes `count` records of the section, which is empty.
    pub(crate) fn read(
        &mut self,
        alloc: Global,
        decoder: &mut BinDecoder<'_>,
        count: u16,
        op_code: OpCode,
        is_additional: bool,
    ) -> Result<(), DecodeError>
        requires { self.old ≡ record { records = []; edns = None; signature = None } }
        ensures read { IfOk result (λ _. ReadsSectionRecords decoder.old.bytes
            (kind_of op_code is_additional) decoder.old.index count self.new decoder.new.index) }
        ensures refused { IfErr result (λ error. error ≢ DecodeError.Memory
            → RefusesSection decoder.old.bytes
            (kind_of op_code is_additional) decoder.old.index count error) }
        ensures bytes { decoder.new.bytes ≡ decoder.old.bytes }
        ensures decided { count ≡ 0 → (result ≡ Ok tt) × (self.new ≡ self.old) }
    {
        let is_update = is_update(op_code);
        for nth in 0..count {
            let setting = Setting {
                is_update,
                is_additional,
                has_edns: self.edns.is_some(),
                is_last: count - nth == 1,
            };
            let next = read_record(alloc, decoder, setting)?;
            self.push(alloc, next, count - nth)?;
        }
        Ok(())
    }

    /// Adds the next record of the section, after which fewer than `expected` others are expected.
    pub(crate) fn push(
        &mut self,
        alloc: Global,
        next: Record,
        expected: u16,
    ) -> Result<(), AllocError>
        requires { IsSoundData next.rdata }
        ensures { OnOk result (self.new ≡ with_record self.old next) }
    {
        match &next.rdata {
            RData::OPT(_) => self.edns = Edns::from_record(next),
            RData::Unknown {
                code: RecordType::TSIG,
                rdata: _,
            } => self.signature = Some(next),
            _ => push_expected(alloc, &mut self.records, next, expected)?,
        }
        Ok(())
    }
}

/// Adds an item to a list. With the first one, memory is allocated for as many as are expected, but at most for
/// [`MAX_EXPECTED`].
pub(crate) fn push_expected<T: Drop>(
    alloc: Global,
    items: &mut Sequence<T>,
    item: T,
    expected: u16,
) -> Result<(), AllocError>
    ensures { OnOk result (items.new ≡ items.old ++ item ∷ []) }
{
    if items.is_empty() {
        make_room(alloc, items, usize::from(expected.min(MAX_EXPECTED)))?;
    }
    items.push(item)
}

/// Allocates memory for items of an empty list.
fn make_room<T: Drop>(
    alloc: Global,
    items: &mut Sequence<T>,
    count: usize,
) -> Result<(), AllocError>
    requires { items.old ≡ [] }
    ensures { items.new ≡ [] }
{
    *items = Sequence::from_vec(Vec::with_capacity(alloc, count)?);
    Ok(())
}

/// Returns `true` for the opcode of updates (RFC 2136 section 1.3).
fn is_update(op_code: OpCode) -> bool
    ensures { result ≡ is_update_code op_code }
{
    matches!(op_code, OpCode::Update)
}

/// Returns the fault of an OPT record of this owner at its place, if it has one (RFC 6891 sections 6.1.1 and 6.1.2).
fn opt_fault(owner: &Name, setting: Setting) -> Option<DecodeError>
    requires { owner.now.is_fqdn ≡ true }
    ensures { result ≡ opt_fault setting owner.now }
{
    if !setting.is_additional {
        Some(DecodeError::RecordNotInAdditionalSection)
    } else if setting.has_edns {
        Some(DecodeError::DuplicateEdns)
    } else if owner.is_root() {
        None
    } else {
        Some(DecodeError::EdnsNameNotRoot)
    }
}

/// Returns the fault of a record with this head at its place, if it has one.
fn head_fault(head: &RecordHead, setting: Setting) -> Option<DecodeError>
    requires { head.now.name.is_fqdn ≡ true }
    ensures { result ≡ head_fault setting head.now }
{
    match head.record_type {
        RecordType::OPT => opt_fault(&head.name, setting),
        _ if head.len == 0 && setting.is_update => None,
        _ if head.len == 0 => Some(DecodeError::InvalidEmptyRecord),
        RecordType::TSIG if !setting.is_additional || !setting.is_last => {
            Some(DecodeError::RecordNotInAdditionalSection)
        }
        _ => None,
    }
}

/// Reads the next record of a section.
pub(crate) fn read_record(
    alloc: Global,
    decoder: &mut BinDecoder<'_>,
    setting: Setting,
) -> Result<Record, DecodeError>
    ensures read { IfOk result (λ found.
        ReadsRecord decoder.old.bytes decoder.old.index found decoder.new.index) }
    ensures placed { IfOk result (λ found. record_fault setting found ≡ None) }
    ensures refused { IfErr result (λ error. error ≢ DecodeError.Memory
        → RefusesNext decoder.old.bytes setting decoder.old.index error) }
    ensures bytes { decoder.new.bytes ≡ decoder.old.bytes }
{
    let head = RecordHead::read(alloc, decoder)?;
    match head_fault(&head, setting) {
        Some(fault) => Err(fault),
        None => head.read_data(alloc, decoder),
    }
}
