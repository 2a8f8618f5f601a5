//! Dynamic updates of a zone whose serial number may rise by itself (RFC 2136 section 3.6).

ghost use Rattle.std.specs.Prelude.{◌≡◌, ◌≢◌, [], ◌∷◌, true, IfOk, IsOk, OnOk, OnErr};
ghost use Rattle.dns_differences.specs.Difference.{is_empty};
ghost use Rattle.dns_messages.specs.declared.response_code.ResponseCode.TheVariants.{NoError};

use crate::rows::records_at;
use crate::zone::Zone;
use crate::zone::rise::{Rise, rise_after};
use crate::zone::serials::Serials;
use crate::zone::update::Applied;
use dns_differences::Difference;
use dns_messages::{Message, ResponseCode};
use dns_records::Record;
use dns_updates::update_changes;
use dns_wire::RecordType;
use std::alloc::AllocError;

impl Zone {
    ghost use Rattle.dns_messages.specs.Sound.{IsSound};
    ghost use Rattle.dns_updates.specs.Change.{update_change};
    ghost use Rattle.dns_updates.specs.Code.{update_code};
    ghost use Rattle.dns_zone.specs.Maintained.{IsRecordable, maintained, risen};
    ghost use Rattle.dns_zone.specs.Rows.{rows_of, IsZone};
    ghost use Rattle.dns_zone.specs.declared.zone.serials.Serials.TheVariants.{Rising};
    ghost use Rattle.dns_zone.specs.internal.Rise.{zone_with_start, HasLowerKeys, IsRise};
    ghost use Rattle.dns_zone.specs.internal.Store.{IsSingle};

    /// Applies a dynamic update as [`update`](Zone::update) does, and returns its response code and what has changed. With
    /// [`Serials::Rising`], a change of the records that leaves the SOA record as it was raises its serial number by one, and the
    /// change has both versions of the SOA record, in front. All memory is taken before a record changes.
    pub fn update_with(&mut self, update: &Message, serials: Serials) -> Result<Applied, AllocError>
        requires { IsSound update.now }
        ensures code { IfOk result (λ applied.
            applied.code ≡ update_code self.old.origin self.old.rows update.now) }
        ensures ok { OnOk result (self.new ≡ maintained serials self.old update.now) }
        ensures change { IfOk result (λ applied.
            IsRecordable self.old.rows self.new.rows applied.change) }
        ensures decided { update_code self.old.origin self.old.rows update.now ≢ NoError
            → IfOk result (λ applied. is_empty applied.change ≡ true) × IsOk result }
        ensures err { OnErr result (self.new ≡ self.old) }
        ensures well_formed { IsZone self.new }
    {
        match serials {
            Serials::Kept => self.update(update),
            Serials::Rising => self.update_rising(update),
        }
    }

    /// Applies a dynamic update, after which the serial number rises if that is due.
    fn update_rising(&mut self, update: &Message) -> Result<Applied, AllocError>
        requires { IsSound update.now }
        ensures code { IfOk result (λ applied.
            applied.code ≡ update_code self.old.origin self.old.rows update.now) }
        ensures ok { OnOk result (self.new ≡ maintained Rising self.old update.now) }
        ensures change { IfOk result (λ applied.
            IsRecordable self.old.rows self.new.rows applied.change) }
        ensures decided { update_code self.old.origin self.old.rows update.now ≢ NoError
            → IfOk result (λ applied. is_empty applied.change ≡ true) × IsOk result }
        ensures err { OnErr result (self.new ≡ self.old) }
        ensures well_formed { IsZone self.new }
    {
        self.well_formed();
        match self.update_code(update) {
            ResponseCode::NoError => {
                let change = self.change_rising(update)?;
                Ok(Applied {
                    code: ResponseCode::NoError,
                    change,
                })
            }
            code => Ok(Applied {
                code,
                change: self.no_change(),
            }),
        }
    }

    /// Changes the records by an update whose response code is `NoError`, raises the serial number if that is due, and returns the
    /// difference. An error leaves the zone unchanged.
    fn change_rising(&mut self, update: &Message) -> Result<Difference, AllocError>
        requires sound { IsSound update.now }
        requires accepted { update_code self.old.origin self.old.rows update.now ≡ NoError }
        ensures ok { OnOk result (self.new ≡ risen self.old (record self.old {
          rows = update_change self.old.origin self.old.rows update.now;
        })) }
        ensures change { IfOk result (IsRecordable self.old.rows self.new.rows) }
        ensures err { OnErr result (self.new ≡ self.old) }
        ensures well_formed { IsZone self.new }
    {
        self.well_formed();
        self.lower_keys();
        if let Some(addition) = self.single_addition(update) {
            return self.change_single_rising(update, addition);
        }
        let changes = update_changes(self.alloc, &self.sets, &self.origin, update)?;
        let change = self.difference_by(update, changes.sets.as_slice())?;
        let rise = self.rise_after(change)?;
        self.store(update, changes.sets)?;
        Ok(self.finish(rise))
    }

    /// Puts the only record of an update into its set, which is not copied, raises the serial number if that is due, and returns the
    /// difference. An error leaves the zone unchanged.
    fn change_single_rising(
        &mut self,
        update: &Message,
        addition: &Record,
    ) -> Result<Difference, AllocError>
        requires sound { IsSound update.now }
        requires accepted { update_code self.old.origin self.old.rows update.now ≡ NoError }
        requires single { IsSingle self.old update.now addition.now }
        ensures ok { OnOk result (self.new ≡ risen self.old (record self.old {
          rows = update_change self.old.origin self.old.rows update.now;
        })) }
        ensures change { IfOk result (IsRecordable self.old.rows self.new.rows) }
        ensures err { OnErr result (self.new ≡ self.old) }
        ensures well_formed { IsZone self.new }
    {
        self.well_formed();
        self.lower_keys();
        let change = self.single_difference(update, addition)?;
        let rise = self.rise_after(change)?;
        self.put(update, addition)?;
        Ok(self.finish(rise))
    }

    /// Returns a change with the rise of the serial number that is due after it.
    fn rise_after(&self, change: Difference) -> Result<Rise, AllocError>
        ensures { IfOk result (IsRise self.now change) }
    {
        let stored = records_at(&self.sets, &self.origin, RecordType::SOA);
        rise_after(self.alloc, &self.origin, stored, change)
    }

    /// Replaces the SOA record if the serial number rises, and returns the difference.
    fn finish(&mut self, rise: Rise) -> Difference
        requires { IsZone (zone_with_start self.old (rows_of rise.start.items)) }
        ensures zone { self.new ≡ zone_with_start self.old (rows_of rise.start.items) }
        ensures change { result ≡ rise.change }
        ensures keys { HasLowerKeys self.old.rows }
        ensures well_formed { IsZone self.new }
    {
        self.lower_keys();
        self.set_start(rise.start);
        rise.change
    }

    /// Replaces the SOA record, if there is another one.
    fn set_start(&mut self, start: Vec<Record>)
        requires { IsZone (zone_with_start self.old (rows_of start.items)) }
        ensures zone { self.new ≡ zone_with_start self.old (rows_of start.items) }
        ensures well_formed { IsZone self.new }
    {
        self.well_formed();
        if !start.is_empty() {
            self.sets.set_records(&self.origin, RecordType::SOA, start);
        }
    }

    /// Proves that the owners of all keys are in lower case; nothing is computed.
    fn lower_keys(&self)
        ensures { HasLowerKeys self.now.rows }
    {
        let _origin = &self.origin;
    }
}
