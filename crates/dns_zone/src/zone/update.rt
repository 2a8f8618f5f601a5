//! Dynamic updates of a zone (RFC 2136 section 3).

ghost use Rattle.std.specs.Prelude.{◌≡◌, ◌≢◌, true, Ok, IfOk, IfSome, IsOk, OnOk, OnErr};
ghost use Rattle.dns_messages.specs.declared.response_code.ResponseCode.TheVariants.{NoError};

use crate::rows::records_at;
use crate::zone::Zone;
use crate::zone::difference::{difference_of, put_difference};
use dns_differences::Difference;
use dns_messages::{Message, ResponseCode};
use dns_records::Record;
use dns_updates::{ChangedSet, ZoneRows, is_put, update_changes, update_code};
use dns_wire::laws::type_number_round_trips;
use std::alloc::AllocError;

/// What an update has led to.
#[derive(Drop)]
pub struct Applied {
    /// The response code.
    pub code: ResponseCode,
    /// The records that the zone has lost, and those that it has gained, in the canonical order of their owners (RFC 4034 section
    /// 6.1), of which the SOA record comes first. There are none under any code but `NoError`.
    pub change: Difference,
}

impl Zone {
    ghost use Rattle.dns_messages.specs.Sound.{IsSound};
    ghost use Rattle.dns_updates.specs.Change.{update_change};
    ghost use Rattle.dns_updates.specs.Changes.{overlay, AreInOrder};
    ghost use Rattle.dns_updates.specs.Code.{update_code};
    ghost use Rattle.dns_differences.specs.Difference.{is_empty};
    ghost use Rattle.dns_zone.specs.Change.{IsChange};
    ghost use Rattle.dns_zone.specs.Rows.{IsZone};
    ghost use Rattle.dns_zone.specs.Serving.{zone_by_code};
    ghost use Rattle.dns_zone.specs.internal.Store.{IsSingle};

    /// Applies a dynamic update, and returns its response code: that of the first test that fails, or `NoError` if the records
    /// are changed. The zone is unchanged under any other code, and after an error. No code but `NoError` needs memory.
    ///
    /// The cost grows with the update and the sets that it names, and with the zone only by a logarithm.
    pub fn apply(&mut self, update: &Message) -> Result<ResponseCode, AllocError>
        requires { IsSound update.now }
        ensures code { IfOk result (λ code.
            code ≡ update_code self.old.origin self.old.rows update.now) }
        ensures decided { update_code self.old.origin self.old.rows update.now ≢ NoError
            → result ≡ Ok (update_code self.old.origin self.old.rows update.now) }
        ensures ok { IfOk result (λ code. self.new ≡ zone_by_code self.old update.now code) }
        ensures err { OnErr result (self.new ≡ self.old) }
        ensures well_formed { IsZone self.new }
    {
        let applied = self.update(update)?;
        Ok(applied.code)
    }

    /// Applies a dynamic update as [`apply`](Zone::apply) does, and returns its response code and what it has changed. All memory is
    /// taken before a record changes.
    pub fn update(&mut self, update: &Message) -> Result<Applied, AllocError>
        requires { IsSound update.now }
        ensures code { IfOk result (λ applied.
            applied.code ≡ update_code self.old.origin self.old.rows update.now) }
        ensures ok { IfOk result (λ applied.
            self.new ≡ zone_by_code self.old update.now applied.code) }
        ensures change { IfOk result (λ applied.
            IsChange self.old.rows self.new.rows applied.change) }
        ensures decided { update_code self.old.origin self.old.rows update.now ≢ NoError
            → IfOk result (λ applied. is_empty applied.change ≡ true) × IsOk result }
        ensures err { OnErr result (self.new ≡ self.old) }
        ensures well_formed { IsZone self.new }
    {
        self.well_formed();
        match self.update_code(update) {
            ResponseCode::NoError => {
                let change = self.change(update)?;
                Ok(Applied {
                    code: ResponseCode::NoError,
                    change,
                })
            }
            code => Ok(Applied {
                code,
                change: self.no_change(),
            }),
        }
    }

    /// Returns the difference that a request makes which changes nothing.
    pub(crate) fn no_change(&self) -> Difference
        ensures change { IsChange self.now.rows self.now.rows result }
        ensures empty { is_empty result ≡ true }
    {
        Difference::new(self.alloc)
    }

    /// Changes the records by an update whose response code is `NoError`, and returns the difference. An error leaves the zone
    /// unchanged.
    fn change(&mut self, update: &Message) -> Result<Difference, AllocError>
        requires sound { IsSound update.now }
        requires accepted { update_code self.old.origin self.old.rows update.now ≡ NoError }
        ensures ok { OnOk result (self.new ≡ record self.old {
          rows = update_change self.old.origin self.old.rows update.now;
        }) }
        ensures change { IfOk result (IsChange self.old.rows self.new.rows) }
        ensures err { OnErr result (self.new ≡ self.old) }
        ensures well_formed { IsZone self.new }
    {
        self.well_formed();
        if let Some(addition) = self.single_addition(update) {
            return self.change_single(update, addition);
        }
        let changes = update_changes(self.alloc, &self.sets, &self.origin, update)?;
        let change = self.difference_by(update, changes.sets.as_slice())?;
        self.store(update, changes.sets)?;
        Ok(change)
    }

    /// Returns the difference that an update makes, by the sets that it changes.
    pub(crate) fn difference_by(
        &self,
        update: &Message,
        changed: &[ChangedSet],
    ) -> Result<Difference, AllocError>
        requires sound { IsSound update.now }
        requires accepted { update_code self.now.origin self.now.rows update.now ≡ NoError }
        requires changes { overlay self.now.rows changed.now
            ≡ update_change self.now.origin self.now.rows update.now }
        requires ordered { AreInOrder changed.now }
        ensures { IfOk result (IsChange self.now.rows
            (update_change self.now.origin self.now.rows update.now)) }
    {
        self.well_formed();
        let change = difference_of(self.alloc, &self.sets, changed)?;
        Ok(change)
    }

    /// Stores the sets that an update changes. An error leaves the zone unchanged.
    pub(crate) fn store(
        &mut self,
        update: &Message,
        changed: Vec<ChangedSet>,
    ) -> Result<(), AllocError>
        requires sound { IsSound update.now }
        requires accepted { update_code self.old.origin self.old.rows update.now ≡ NoError }
        requires changes { overlay self.old.rows changed.items
            ≡ update_change self.old.origin self.old.rows update.now }
        ensures ok { OnOk result (self.new ≡ record self.old {
          rows = update_change self.old.origin self.old.rows update.now;
        }) }
        ensures err { OnErr result (self.new ≡ self.old) }
        ensures well_formed { IsZone self.new }
    {
        self.well_formed();
        type_number_round_trips();
        self.sets.store(self.alloc, changed)?;
        Ok(())
    }

    /// Puts the only record of an update into its set, which is not copied, and returns the difference. An error leaves the zone
    /// unchanged.
    fn change_single(
        &mut self,
        update: &Message,
        addition: &Record,
    ) -> Result<Difference, AllocError>
        requires sound { IsSound update.now }
        requires accepted { update_code self.old.origin self.old.rows update.now ≡ NoError }
        requires single { IsSingle self.old update.now addition.now }
        ensures ok { OnOk result (self.new ≡ record self.old {
          rows = update_change self.old.origin self.old.rows update.now;
        }) }
        ensures change { IfOk result (IsChange self.old.rows self.new.rows) }
        ensures err { OnErr result (self.new ≡ self.old) }
        ensures well_formed { IsZone self.new }
    {
        self.well_formed();
        let change = self.single_difference(update, addition)?;
        self.put(update, addition)?;
        Ok(change)
    }

    /// Returns the difference that an update makes whose only record is put into its set.
    pub(crate) fn single_difference(
        &self,
        update: &Message,
        addition: &Record,
    ) -> Result<Difference, AllocError>
        requires sound { IsSound update.now }
        requires accepted { update_code self.now.origin self.now.rows update.now ≡ NoError }
        requires single { IsSingle self.now update.now addition.now }
        ensures { IfOk result (IsChange self.now.rows
            (update_change self.now.origin self.now.rows update.now)) }
    {
        self.well_formed();
        let stored = records_at(&self.sets, &addition.name, addition.record_type());
        let change = put_difference(self.alloc, stored, addition)?;
        Ok(change)
    }

    /// Returns the response code of a dynamic update. Memory that is refused only makes it slower.
    pub(crate) fn update_code(&self, update: &Message) -> ResponseCode
        ensures { result ≡ update_code self.now.origin self.now.rows update.now }
    {
        update_code(self.alloc, &self.sets, &self.origin, update)
    }

    /// Returns the only record of an update that puts it into a set that is there.
    pub(crate) fn single_addition<'m>(&self, update: &'m Message) -> Option<&'m Record>
        ensures { IfSome result (λ addition. IsSingle self.now update.now addition.now) }
    {
        let [addition] = update.authorities.as_slice() else {
            return None;
        };
        let is_single = is_put(&self.sets, addition)
            && self.sets.has_set(&addition.name, addition.record_type());
        is_single.then_some(addition)
    }

    /// Puts the only record of an update into its set, which is not copied. An error leaves the zone unchanged.
    pub(crate) fn put(&mut self, update: &Message, addition: &Record) -> Result<(), AllocError>
        requires sound { IsSound update.now }
        requires accepted { update_code self.old.origin self.old.rows update.now ≡ NoError }
        requires single { IsSingle self.old update.now addition.now }
        ensures ok { OnOk result (self.new ≡ record self.old {
          rows = update_change self.old.origin self.old.rows update.now;
        }) }
        ensures err { OnErr result (self.new ≡ self.old) }
        ensures well_formed { IsZone self.new }
    {
        self.well_formed();
        type_number_round_trips();
        let resource_record = addition.clone()?;
        self.sets
            .put_record(&addition.name, addition.record_type(), resource_record)?;
        Ok(())
    }
}
