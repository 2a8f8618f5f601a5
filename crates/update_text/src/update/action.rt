//! The actions of updates.

ghost use Rattle.std.specs.Prelude.{◌≡◌};
ghost use Rattle.update_text.specs.Update.{action_of};

/// What an update does.
#[derive(Clone, Copy)]
pub(super) enum Action {
    /// Adds a record, if the zone has none of its owner and type.
    Create,
    /// Adds a record.
    Append,
    /// Replaces a record, if it is the only one of its owner and type.
    Swap,
    /// Deletes a record.
    DeleteRecord,
    /// Deletes the records of an owner and a type.
    DeleteSet,
    /// Deletes the records of an owner.
    DeleteName,
}

/// Parses an action.
pub(super) fn parse_action(word: &[u8]) -> Option<Action>
    ensures { result ≡ action_of word.now }
{
    if word == b"create".as_slice() {
        return Some(Action::Create);
    }
    if word == b"append".as_slice() {
        return Some(Action::Append);
    }
    if word == b"swap".as_slice() {
        return Some(Action::Swap);
    }
    if word == b"delete-record".as_slice() {
        return Some(Action::DeleteRecord);
    }
    if word == b"delete-set".as_slice() {
        return Some(Action::DeleteSet);
    }
    if word == b"delete-name".as_slice() {
        return Some(Action::DeleteName);
    }
    None
}
