//! The prerequisites and changes of an update, by number (RFC 2136 sections 2.4 and 2.5).

ghost use Rattle.std.specs.Prelude.{◌≡◌};
ghost use Rattle.api.specs.messages.Items.{item_of};

/// What an update has: a record without data, or one with data.
#[derive(Clone, Copy, Debug, PartialEq, Eq)]
pub enum Item {
    Empty(EmptyItem),
    Filled(FilledItem),
}

/// What is said of a name, or of a name and a type, without data.
#[derive(Clone, Copy, Debug, PartialEq, Eq)]
pub enum EmptyItem {
    /// A name must have records (RFC 2136 section 2.4.4).
    RequireName,
    /// A name must have no records (RFC 2136 section 2.4.5).
    ForbidName,
    /// A name must have records of a type (RFC 2136 section 2.4.1).
    RequireSet,
    /// A name must have no records of a type (RFC 2136 section 2.4.3).
    ForbidSet,
    /// The records of a name and a type are deleted (RFC 2136 section 2.5.2).
    DeleteSet,
    /// All records of a name are deleted (RFC 2136 section 2.5.3).
    DeleteName,
}

/// What is said of a record with data.
#[derive(Clone, Copy, Debug, PartialEq, Eq)]
pub enum FilledItem {
    /// A name must have records with exactly the data that is required of its type (RFC 2136 section 2.4.2).
    RequireRecord,
    /// A record is added (RFC 2136 section 2.5.1).
    AddRecord,
    /// A record is deleted (RFC 2136 section 2.5.4).
    DeleteRecord,
}

/// Returns the item with a number, which is its place among the sections of RFC 2136: the five prerequisites of section 2.4, from
/// 1 to 5, and the four changes of section 2.5, from 11 to 14.
pub fn item_of(number: u32) -> Option<Item>
    ensures { result ≡ item_of number }
{
    match number {
        1 => Some(Item::Empty(EmptyItem::RequireSet)),
        2 => Some(Item::Filled(FilledItem::RequireRecord)),
        3 => Some(Item::Empty(EmptyItem::ForbidSet)),
        4 => Some(Item::Empty(EmptyItem::RequireName)),
        5 => Some(Item::Empty(EmptyItem::ForbidName)),
        11 => Some(Item::Filled(FilledItem::AddRecord)),
        12 => Some(Item::Empty(EmptyItem::DeleteSet)),
        13 => Some(Item::Empty(EmptyItem::DeleteName)),
        14 => Some(Item::Filled(FilledItem::DeleteRecord)),
        _ => None,
    }
}
