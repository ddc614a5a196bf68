//! The keys of the slot that comes next. It uses the kinds of keys beside it.

use crate::book::head_key::HeadKey;
use crate::book::slot_key::SlotKey;

/// The keys of a slot that is not there yet, and of its head. Nobody can make an event of the slot but `Total::add`, by which it is there.
#[derive(Drop)]
pub struct SlotKeys {
    /// The right to the slot's events.
    pub slot: SlotKey,
    /// The right to the events on its head.
    pub head: HeadKey,
}
