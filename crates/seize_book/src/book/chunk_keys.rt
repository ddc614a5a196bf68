//! The keys that come with a new chunk of a store. It uses the kinds of keys beside it.
use crate::book::bare_key::BareKey;
use crate::book::count_key::CountKey;
use crate::book::field_key::FieldKey;

/// The keys of one block, before it is said where the block lies: that of its values, that of its count, and those of its two fields.
#[derive(Drop)]
pub struct ChunkKeys {
    /// The right to name the block's values, once it is said by which number words hold the block.
    pub value: BareKey,
    /// The right to count the batch whose first value lies in the block.
    pub count: CountKey,
    /// The right to use the next field of the block's header.
    pub next: FieldKey,
    /// The right to use the first field.
    pub first: FieldKey,
}
