//! A block holds one value, from its making until it ends. An `Owned` block is in its owner's hands, who may read and change its value.
mod owned;

pub use owned::Owned;
