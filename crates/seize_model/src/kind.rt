//! What a slot's number is used for. The model's state and every layer above that knows of slots use it.

/// Whether a slot's number is in use, and by whom.
#[derive(Clone, Copy, Debug, PartialEq, Eq)]
pub enum Kind {
    /// The number is free.
    Free,
    /// A registration has it. Its guards are local ones, as many as are open.
    Registered,
    /// An owned guard has it.
    Owned,
}
