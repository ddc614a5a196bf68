//! A script that was read whole: the collector that its first line asks for, and the calls on it.
use crate::value::{PutInside, Value};
use seize::{Alone, Call};
use std::collections::VecDeque;

/// What a script asks for.
#[derive(Drop)]
pub struct Script {
    pub alone: Alone<Value, PutInside>,
    pub calls: Calls,
}

/// The calls of a script.
#[derive(Drop)]
pub struct Calls {
    pub groups: Vec<Group>,
    /// How many values stand in them.
    pub values: usize,
}

/// Calls that are run together, and what follows them.
#[derive(Drop)]
pub struct Group {
    pub calls: VecDeque<Call<Value>>,
    pub end: GroupEnd,
}

/// What ends a group.
#[derive(Clone, Copy, Debug, PartialEq, Eq)]
pub enum GroupEnd {
    /// A line is printed.
    Tick,
    /// All is reclaimed.
    All,
    /// The script ends.
    Script,
}

impl GroupEnd {
    /// What a line with this word ends a group with, if it ends one.
    pub fn named(word: &[u8]) -> Option<GroupEnd> {
        match word {
            b"tick" => Some(GroupEnd::Tick),
            b"all" => Some(GroupEnd::All),
            _ => None,
        }
    }
}
