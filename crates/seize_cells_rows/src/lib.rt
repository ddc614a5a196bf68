//! Callers of locks: counters that threads count under one lock, a thread that waits asleep, and a counter under a lock of one thread.
#![tactic(auto)]

#[cfg(test)]
mod counters;
#[cfg(test)]
mod local;
#[cfg(test)]
mod tests;
#[cfg(test)]
mod values;
#[cfg(test)]
mod waiting;
