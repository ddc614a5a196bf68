//! Tests of the collector in one caller's hands: whatever no contract says. They stand in a crate of their own, so that they are proved
//! beside the other tests of the collector.
#![tactic(auto)]

#[cfg(test)]
mod alone;
#[cfg(test)]
mod alone_further;
#[cfg(test)]
mod alone_left;
#[cfg(test)]
mod alone_links;
#[cfg(test)]
mod alone_lists;
#[cfg(test)]
mod alone_memory;
#[cfg(test)]
mod alone_reclaiming;
#[cfg(test)]
mod chance;
#[cfg(test)]
mod grouped;
#[cfg(test)]
mod making;
#[cfg(test)]
mod nests;
#[cfg(test)]
mod oracle;
#[cfg(test)]
mod random;
#[cfg(test)]
mod refused;
#[cfg(test)]
mod watching;
