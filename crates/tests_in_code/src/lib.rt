//! Tests of what no row can say: a host that brings its own memory and body, calls in halves, tables that are made of
//! parts, layers called by themselves, and refusals that come of the host's side. Hosts that keep memories and count in
//! numbers have halves over slices, their blocks, and the numbers of errors. It has no code of its own.
#![tactic(auto)]

#[cfg(test)]
mod halves;
#[cfg(test)]
mod host_halves;
#[cfg(test)]
mod host_numbers;
#[cfg(test)]
mod hosts;
#[cfg(test)]
mod layers;
#[cfg(test)]
mod packages;
#[cfg(test)]
mod parts;
#[cfg(test)]
mod told;
