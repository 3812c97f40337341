//! Tests of the libraries, as tables of cases.
#![tactic(auto)]

#[cfg(test)]
mod faults;
#[cfg(test)]
mod handed_on;
#[cfg(test)]
mod lists;
#[cfg(test)]
mod message_bytes;
#[cfg(test)]
mod networks;
#[cfg(test)]
mod packet_bytes;
#[cfg(test)]
mod refused;
#[cfg(test)]
mod repaired;
#[cfg(test)]
mod ring;
#[cfg(test)]
mod sending;
#[cfg(test)]
mod switching;
