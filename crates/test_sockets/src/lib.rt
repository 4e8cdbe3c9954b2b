//! Tests of turns and of wires, over sockets in memory and over those of the system, in a crate of their own so that those are
//! proved once.
#![tactic(auto)]

#[cfg(test)]
mod clients;
#[cfg(test)]
mod echo;
#[cfg(test)]
mod holds;
#[cfg(test)]
mod links;
#[cfg(test)]
mod moments;
#[cfg(test)]
mod nodes;
#[cfg(test)]
mod ready;
#[cfg(test)]
mod real;
#[cfg(test)]
mod strangers;
#[cfg(test)]
mod talker;
