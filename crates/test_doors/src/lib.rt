//! Tests of limits on clients, over sockets in memory, in a crate of their own so that the door is proved once.
//! Examples of limits on what clients send, by their bytes.
//! Examples of clients of MQTT 3.1.1 and 3.1, by their bytes.
//! Examples of users and of what they may do, by their files and by their clients' bytes.
#![tactic(auto)]

#[cfg(test)]
mod bounds;
#[cfg(test)]
mod clients;
#[cfg(test)]
mod doors;
#[cfg(test)]
mod greeter;
#[cfg(test)]
mod guard_files;
#[cfg(test)]
mod guard_recorder;
#[cfg(test)]
mod guard_rules;
#[cfg(test)]
mod guards;
#[cfg(test)]
mod mqtt3_recorder;
#[cfg(test)]
mod packets;
#[cfg(test)]
mod pieces;
#[cfg(test)]
mod recorder;
#[cfg(test)]
mod user_files;
#[cfg(test)]
mod widths;
