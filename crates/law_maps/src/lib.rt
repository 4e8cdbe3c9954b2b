//! What an ordered map or set of the library comes to as a finite map or set: laws that the crates above cite.
#![tactic(auto)]
