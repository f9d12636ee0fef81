//! A listing, read again, gives its image again.

#![tactic(auto)]
