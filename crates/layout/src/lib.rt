//! Accepted texts stand in their images: what the translation has to do with the layout.

#![tactic(auto)]
