//! What a sequence means, as text and as image: the types that the translator and the lister share. The meaning itself
//! stands in `specs/`.

#![tactic(auto)]

mod image;
mod text;
mod words;

pub use image::{Found, ImageFault};
pub use text::{Definition, Kind, Label, Line, Source, Target, TextFault, WrittenPlace};
pub use words::Name;
