//! Places of the memory and its pages.

ghost use Rattle.std.specs.Prelude.{◌≡◌};
ghost use Rattle.isa.specs.Places.{user, page};

/// How many places there are.
pub const IMAGE_SIZE: usize = 2_048;

/// How many places a page has.
pub const PAGE_SIZE: usize = 256;

/// Whether a sequence may use this place.
pub fn is_user_place(place: u16) -> bool
    ensures { result ≡ user place }
{
    matches!(place, 0..=192 | 256..=2_047)
}

/// The page that holds a place.
pub fn page_of(place: u16) -> u16
    ensures { result ≡ page place }
{
    place / 256
}
