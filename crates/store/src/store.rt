//! What every store promises.

ghost use Rattle.std.specs.Prelude.{◌≡◌, OnErr};
ghost use Rattle.store.specs.Memories.{Memory, reading, writing, clearing, written, cleared};

use isa::Refusal;

// Stays: a type beside `ImageFault`, which has a place; a page is no place, and one type for both would be no plainer.
/// Why a store refuses, and the page that was asked for.
#[derive(Clone, Copy, Debug, PartialEq, Eq)]
pub struct StoreFault {
    pub refusal: Refusal,
    pub page: u16,
}

impl StoreFault {
    /// A refusal at a page.
    pub fn new(refusal: Refusal, page: u16) -> StoreFault
        ensures { result ≡ record { refusal = refusal; page = page } }
    {
        StoreFault { refusal, page }
    }
}

/// A memory of eight pages. What it means is its pages, each spoilt or 256 bytes, or that it is absent.
pub trait Store {
    ghost memory: { Self → Memory };

    /// The byte at a place.
    fn read(&self, place: u16) -> Result<u8, StoreFault>
        ensures { result ≡ reading place (memory self.now) };

    /// Another byte at a place. A refusal changes nothing.
    fn write(&mut self, place: u16, byte: u8) -> Result<(), StoreFault>
        ensures answer { result ≡ writing place (memory self.old) }
        ensures after { memory self.new ≡ written place byte (memory self.old) }
        ensures kept { OnErr result (self.new ≡ self.old) };

    /// A page that is sound and all 255. A refusal changes nothing.
    fn clear(&mut self, page: u16) -> Result<(), StoreFault>
        ensures answer { result ≡ clearing page (memory self.old) }
        ensures after { memory self.new ≡ cleared page (memory self.old) }
        ensures kept { OnErr result (self.new ≡ self.old) };
}
