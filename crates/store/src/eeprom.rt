//! An EEPROM: 2,048 bytes, never spoilt.

ghost use Rattle.std.specs.Prelude.{◌≡◌, ◌<◌, length, OnOk};
ghost use Rattle.store.specs.Memories.{clearing};
ghost use Rattle.store.specs.Eeproms.{eeprom, memory_of};

use crate::store::{Store, StoreFault};
use isa::{IMAGE_SIZE, MARK, PAGE_SIZE, Refusal, page_of};

const PAGES: u16 = 8;

/// Memory that is lent. Of another size than 2,048 bytes it is an absent store.
#[derive(Debug, Drop)]
pub struct Eeprom<'a> {
    // Stays: a slice. An `Option` of an array would be taken apart by each call before its check, and be no plainer.
    bytes: &'a mut [u8],
}

impl<'a> Eeprom<'a> {
    /// A store over these bytes.
    pub fn new(bytes: &'a mut [u8]) -> Eeprom<'a>
        ensures { eeprom result ≡ memory_of bytes.old }
    {
        Eeprom { bytes }
    }

    /// Refuses every page of an absent store, and a page past the last.
    fn check_page(&self, page: u16) -> Result<(), StoreFault>
        ensures answer { result ≡ clearing page (eeprom self.now) }
        ensures present { OnOk result (length self.now.bytes.now ≡ 2048) }
        ensures within { OnOk result (page < 8) }
    {
        if self.bytes.len() != IMAGE_SIZE {
            return Err(StoreFault::new(Refusal::Absent, page));
        }
        if page >= PAGES {
            return Err(StoreFault::new(Refusal::Area, page));
        }
        Ok(())
    }
}

impl Store for Eeprom<'_> {
    ghost memory = { eeprom };

    fn read(&self, place: u16) -> Result<u8, StoreFault> {
        self.check_page(page_of(place))?;
        Ok(self.bytes[usize::from(place)])
    }

    fn write(&mut self, place: u16, byte: u8) -> Result<(), StoreFault> {
        self.check_page(page_of(place))?;
        self.bytes[usize::from(place)] = byte;
        Ok(())
    }

    fn clear(&mut self, page: u16) -> Result<(), StoreFault> {
        self.check_page(page)?;
        let start = PAGE_SIZE * usize::from(page);
        self.bytes[start..start + PAGE_SIZE].fill(MARK);
        Ok(())
    }
}
