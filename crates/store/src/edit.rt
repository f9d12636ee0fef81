//! An edit: bytes put at successive places.

ghost use Rattle.std.specs.Prelude.{◌≡◌, ◌+◌, cond, IsTrue, OnOk, MatchResult, OnErr};
ghost use Rattle.isa.specs.Places.{user};
ghost use Rattle.store.specs.Edits.{no_user_place, opened, putting, put, ended};

use crate::store::{Store, StoreFault};
use isa::{MARK, Refusal, is_user_place, page_of};

/// An opened edit, beside the store that it edits. It is closed once, by ending or by leaving: its type is not `Drop`, so
/// that code which lets one go is refused.
#[derive(Debug)]
pub struct Edit {
    next: u16,
}

impl Edit {
    /// Opens an edit at a user place.
    pub fn open(place: u16) -> Result<Edit, StoreFault>
        ensures { result ≡ opened place }
    {
        check_user_place(place)?;
        Ok(Edit { next: place })
    }

    /// Puts a byte at the next place.
    pub fn put<S: Store>(&mut self, store: &mut S, byte: u8) -> Result<(), StoreFault>
        ensures answer { result ≡ putting self.old.next (S.memory store.old) }
        ensures after { S.memory store.new ≡ put self.old.next byte (S.memory store.old) }
        ensures kept { OnErr result (store.new ≡ store.old) }
        ensures next { MatchResult result (λ _. self.new.next ≡ self.old.next + 1) (λ _. self.new.next ≡ self.old.next) }
    {
        put_at(store, self.next, byte)?;
        self.next += 1;
        Ok(())
    }

    /// Writes the mark, 255, at the next place. If that is refused, the edit is handed back to be left.
    pub fn end<S: Store>(self, store: &mut S) -> Result<(), (Edit, StoreFault)>
        ensures answer { result ≡ ended self (putting self.next (S.memory store.old)) }
        ensures after { S.memory store.new ≡ put self.next 255 (S.memory store.old) }
        ensures kept { OnErr result (store.new ≡ store.old) }
    {
        let Edit { next } = self;
        put_at(store, next, MARK).map_err(|fault| (Edit { next }, fault))
    }

    /// Closes the edit without a mark.
    pub fn leave(self) {
        let Edit { next: _ } = self;
    }
}

/// Writes a byte at a user place.
fn put_at<S: Store>(store: &mut S, place: u16, byte: u8) -> Result<(), StoreFault>
    ensures answer { result ≡ putting place (S.memory store.old) }
    ensures after { S.memory store.new ≡ put place byte (S.memory store.old) }
    ensures kept { OnErr result (store.new ≡ store.old) }
    ensures within { OnOk result (IsTrue (user place)) }
{
    check_user_place(place)?;
    store.write(place, byte)
}

/// Refuses a place that is no user place.
fn check_user_place(place: u16) -> Result<(), StoreFault>
    ensures { result ≡ cond (user place) (Ok tt) (Err (no_user_place place)) }
{
    if !is_user_place(place) {
        return Err(StoreFault::new(Refusal::Area, page_of(place)));
    }
    Ok(())
}
