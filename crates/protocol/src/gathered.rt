//! The bytes of a message so far.

ghost use Rattle.std.specs.Prelude.{◌≡◌, ℕ, List, [], ◌∷◌, ◌++◌, length, nat_lt, cond, Some, None, Option};

use std::marker::Model;

/// The bytes that a message has at most, its name not counted.
const LONGEST: usize = 12;

// Stays: an array and a count; an `ArrayVec` is not `Copy`, and a receiver is.
/// Up to twelve bytes, and 0 after them.
#[derive(Clone, Copy, Debug)]
pub(crate) struct Gathered {
    bytes: [u8; LONGEST],
    len: usize,
}

impl Model for Gathered {
    ghost use Rattle.std.specs.Prelude.{◌≡◌, ◌-◌, ◌≤◌, ℕ, List, ◌++◌, length, take, drop, replicate};
    ghost use Rattle.std.proofs.Common.{arith, sym, ap, ◌∙◌, take-append-drop, length-take-le};

    ghost Value = { List ℕ };

    ghost view = { λ g. take g.len g.bytes };

    ghost invariant = { λ g. (g.len ≤ 12) × (length g.bytes ≡ 12) × (drop g.len g.bytes ≡ replicate (12 - g.len) 0) };

    ghost inverse = { λ xs. record { bytes = xs ++ replicate (12 - length xs) 0; len = length xs } };

    ghost inverse_ok = { λ g h i. record {
      bytes = (ap (λ n. take g.len g.bytes ++ replicate (12 - n) 0) (length-take-le g.len g.bytes (omega (arith, h.0, h.1)))
          ∙ ap (λ zs. take g.len g.bytes ++ zs) (sym h.2) ∙ take-append-drop g.len g.bytes) i;
      len = length-take-le g.len g.bytes (omega (arith, h.0, h.1)) i;
    } };
}

impl Gathered {
    /// No byte.
    pub(crate) fn new() -> Gathered
        ensures { result ≡ [] }
    {
        Gathered {
            bytes: [0; LONGEST],
            len: 0,
        }
    }

    /// These bytes and one more; nothing where there is no room for it.
    pub(crate) fn with(self, byte: u8) -> Option<Gathered>
        ensures { result ≡ cond (nat_lt (length self) 12) (Some (self ++ byte ∷ [])) None }
    {
        let Gathered { mut bytes, len } = self;
        if len >= LONGEST {
            return None;
        }
        bytes[len] = byte;
        Some(Gathered {
            bytes,
            len: len + 1,
        })
    }

    /// The bytes alone.
    pub(crate) fn as_slice(&self) -> &[u8]
        ensures { result.now ≡ self.now }
    {
        &self.bytes[..self.len]
    }
}
