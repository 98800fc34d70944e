//! The records that a journal holds.
ghost use Rattle.std.specs.Prelude.{◌≡◌, ℕ, IfOk, ◌↔◌, IsTrue};

use std::alloc::AllocError;

/// A record that a journal holds.
pub trait Entry: Eq + Drop + Send + Sync {
    ghost seat_of: { Self → ℕ };

    /// The number of the pass that may put this record.
    fn seat(&self) -> u32
        ensures { result ≡ seat_of self.now };

    /// The same value once more. It fails only for want of memory.
    fn copy(&self) -> Result<Self, AllocError>
        ensures { IfOk result (λ r. r ≡ self.now) };

    // `==` holds exactly of the same value.
    ghost same: { (x y : Self) → IsTrue (Self.eq x y) ↔ (x ≡ y) };
}
