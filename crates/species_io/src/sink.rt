//! Where bytes go, and what a write promises.

ghost use Rattle.std.specs.Prelude.{◌≡◌, ◌≤◌, ◌<◌, ℕ, List, Option, length, take, IfOk, OnErr};
ghost use Rattle.species_io.specs.Told.{Rose, then_bytes};

use crate::source::Failed;

/// Where bytes go.
pub trait Sink {
    /// The faults so far. The count may stand still at 2^64 - 1, its last value.
    ghost faults: { Self → ℕ };

    /// The bytes that were taken, if the sink tells them.
    ghost taken: { Self → Option (List ℕ) };

    /// Takes the first bytes of `piece`, and answers how many: at least one, if there is one.
    fn write(&mut self, piece: &[u8]) -> Result<usize, Failed>
        ensures within { IfOk result (λ n. n ≤ length piece.now) }
        ensures some { IfOk result (λ n. 0 < length piece.now → 0 < n) }
        ensures took { IfOk result (λ n. taken self.new ≡ then_bytes (taken self.old) (take n piece.now)) }

        // Beside an `Ok` the count may rise, too.
        ensures never_falls { faults self.old ≤ faults self.new }
        ensures failed { OnErr result (Rose (faults self.old) (faults self.new)) }
        ensures kept { OnErr result (taken self.new ≡ taken self.old) };
}
