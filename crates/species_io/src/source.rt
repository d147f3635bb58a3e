//! Where bytes come from, and what a read promises.

ghost use Rattle.std.specs.Prelude.{◌≡◌, ◌≤◌, ◌<◌, ℕ, List, Option, length, take, IfOk, OnErr};
ghost use Rattle.species_io.specs.Told.{Rose, before, AtEnd};

/// A read or a write failed, and moved no byte.
#[derive(Clone, Copy, Debug, PartialEq, Eq)]
pub struct Failed;

/// Where bytes come from.
pub trait Source {
    /// The faults so far. The count may stand still at 2^64 - 1, its last value.
    ghost faults: { Self → ℕ };

    /// The bytes that are left, if the source tells them.
    ghost left: { Self → Option (List ℕ) };

    /// Moves the first bytes that are left to the front of `buf`, and answers how many. Zero into
    /// a buffer that is not empty is the end of input. What stands in `buf` behind these bytes is
    /// not said, nor what stands in it after a failure.
    fn read(&mut self, buf: &mut [u8]) -> Result<usize, Failed>
        ensures within { IfOk result (λ n. n ≤ length buf.old) }
        ensures took { IfOk result (λ n. left self.old ≡ before (take n buf.new) (left self.new)) }
        ensures ended { IfOk result (λ n. n ≡ 0 → 0 < length buf.old → AtEnd (left self.old)) }

        // Beside an `Ok` the count may rise, too.
        ensures never_falls { faults self.old ≤ faults self.new }
        ensures failed { OnErr result (Rose (faults self.old) (faults self.new)) }
        ensures kept { OnErr result (left self.new ≡ left self.old) };
}
