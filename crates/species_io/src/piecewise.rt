//! What takes the bytes of an input piece by piece.
ghost use Rattle.std.specs.Prelude.{◌≡◌, ◌≤◌, ◌-◌, ◌++◌, ℕ, List, length, OnOk, OnErr};
ghost use Rattle.species_io.specs.Piecewise.{AppendedPart};

use species_ast::OutOfMemory;

/// What takes bytes piece by piece, as many as it has room for.
pub trait Piecewise {
    /// These are the bytes that were taken, in their order.
    ghost Means: { Self → List ℕ → Type 0 };

    /// How many bytes more may come.
    ghost room: { Self → ℕ };

    /// Appends a piece, or the first bytes of it where memory runs out.
    fn take(&mut self, piece: &[u8]) -> Result<(), OutOfMemory>
        requires { length piece.now ≤ room self.old }
        ensures appended { (bytes : List ℕ) → Means self.old bytes → OnOk result (Means self.new (bytes ++ piece.now)) }
        ensures room { OnOk result (room self.new ≡ room self.old - length piece.now) }
        ensures part { (bytes : List ℕ) → Means self.old bytes
            → OnErr result (AppendedPart (Means self.new) (room self.old) (room self.new) bytes piece.now) };
}
