//! Joins of values that may be done in any order.
ghost use Rattle.std.specs.Prelude.{◌≡◌, Bool, true};
ghost use Rattle.species_ast.specs.Operators.{kind_of};
ghost use Rattle.species_ast.specs.declared.tree.Value.{Value};
ghost use Rattle.species_joins.specs.Sorts.{joined_of, takes_kind};

use species_ast::Value;
use species_cint::added;
use species_joins::Sort;

/// A join of values of one kind, which gives one of the kind; in which order and in which groups
/// values are joined does not matter.
pub trait Gather {
    ghost taken: { Value → Bool };

    ghost joined: { Value → Value → Value };

    /// Whether a value is of the kind.
    fn takes(v: Value) -> bool
        ensures { result ≡ taken v };

    /// The two values joined.
    fn join(left: Value, right: Value) -> Value
        requires left { taken left ≡ true }
        requires right { taken right ≡ true }
        ensures { result ≡ joined left right };

    ghost closed: { (x y : Value) → taken x ≡ true → taken y ≡ true → taken (joined x y) ≡ true };

    ghost swaps: { (x y : Value) → taken x ≡ true → taken y ≡ true → joined x y ≡ joined y x };

    ghost groups: { (x y z : Value) → taken x ≡ true → taken y ≡ true → taken z ≡ true → joined (joined x y) z ≡ joined x (joined y z) };
}

/// Sums of values of kind `unsigned`, modulo 2^32.
pub struct WrapAdd;

impl Gather for WrapAdd {
    ghost use Rattle.std.specs.Prelude.{refl};
    ghost use Rattle.species_ast.specs.declared.tree.Kind.TheVariants as kind;
    ghost use Rattle.species_joins.specs.declared.sort.Sort.TheVariants as sort;
    ghost use Rattle.species_joins.specs.Sorts.{is_of, joined_of};
    ghost use Rattle.species_joins.proofs.GatherLaws.{joined_closed, joined_swaps, joined_groups};

    ghost taken = { is_of kind.Unsigned };

    ghost joined = { joined_of sort.Sum };

    ghost closed = { joined_closed sort.Sum kind.Unsigned };

    ghost swaps = { joined_swaps sort.Sum kind.Unsigned refl };

    ghost groups = { joined_groups sort.Sum kind.Unsigned refl };

    fn takes(v: Value) -> bool {
        match v {
            Value::Int(_) => false,
            Value::Unsigned(_) => true,
            Value::Long(_) => false,
            Value::UnsignedLong(_) => false,
        }
    }

    fn join(left: Value, right: Value) -> Value {
        added(right, left)
    }
}

/// Sums of values of kind `unsigned long`, modulo 2^64.
pub struct WrapAdd64;

impl Gather for WrapAdd64 {
    ghost use Rattle.std.specs.Prelude.{refl};
    ghost use Rattle.species_ast.specs.declared.tree.Kind.TheVariants as kind;
    ghost use Rattle.species_joins.specs.declared.sort.Sort.TheVariants as sort;
    ghost use Rattle.species_joins.specs.Sorts.{is_of, joined_of};
    ghost use Rattle.species_joins.proofs.GatherLaws.{joined_closed, joined_swaps, joined_groups};

    ghost taken = { is_of kind.UnsignedLong };

    ghost joined = { joined_of sort.Sum };

    ghost closed = { joined_closed sort.Sum kind.UnsignedLong };

    ghost swaps = { joined_swaps sort.Sum kind.UnsignedLong refl };

    ghost groups = { joined_groups sort.Sum kind.UnsignedLong refl };

    fn takes(v: Value) -> bool {
        match v {
            Value::Int(_) => false,
            Value::Unsigned(_) => false,
            Value::Long(_) => false,
            Value::UnsignedLong(_) => true,
        }
    }

    fn join(left: Value, right: Value) -> Value {
        added(right, left)
    }
}

/// The least of two values of kind `int`.
pub struct Least;

impl Gather for Least {
    ghost use Rattle.std.specs.Prelude.{refl};
    ghost use Rattle.species_ast.specs.declared.tree.Kind.TheVariants as kind;
    ghost use Rattle.species_joins.specs.declared.sort.Sort.TheVariants as sort;
    ghost use Rattle.species_joins.specs.Sorts.{is_of, joined_of};
    ghost use Rattle.species_joins.proofs.GatherLaws.{joined_closed, joined_swaps, joined_groups};

    ghost taken = { is_of kind.Int };

    ghost joined = { joined_of sort.Least };

    ghost closed = { joined_closed sort.Least kind.Int };

    ghost swaps = { joined_swaps sort.Least kind.Int refl };

    ghost groups = { joined_groups sort.Least kind.Int refl };

    fn takes(v: Value) -> bool {
        match v {
            Value::Int(_) => true,
            Value::Unsigned(_) => false,
            Value::Long(_) => false,
            Value::UnsignedLong(_) => false,
        }
    }

    fn join(left: Value, right: Value) -> Value {
        match (left, right) {
            (Value::Int(a), Value::Int(b)) => Value::Int(a.min(b)),
            (left, _) => left,
        }
    }
}

/// The least of two values of kind `long`.
pub struct Least64;

impl Gather for Least64 {
    ghost use Rattle.std.specs.Prelude.{refl};
    ghost use Rattle.species_ast.specs.declared.tree.Kind.TheVariants as kind;
    ghost use Rattle.species_joins.specs.declared.sort.Sort.TheVariants as sort;
    ghost use Rattle.species_joins.specs.Sorts.{is_of, joined_of};
    ghost use Rattle.species_joins.proofs.GatherLaws.{joined_closed, joined_swaps, joined_groups};

    ghost taken = { is_of kind.Long };

    ghost joined = { joined_of sort.Least };

    ghost closed = { joined_closed sort.Least kind.Long };

    ghost swaps = { joined_swaps sort.Least kind.Long refl };

    ghost groups = { joined_groups sort.Least kind.Long refl };

    fn takes(v: Value) -> bool {
        match v {
            Value::Int(_) => false,
            Value::Unsigned(_) => false,
            Value::Long(_) => true,
            Value::UnsignedLong(_) => false,
        }
    }

    fn join(left: Value, right: Value) -> Value {
        match (left, right) {
            (Value::Long(a), Value::Long(b)) => Value::Long(a.min(b)),
            (left, _) => left,
        }
    }
}

/// The greatest of two values of kind `int`.
pub struct Greatest;

impl Gather for Greatest {
    ghost use Rattle.std.specs.Prelude.{refl};
    ghost use Rattle.species_ast.specs.declared.tree.Kind.TheVariants as kind;
    ghost use Rattle.species_joins.specs.declared.sort.Sort.TheVariants as sort;
    ghost use Rattle.species_joins.specs.Sorts.{is_of, joined_of};
    ghost use Rattle.species_joins.proofs.GatherLaws.{joined_closed, joined_swaps, joined_groups};

    ghost taken = { is_of kind.Int };

    ghost joined = { joined_of sort.Greatest };

    ghost closed = { joined_closed sort.Greatest kind.Int };

    ghost swaps = { joined_swaps sort.Greatest kind.Int refl };

    ghost groups = { joined_groups sort.Greatest kind.Int refl };

    fn takes(v: Value) -> bool {
        match v {
            Value::Int(_) => true,
            Value::Unsigned(_) => false,
            Value::Long(_) => false,
            Value::UnsignedLong(_) => false,
        }
    }

    fn join(left: Value, right: Value) -> Value {
        match (left, right) {
            (Value::Int(a), Value::Int(b)) => Value::Int(a.max(b)),
            (left, _) => left,
        }
    }
}

/// The greatest of two values of kind `long`.
pub struct Greatest64;

impl Gather for Greatest64 {
    ghost use Rattle.std.specs.Prelude.{refl};
    ghost use Rattle.species_ast.specs.declared.tree.Kind.TheVariants as kind;
    ghost use Rattle.species_joins.specs.declared.sort.Sort.TheVariants as sort;
    ghost use Rattle.species_joins.specs.Sorts.{is_of, joined_of};
    ghost use Rattle.species_joins.proofs.GatherLaws.{joined_closed, joined_swaps, joined_groups};

    ghost taken = { is_of kind.Long };

    ghost joined = { joined_of sort.Greatest };

    ghost closed = { joined_closed sort.Greatest kind.Long };

    ghost swaps = { joined_swaps sort.Greatest kind.Long refl };

    ghost groups = { joined_groups sort.Greatest kind.Long refl };

    fn takes(v: Value) -> bool {
        match v {
            Value::Int(_) => false,
            Value::Unsigned(_) => false,
            Value::Long(_) => true,
            Value::UnsignedLong(_) => false,
        }
    }

    fn join(left: Value, right: Value) -> Value {
        match (left, right) {
            (Value::Long(a), Value::Long(b)) => Value::Long(a.max(b)),
            (left, _) => left,
        }
    }
}

/// The join that the sort names, of two values of one kind: unsigned for sums, signed for the least and
/// the greatest.
pub fn join_of(sort: Sort, left: Value, right: Value) -> Value
    requires taken { takes_kind sort (kind_of left) ≡ true }
    requires same { kind_of right ≡ kind_of left }
    ensures { result ≡ joined_of sort left right }
{
    match sort {
        Sort::Sum => match left {
            Value::UnsignedLong(_) => WrapAdd64::join(left, right),
            _ => WrapAdd::join(left, right),
        },
        Sort::Least => match left {
            Value::Long(_) => Least64::join(left, right),
            _ => Least::join(left, right),
        },
        Sort::Greatest => match left {
            Value::Long(_) => Greatest64::join(left, right),
            _ => Greatest::join(left, right),
        },
    }
}
