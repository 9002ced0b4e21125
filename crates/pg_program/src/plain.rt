//! Values and messages of programs.
ghost use Rattle.std.specs.Prelude.{◌≡◌, ◌++◌, ℕ, List, IsTrue, IfOk, OnOk, OnErr, FitsSigned};
ghost use Rattle.std.specs.Int.{w64};
ghost use Rattle.std.specs.Fmt.{decimal, signed_decimal};
ghost use Rattle.std.specs.String.{string_bytes};

use pg_graph::Memory;
use pg_model::Sequence;
use std::alloc::Global;

/// What a value or a message of a program may be: two values are equal only if they are identical.
pub trait Plain: Eq + Send + Sync + Drop {
    /// Holds of the values of the type.
    ghost is_value: { Self → Type 0 };

    /// The text of a value.
    ghost shown: { Self → List ℕ };

    /// Tells of a value in hand that it is one of the type.
    fn fits(&self)
        ensures { is_value self.now };

    /// A copy of the value.
    fn copy(&self, alloc: Global) -> Result<Self, Memory>
        ensures { IfOk result (λ x. x ≡ self.now) };

    /// Appends the text of the value.
    fn show(&self, text: &mut String) -> Result<(), Memory>
        ensures ok { OnOk result (string_bytes text.new ≡ string_bytes text.old ++ shown self.now) }
        ensures err { OnErr result (string_bytes text.new ≡ string_bytes text.old) };

    /// Only identical values are equal.
    ghost exact: { (x y : Self) → is_value x → is_value y → IsTrue (Self.PartialEq.eq x y) → x ≡ y };
}

impl Plain for i64 {
    ghost use Rattle.pg_program.specs.Plain.{i64_exact};

    ghost is_value = { FitsSigned w64 };

    ghost shown = { signed_decimal };

    ghost exact = { i64_exact };

    fn fits(&self) {
        let _value = *self;
    }

    fn copy(&self, _alloc: Global) -> Result<i64, Memory> {
        Ok(*self)
    }

    fn show(&self, text: &mut String) -> Result<(), Memory> {
        let value = *self;
        let shown = value.to_string(*text.allocator())?;
        text.push_str(shown.as_str())
    }
}

impl Plain for u64 {
    ghost use Rattle.pg_program.specs.Plain.{is_natural, u64_exact};

    ghost is_value = { is_natural };

    ghost shown = { decimal };

    ghost exact = { u64_exact };

    fn fits(&self) {
        let _value = *self;
    }

    fn copy(&self, _alloc: Global) -> Result<u64, Memory> {
        Ok(*self)
    }

    fn show(&self, text: &mut String) -> Result<(), Memory> {
        let value = *self;
        let shown = value.to_string(*text.allocator())?;
        text.push_str(shown.as_str())
    }
}

impl Plain for bool {
    ghost use Rattle.std.specs.Cmp.{booleans_Decides};
    ghost use Rattle.pg_program.specs.Plain.{bool_text};

    ghost is_value = { λ _. Unit {0} };

    ghost shown = { bool_text };

    ghost exact = { λ x y _ _ equal. (booleans_Decides x y).0 equal };

    fn fits(&self) {}

    fn copy(&self, _alloc: Global) -> Result<bool, Memory> {
        Ok(*self)
    }

    fn show(&self, text: &mut String) -> Result<(), Memory> {
        text.push_str(if *self { "true" } else { "false" })
    }
}

impl<A: Plain, B: Plain> Plain for (A, B) {
    ghost use Rattle.pg_program.specs.Plain.{are_both, pair_exact, pair_text};

    ghost is_value = { are_both A.is_value B.is_value };

    ghost shown = { pair_text A.shown B.shown };

    ghost exact = { pair_exact A.exact B.exact };

    fn fits(&self) {
        self.0.fits();
        self.1.fits();
    }

    fn copy(&self, alloc: Global) -> Result<(A, B), Memory> {
        Ok((self.0.copy(alloc)?, self.1.copy(alloc)?))
    }

    fn show(&self, text: &mut String) -> Result<(), Memory> {
        let mut shown = String::from_str(*text.allocator(), "(")?;
        self.0.show(&mut shown)?;
        shown.push_str(" ")?;
        self.1.show(&mut shown)?;
        shown.push_str(")")?;
        text.push_str(shown.as_str())
    }
}

impl<T: Plain> Plain for Sequence<T> {
    ghost use Rattle.pg_program.specs.Plain.{are_listed, list_exact, list_text};

    ghost is_value = { are_listed T.is_value };

    ghost shown = { list_text T.shown };

    ghost exact = { list_exact T.exact };

    fn fits(&self) {
        let items = self.as_slice();
        for item in items {
            item.fits();
        }
    }

    fn copy(&self, alloc: Global) -> Result<Sequence<T>, Memory> {
        let items = self.as_slice();
        let mut copied = Sequence::new(alloc);
        for item in items {
            copied.push(item.copy(alloc)?)?;
        }
        Ok(copied)
    }

    fn show(&self, text: &mut String) -> Result<(), Memory> {
        let mut shown = String::from_str(*text.allocator(), "[")?;
        let items = self.as_slice();
        for (place, item) in items.iter().enumerate() {
            if place != 0 {
                shown.push_str(" ")?;
            }
            item.show(&mut shown)?;
        }
        shown.push_str("]")?;
        text.push_str(shown.as_str())
    }
}
