// Types at which `==` answers whether two values are equal.
ghost use Rattle.std.specs.Prelude.{◌≡◌, ◌↔◌, IsTrue};
ghost use Rattle.std.specs.Bool.{Decides};

use crate::seq::Seq;

/// `==` holds exactly of equal values.
pub trait Exact: Eq {
    ghost exact: { (x y : Self) → Decides (Self.eq x y) (x ≡ y) };
}

/// Whether two values are equal.
pub fn same<T: Exact>(a: &T, b: &T) -> bool
    ensures { IsTrue result ↔ (a.now ≡ b.now) }
{
    a == b
}

impl Exact for u8 {
    ghost use Rattle.std.proofs.lemmas.Bool.Decides.{Decides-eqb};

    ghost exact = { Decides-eqb };
}

impl<T: Exact> Exact for Seq<T> {
    ghost use Rattle.std.specs.Cmp.Lexicographic.{pointwise_decides};

    ghost exact = { pointwise_decides T.exact };
}
