//! Laws of contents and their numbers, each the contract of a function with an empty body.
ghost use Rattle.std.specs.Prelude.{◌≡◌, ◌↔◌, ◌++◌, List, Some, slice_get, ℕ};
ghost use Rattle.content_store.specs.Bodies.{Bodies, place_of_body, with_body};

/// The number of a body is that of a body with its bytes.
pub fn numbers_lead_back()
    ensures { (body : List ℕ) (bodies : Bodies) (id : ℕ) → place_of_body body bodies ≡ Some id
        → slice_get bodies id ≡ Some body }
{}

/// Of two numbers, given at any two times, the bytes are equal exactly where the numbers are.
pub fn numbers_are_exact()
    ensures { (bodies later : Bodies) (a b : List ℕ) (m n : ℕ) → place_of_body a bodies ≡ Some m
        → place_of_body b (bodies ++ later) ≡ Some n → (m ≡ n) ↔ (a ≡ b) }
{}

/// Bodies come after the others.
pub fn later_bodies_are_behind()
    ensures { (body : List ℕ) (bodies : Bodies)
        → (later : Bodies) × (with_body body bodies ≡ bodies ++ later) }
{}

/// A number keeps its bytes, whatever comes after.
pub fn numbers_keep_their_bytes()
    ensures { (bodies later : Bodies) (body : List ℕ) (id : ℕ) → slice_get bodies id ≡ Some body
        → slice_get (bodies ++ later) id ≡ Some body }
{}
