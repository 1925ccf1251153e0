//! Clones that are equal to what they were made from.
ghost use Rattle.std.specs.Prelude.{◌≡◌};

/// A type whose clones are equal to what they were made from. A generic proof learns it from the law.
pub trait Same: Clone {
    ghost exact: { (x y : Self) → Self.is_clone x y → y ≡ x };
}

impl Same for u8 {
    ghost exact = { λ x y h. h };
}

impl Same for u64 {
    ghost exact = { λ x y h. h };
}
