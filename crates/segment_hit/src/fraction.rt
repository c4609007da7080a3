//! The fraction that a hit answers. Its two facts make it the only fraction of its value.

ghost use Rattle.std.specs.Prelude.{pos, ◌<ℤ◌, unsigned_abs};
ghost use Rattle.std.specs.Int.{IsGcd};

/// A fraction in lowest terms, with `den` above 0. Zero is 0/1.
#[derive(Clone, Copy, Debug, PartialEq, Eq, Drop)]
pub struct Frac {
    pub num: i64,
    pub den: i64,
    pub ghost above: { pos 0 <ℤ den },
    pub ghost lowest: { IsGcd (unsigned_abs num) (unsigned_abs den) 1 },
}
