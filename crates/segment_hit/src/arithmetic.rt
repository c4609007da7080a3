//! Sums and products of `i64` that fit, with their bounds in the type: one operation a function, so that a chain of
//! them is proved link by link.

ghost use Rattle.std.specs.Prelude.{◌≡◌, ◌+◌, ◌*◌, ◌^◌, ◌<◌, ◌≤◌, ◌+ℤ◌, ◌-ℤ◌, ◌*ℤ◌, unsigned_abs};

/// The product of a number of at most `M` and one of at most `N`, apart from their signs.
pub fn times<const M: u64, const N: u64>(a: i64, b: i64) -> i64
    requires first { unsigned_abs a ≤ M }
    requires second { unsigned_abs b ≤ N }
    requires fits { M * N < 2 ^ 63 }
    ensures value { result ≡ a *ℤ b }
    ensures size { unsigned_abs result ≤ M * N }
{
    a * b
}

/// The difference of a number of at most `M` and one of at most `N`, apart from their signs.
pub fn minus<const M: u64, const N: u64>(a: i64, b: i64) -> i64
    requires first { unsigned_abs a ≤ M }
    requires second { unsigned_abs b ≤ N }
    requires fits { M + N < 2 ^ 63 }
    ensures value { result ≡ a -ℤ b }
    ensures size { unsigned_abs result ≤ M + N }
{
    a - b
}

/// The sum of a number of at most `M` and one of at most `N`, apart from their signs.
pub fn plus<const M: u64, const N: u64>(a: i64, b: i64) -> i64
    requires first { unsigned_abs a ≤ M }
    requires second { unsigned_abs b ≤ N }
    requires fits { M + N < 2 ^ 63 }
    ensures value { result ≡ a +ℤ b }
    ensures size { unsigned_abs result ≤ M + N }
{
    a + b
}
