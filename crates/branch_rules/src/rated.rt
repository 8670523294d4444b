//! Tests with ratings, of which the best is kept.

ghost use Rattle.std.specs.Prelude.{◌≡◌, ◌⊎◌, MatchOption, None, Some};

use league_core::Test;

/// A test with its rating.
#[derive(Clone, Copy)]
pub struct Rated {
    pub test: Test,
    pub rate: i32,
}

/// The found one if it is rated higher, otherwise the best so far.
pub fn better(best: Option<Rated>, found: Option<Rated>) -> Option<Rated>
    ensures one { (result ≡ best) ⊎ (result ≡ found) }
    ensures none { result ≡ None → (best ≡ None) × (found ≡ None) }
{
    match (best, found) {
        (Some(one), Some(other)) => {
            if one.rate < other.rate {
                Some(other)
            } else {
                Some(one)
            }
        }
        (Some(one), None) => Some(one),
        (None, other) => other,
    }
}

/// The test without its rating.
pub fn test_of(rated: Option<Rated>) -> Option<Test>
    ensures { MatchOption rated (result ≡ None) (λ one. result ≡ Some one.test) }
{
    match rated {
        Some(one) => Some(one.test),
        None => None,
    }
}
