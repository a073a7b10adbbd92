//! What is always true of sums of amounts, for the crates above to cite. The functions do nothing.

ghost use Rattle.std.specs.Prelude.{◌≡◌, ◌+◌, ◌<◌, ◌≤◌, ℕ, true, List, ◌++◌, [], ◌∷◌, All, length, replicate, map, remove, insert, slice_set, slice_index_or, sum_by};
ghost use Rattle.np_amount.specs.Amounts.{no_limit, nothing, plus, minus, times, fits, total, IsAtMost};

use crate::amount::{Amount, Limit};

/// `plus` adds in any order and grouping, and `minus` takes away what was added.
pub fn amounts_add_up()
    ensures assoc { (a b c : Amount) → plus (plus a b) c ≡ plus a (plus b c) }
    ensures comm { (a b : Amount) → plus a b ≡ plus b a }
    ensures zero { (a : Amount) → plus nothing a ≡ a }
    ensures undone { (a b : Amount) → minus (plus a b) b ≡ a }
    ensures redone { (a b : Amount) → IsAtMost b a → plus (minus a b) b ≡ a }
    ensures constant { Amount.NOTHING ≡ nothing }
{}

/// `times` is a repeated sum: one more adds one more, and more of a larger amount is more.
pub fn times_are_sums()
    ensures sum { (n : ℕ) (a : Amount) → times n a ≡ total (replicate n a) }
    ensures more { (n : ℕ) (a : Amount) → times (n + 1) a ≡ plus a (times n a) }
    ensures most { (m n : ℕ) (a b : Amount) → m ≤ n → IsAtMost a b →
        IsAtMost (times m a) (times n b) }
{}

/// A smaller amount fits if a larger one does, and each amount fits if nothing is limited.
pub fn smaller_amounts_fit()
    ensures unlimited { (a : Amount) → fits a no_limit ≡ true }
    ensures constant { Limit.NO_LIMIT ≡ no_limit }
    ensures fits { (a b : Amount) (limit : Limit) → IsAtMost a b → fits b limit ≡ true →
        fits a limit ≡ true }
    ensures refl { (a : Amount) → IsAtMost a a }
    ensures trans { (a b c : Amount) → IsAtMost a b → IsAtMost b c → IsAtMost a c }
    ensures part { (a b : Amount) → IsAtMost a (plus a b) }
    ensures sums { (a b c d : Amount) → IsAtMost a b → IsAtMost c d →
        IsAtMost (plus a c) (plus b d) }
{}

/// What a total becomes if its list changes.
pub fn totals_follow_their_list()
    ensures append { (xs ys : List Amount) → total (xs ++ ys) ≡ plus (total xs) (total ys) }
    ensures push { (xs : List Amount) (y : Amount) → total (xs ++ y ∷ []) ≡ plus (total xs) y }

    // A member leaves, or joins at a place.
    ensures remove { (xs : List Amount) (i : ℕ) (d : Amount) → i < length xs →
        plus (total (remove xs i)) (slice_index_or xs i d) ≡ total xs }
    ensures insert { (xs : List Amount) (i : ℕ) (y : Amount) →
        total (insert xs i y) ≡ plus (total xs) y }

    // A member is replaced.
    ensures replace { (xs : List Amount) (i : ℕ) (y d : Amount) → i < length xs →
        plus (total (slice_set xs i y)) (slice_index_or xs i d) ≡ plus (total xs) y }

    ensures bound { (xs : List Amount) (most : Amount) → All (λ a. IsAtMost a most) xs →
        IsAtMost (total xs) (times (length xs) most) }
{}

/// The parts of a total are the sums of the parts.
pub fn totals_are_sums()
    ensures instances { (xs : List Amount) → (total xs).instances ≡ sum_by (λ a. a.instances) xs }
    ensures cores { (xs : List Amount) → (total xs).cores ≡ sum_by (λ a. a.cores) xs }
    ensures ram { (xs : List Amount) → (total xs).ram ≡ sum_by (λ a. a.ram) xs }
{}
