//! What holds of binomial numbers, combinations and selections, whatever the code.
ghost use Rattle.std.specs.Prelude.{◌≡◌, ◌<◌, ◌≤◌, ◌+◌, ◌-◌, ◌*◌, ◌∷◌, ◌↔◌, ℕ, List, length};
ghost use Rattle.frz_combinations.specs.Binomials.{choose};
ghost use Rattle.frz_combinations.specs.Combinations.{AreDescending, IsBefore, IsRanked, rank, unrank};
ghost use Rattle.frz_combinations.specs.Selections.{digit, radix, selection_at};
ghost use Rattle.frz_combinations.specs.MixedRadix.{AreDigits, digits, product, value, value_onto};

/// Pascal's rule, and where it begins: C(n, 0) is 1, and C(n, k) is 0 for k above n.
pub fn binomials()
    ensures none { (n k : ℕ) → n < k → choose n k ≡ 0 }
    ensures one { (n : ℕ) → choose n 0 ≡ 1 }
    ensures pascal { (n k : ℕ) → 0 < k → choose (n + 1) k ≡ choose n k + choose n (k - 1) }
{}

/// The ranks of the combinations of j places below s are the numbers below C(s, j), each once, in
/// colexicographic order.
pub fn combinations()
    ensures below { (s : ℕ) (cs : List ℕ) → AreDescending s cs → rank cs < choose s (length cs) }

    // The last place is the greatest whose binomial number is not above the rank, and so it is
    // found again from the rank.
    ensures last { (c : ℕ) (cs : List ℕ) → AreDescending c cs →
        rank (c ∷ cs) < choose (c + 1) (length (c ∷ cs)) }
    ensures greatest { (s j r c : ℕ) → c < s → choose c (j + 1) ≤ r →
        ((x : ℕ) → c < x → x < s → r < choose x (j + 1)) →
        unrank s (j + 1) r ≡ c ∷ unrank c j (r - choose c (j + 1)) }
    ensures found_again { (s : ℕ) (cs : List ℕ) → AreDescending s cs →
        unrank s (length cs) (rank cs) ≡ cs }
    ensures each { (s j r : ℕ) → r < choose s j → IsRanked s j r (unrank s j r) }
    ensures once { (s t : ℕ) (cs ds : List ℕ) → AreDescending s cs → AreDescending t ds →
        length cs ≡ length ds → rank cs ≡ rank ds → cs ≡ ds }
    ensures ordered { (s t : ℕ) (cs ds : List ℕ) → AreDescending s cs → AreDescending t ds →
        length cs ≡ length ds → IsBefore cs ds → rank cs < rank ds }
{}

/// Each selection of l to m places among s has a number of its own, below the radix.
pub fn selections()
    ensures below { (s l m : ℕ) (cs : List ℕ) → AreDescending s cs → l ≤ length cs → length cs ≤ m →
        digit s l cs < radix s l m }
    ensures found_again { (s l m : ℕ) (cs : List ℕ) → AreDescending s cs → l ≤ length cs →
        length cs ≤ m → selection_at s l m (digit s l cs) ≡ cs }
{}

/// The digits of a number in mixed radix give the number, and the number gives the digits.
pub fn mixed_radix()
    ensures below { (bs ds : List ℕ) → AreDigits bs ds → value bs ds < product bs }
    ensures found_again { (bs ds : List ℕ) → AreDigits bs ds → digits bs (value bs ds) ≡ ds }
    ensures each { (bs : List ℕ) (n : ℕ) → n < product bs → value bs (digits bs n) ≡ n }
    ensures onto { (n : ℕ) (bs ds : List ℕ) → AreDigits bs ds →
        value_onto n bs ds ≡ n * product bs + value bs ds }
{}
