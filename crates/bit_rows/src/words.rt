// One word of 64 bits.
ghost use Rattle.std.specs.Prelude.{◌≡◌, ◌<◌, ◌≤◌, ◌||◌, ℕ, false, true, IfSome, IfNone};
ghost use Rattle.bit_rows.specs.Words.{is_one};

// How many bits a word has.
pub const WORD_BITS: usize = 64;

pub fn is_one(word: u64, place: usize) -> bool
    requires { place < 64 }
    ensures { result ≡ is_one word place }
{
    (word >> place) & 1 == 1
}

pub fn with_one(word: u64, place: usize) -> u64
    requires { place < 64 }
    ensures there { is_one result place ≡ true }
    ensures others { (k : ℕ) → ¬ (k ≡ place) → is_one result k ≡ is_one word k }
{
    word | (1 << place)
}

pub fn without(word: u64, place: usize) -> u64
    requires { place < 64 }
    ensures gone { is_one result place ≡ false }
    ensures others { (k : ℕ) → k < 64 → ¬ (k ≡ place) → is_one result k ≡ is_one word k }
{
    word & !(1 << place)
}

// The first place from this one on at which the word has a 1, or nothing.
pub fn first_one(word: u64, from: usize) -> Option<usize>
    requires { from < 64 }
    ensures found { IfSome result (λ place. (from ≤ place) × (place < 64) × (is_one word place ≡ true)) }
    ensures none_before { IfSome result (λ place. (k : ℕ) → from ≤ k → k < place → is_one word k ≡ false) }
    ensures none { IfNone result ((k : ℕ) → from ≤ k → k < 64 → is_one word k ≡ false) }
{
    let rest = word >> from;
    if rest == 0 {
        None
    } else {
        Some(from + rest.trailing_zeros() as usize)
    }
}

// The word with the ones of another too, or nothing where it has them all.
pub fn joined(word: u64, added: u64) -> Option<u64>
    ensures ones { IfSome result (λ all. (k : ℕ) → k < 64 → is_one all k ≡ (is_one word k || is_one added k)) }
    ensures new { IfSome result (λ _. (k : ℕ) × (k < 64) × (is_one word k ≡ false) × (is_one added k ≡ true)) }
    ensures none { IfNone result ((k : ℕ) → k < 64 → is_one word k ≡ (is_one word k || is_one added k)) }
{
    let new = added & !word;
    if new == 0 { None } else { Some(word | added) }
}
