// Sets of numbers as bits: a word of 64, and rows of words.
ghost use Rattle.std.specs.Prelude.{ℕ, ◌*◌, ◌<◌, ◌≡◌, ◌||◌, eqb, length};
ghost use Rattle.lists.specs.Bits.{bit, bit_at, Inserted, Removed};

// Whether a set holds i.
pub fn has(set: u64, i: u8) -> bool
    requires { i < 64 }
    ensures { result ≡ bit set i }
{
    (set >> i) % 2 == 1
}

// The set with i.
pub fn with(set: u64, i: u8) -> u64
    requires { i < 64 }
    ensures { (j : ℕ) → bit result j ≡ (eqb j i || bit set j) }
{
    set | 1u64 << i
}

// The numbers of either set.
pub fn join(a: u64, b: u64) -> u64
    ensures { (j : ℕ) → bit result j ≡ (bit a j || bit b j) }
{
    a | b
}

// Whether a row of words holds k.
pub fn row_has(words: &[u64], k: usize) -> bool
    requires { k < length words.now * 64 }
    ensures { result ≡ bit_at words.now k }
{
    (words[k / 64] >> k % 64) % 2 == 1
}

// Puts k into a row of words.
pub fn row_insert(words: &mut [u64], k: usize)
    requires { k < length words.old * 64 }
    ensures { Inserted k words.old words.new }
{
    let at = k / 64;
    words[at] |= 1u64 << k % 64;
}

// Takes k out of a row of words.
pub fn row_remove(words: &mut [u64], k: usize)
    requires { k < length words.old * 64 }
    ensures { Removed k words.old words.new }
{
    let at = k / 64;
    words[at] &= !(1u64 << k % 64);
}
