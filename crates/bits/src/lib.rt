// Sets of numbers below 64 as one 64-bit word, bit p for number p. They serve as sets of points, and as blocks of 64 words.
#![tactic(auto)]

ghost use Rattle.std.specs.Prelude.{◌≡◌, ◌-◌, ◌^◌, ◌≤◌, ◌<◌};
ghost use Rattle.std.specs.Int.Bits.{bit_or};
ghost use Rattle.model.specs.Lists.{numbers_below, how_many};
ghost use Rattle.bits.specs.Sets.{has_bit, set_minus, Lowest, ButLowest};

// Whether number p is in s.
pub fn has(s: u64, p: usize) -> bool
    requires { p < 64 }
    ensures { result ≡ has_bit s p }
{
    (s >> p) % 2 == 1
}

// s with number p.
pub fn with(s: u64, p: usize) -> u64
    requires { p < 64 }
    ensures { result ≡ bit_or s (2 ^ p) }
{
    s | (1u64 << p)
}

// The numbers of s that are not in t.
pub fn minus(s: u64, t: u64) -> u64
    ensures { result ≡ set_minus s t }
{
    s & !t
}

// All numbers below n.
pub fn all(n: usize) -> u64
    requires { (0 < n) × (n ≤ 64) }
    ensures { result ≡ 2 ^ n - 1 }
{
    !0u64 >> (64 - n)
}

// How many numbers are in s.
pub fn size(s: u64) -> usize
    ensures { result ≡ how_many (has_bit s) (numbers_below 64) }
{
    u64::count_ones(s) as usize
}

// The lowest number of s.
pub fn lowest(s: u64) -> usize
    requires { 0 < s }
    ensures { Lowest s result }
{
    u64::trailing_zeros(s) as usize
}

// s without its lowest number.
pub fn but_lowest(s: u64) -> u64
    requires { 0 < s }
    ensures { ButLowest s result }
{
    s & (s - 1)
}
