// A few strips at once, from end to end: each is read as one stream, which suits the machine's
// prefetching. For sets of few disks and long strips.
//
// A list of places says where the strips start, l bytes each. It is filled up to a fixed length with pairs
// of one place, which cancel: the count N is a constant, so that each is compiled with its places in registers.
#![tactic(auto)]

ghost use Rattle.std.specs.Prelude.{◌≡◌, ℕ, ◌+◌, ◌-◌, ◌%◌, ◌<◌, ◌≤◌, eqb, length, get_or};
ghost use Rattle.flat.specs.Lists.{every, tabulate, put};
ghost use Rattle.strip_blocks.specs.Totals.{total, xor_at};
ghost use Rattle.strip_blocks.specs.Places.{Inside, Apart};

// The places, and pairs of the first place up to N.
fn filled_up<const N: usize>(at: &[usize]) -> [usize; N]
    requires { (1 ≤ length at.now) × (length at.now ≤ N) × ((N - length at.now) % 2 ≡ 0) }
    ensures places { (j : ℕ) → j < N → (i : ℕ) × (i < length at.now) × (get_or result j 0 ≡ get_or at.now i 0) }
    ensures sums { (f : ℕ → ℕ) → total N (λ j. f (get_or result j 0)) ≡ total (length at.now) (λ j. f (get_or at.now j 0)) }
{
    let mut out = [at[0]; N];
    out[..at.len()].copy_from_slice(at);
    out
}

// Byte t of the XOR of the strips at N places.
fn byte<const N: usize>(s: &[u8], at: &[usize; N], t: usize) -> u8
    requires { (j : ℕ) → j < N → get_or at.now j 0 + t < length s.now }
    ensures { result ≡ xor_at N at.now s.now t }
{
    let mut byte = 0u8;
    for j in 0..N {
        byte ^= s[at[j] + t];
    }
    byte
}

// The XOR of the strips at N places, put into the l bytes from p on.
fn fill_from<const N: usize>(s: &mut [u8], p: usize, l: usize, at: [usize; N])
    requires { (p + l ≤ length s.old) × Inside s.old l at N × Apart p l at N }
    ensures { s.new ≡ put s.old p (tabulate l (xor_at N at.entry s.old)) }
{
    for t in 0..l {
        s[p + t] = byte(s, &at, t);
    }
}

// The XOR of the strips at one to four places, put into the l bytes from p on.
pub fn fill(s: &mut [u8], p: usize, l: usize, at: &[usize])
    requires count { (1 ≤ length at.now) × (length at.now ≤ 4) }
    requires room { p + l ≤ length s.old }
    requires inside { Inside s.old l at.now (length at.now) }
    requires apart { Apart p l at.now (length at.now) }
    ensures { s.new ≡ put s.old p (tabulate l (xor_at (length at.now) at.now s.old)) }
{
    if at.len() % 2 == 1 {
        fill_from::<3>(s, p, l, filled_up(at));
    } else {
        fill_from::<4>(s, p, l, filled_up(at));
    }
}

// Whether the XOR of the strips at N places has no byte but 0.
fn vanishes_from<const N: usize>(s: &[u8], l: usize, at: [usize; N]) -> bool
    requires { Inside s.now l at N }
    ensures { result ≡ every l (λ t. eqb (xor_at N at.entry s.now t) 0) }
{
    let mut any = 0u8;
    for t in 0..l {
        any |= byte(s, &at, t);
    }
    any == 0
}

// Whether the XOR of the strips at one to six places has no byte but 0.
pub fn vanishes(s: &[u8], l: usize, at: &[usize]) -> bool
    requires count { (1 ≤ length at.now) × (length at.now ≤ 6) }
    requires inside { Inside s.now l at.now (length at.now) }
    ensures { result ≡ every l (λ t. eqb (xor_at (length at.now) at.now s.now t) 0) }
{
    if at.len() % 2 == 1 {
        vanishes_from::<5>(s, l, filled_up(at))
    } else {
        vanishes_from::<6>(s, l, filled_up(at))
    }
}
