// The strips of the targets filled block by block: the 128 bytes at one offset of all strips that are
// read go into a local array, and that block of every target is computed from it. Where the sets are
// large, a strip's bytes are read from the stripe once, and not once for each target.
//
// It assumes strips of 128 bytes or more, at most 32 disks, and that no strip that is read is a target's.
#![tactic(auto)]

ghost use Rattle.std.specs.Prelude.{◌≡◌, ◌&&◌, ℕ, ◌+◌, ◌-◌, ◌*◌, ◌/◌, ◌%◌, ◌<◌, ◌≤◌, T, leb, ltb, length, get_or, if◌then◌else◌};
ghost use Rattle.gf2.specs.Sets.{has, over};
ghost use Rattle.flat.specs.Lists.{tabulate, put};
ghost use Rattle.flat.specs.Strips.{byte_of};
ghost use Rattle.flat.specs.Repairs.{filled};
ghost use Rattle.strip_dense.specs.Named.{named};

// The 128 bytes from o on of the strips of the disks below n, one after the other.
#[tactic(auto, using(strip_blocks::proofs::Within::strip_fits))]
pub fn gather(local: &mut [u8; 4096], s: &[u8], l: usize, n: usize, o: usize)
    requires { (length local.old ≡ 4096) × (n ≤ 32) × (o + 128 ≤ l) × (n * l ≤ length s.now) }
    ensures local_len { length local.new ≡ 4096 }
    ensures by_index { (t i : ℕ) → t < 128 → i < n → byte_of 128 local.new t i ≡ byte_of l s.now (o + t) i }
{
    for i in 0..n {
        let from = i * l + o;
        let to = i * 128;
        local[to..to + 128].copy_from_slice(&s[from..from + 128]);
    }
}

// The 128 bytes from o on of the strip of each target d become the XOR of the blocks of the disks in set d.
#[tactic(auto, using(strip_blocks::proofs::Within::strip_fits))]
fn fill_block(
    s: &mut [u8],
    local: &[u8],
    l: usize,
    n: usize,
    targets: u32,
    sets: [u32; 32],
    o: usize,
)
    requires { (n ≤ 32) × (n * 128 ≤ length local.now) × (o + 128 ≤ l) × (n * l ≡ length s.old) }
    ensures { s.new ≡ tabulate (length s.old) (λ p. if has targets (p / l) && (leb o (p % l) && ltb (p % l) (o + 128)) then over n (get_or sets (p / l) 0) (byte_of 128 local.now (p % l - o)) else get_or s.old p 0) }
{
    for d in 0..n {
        if gf2::has(targets, d as u32) {
            let block = strip_blocks::sum::<128>(local, 128, n, sets[d], 0);
            strip_blocks::put(s, d * l + o, block);
        }
    }
}

// The strips of the targets, of 128 bytes or more.
pub fn fill(s: &mut [u8], l: usize, n: usize, targets: u32, sets: [u32; 32])
    requires sizes { (128 ≤ l) × (n ≤ 32) × (n * l ≡ length s.old) }
    requires apart { (d i : ℕ) → T (has targets d) → i < n → T (has (get_or sets d 0) i) → T (has targets i) → ⊥ }
    ensures { s.new ≡ filled n l (λ d. get_or sets d 0) targets s.old }
{
    let mut local = [0u8; 4096];
    for b in 0..l.div_ceil(128) {
        let start = strip_blocks::block_start(b * 128, 128, l);
        gather(&mut local, s, l, n, start);
        fill_block(s, &local, l, n, targets, sets, start);
    }
}

// Whether the sets of the targets name each of the n strips three times or more on average. It chooses
// the way to fill, and no more.
pub fn is_dense(n: usize, targets: u32, sets: [u32; 32]) -> bool
    requires { n ≤ 32 }
    ensures { result ≡ leb (3 * n) (named targets sets n) }
{
    let mut named = 0usize;
    for d in 0..n {
        if gf2::has(targets, d as u32) {
            named += gf2::size(sets[d]) as usize;
        }
    }
    3 * n <= named
}
