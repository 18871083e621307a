// The numbers that two classes share, by the Chinese remainder, with no number on the way that overflows.
ghost use Rattle.std.specs.Prelude.{◌≡◌, ◌+◌, ◌-◌, ◌*◌, ◌%◌, ◌<◌, pos, ◌*ℤ◌};
ghost use Rattle.whole.specs.Divides.{gcd, lcm, Cong};
ghost use Rattle.whole.specs.Sized.{width_of};
ghost use Rattle.congruence.specs.Mended as spec;

use crate::Congruence;
use crate::number::alike;
use whole::{Size, floored_remainder, gcd_u64, magnitude};

// a - b modulo n.
fn sub_mod(a: u64, b: u64, n: u64) -> u64
    requires { (n < 9223372036854775808) × (a < n) × (b < n) }
    ensures { result ≡ (a + (n - b)) % n }
{
    (a + (n - b)) % n
}

// a * b modulo n, by doubling: nothing that is formed is 2n or more.
fn mul_mod(a: u64, b: u64, n: u64) -> u64
    requires { (n < 9223372036854775808) × (b < n) }
    ensures { result ≡ a * b % n }
{
    let mut sum: u64 = 0;
    let mut x = b;
    let mut k = a;
    // No for: k is halved, and no index is counted.
    while k != 0 {
        if k % 2 == 1 {
            sum = (sum + x) % n;
        }
        x = (x + x) % n;
        k = k / 2;
    }
    sum
}

// Euclid's steps with one coefficient, kept modulo n: r * a is gcd(a, n) modulo n.
fn bezout(a: u64, n: u64) -> u64
    requires { (0 < n) × (n < 9223372036854775808) }
    ensures { (result < n) × Cong n (pos result *ℤ pos a) (pos (gcd a n)) }
{
    let mut x = a;
    let mut y = n;
    let mut s = 1 % n;
    let mut t: u64 = 0;
    // No for: Euclid's steps count no index.
    while y != 0 {
        let q = x / y;
        let z = x % y;
        let p = mul_mod(q, t, n);
        let u = sub_mod(s, p, n);
        x = y;
        y = z;
        s = t;
        t = u;
    }
    s
}

// The number below the lcm that leaves c modulo m and e modulo n: natural numbers, which no Congruence holds.
fn crt(c: u64, m: u64, e: u64, n: u64) -> u64
    requires { (c < m) × (e < n) × (n < 9223372036854775808) × (lcm m n < 9223372036854775808) × Cong (gcd m n) (pos c) (pos e) }
    ensures { (result < lcm m n) × Cong m (pos result) (pos c) × Cong n (pos result) (pos e) }
{
    let g = gcd_u64(m, n);
    let s = bezout(m, n);
    let d = sub_mod(e, c % n, n);
    let t = mul_mod(d / g, s, n) % (n / g);
    c + m * t
}

fn signed(k: u64) -> i64
    requires { k < 9223372036854775808 }
    ensures { result ≡ pos k }
{
    k as i64
}

// What c leaves modulo p.
fn rest(c: i64, p: u64) -> u64
    requires { (0 < p) × (p < 9223372036854775808) }
    ensures { (result < p) × Cong p (pos result) c }
{
    magnitude(floored_remainder(c, signed(p)))
}

// The number below the lcm that both classes have.
fn shared(c: i64, p: u64, e: i64, q: u64) -> u64
    requires { (0 < p) × (0 < q) × (lcm p q < 9223372036854775808) × Cong (gcd p q) c e }
    ensures { (result < lcm p q) × Cong p (pos result) c × Cong q (pos result) e }
{
    let x = rest(c, p);
    let y = rest(e, q);
    crt(x, p, y, q)
}

// The common numbers of two classes; the left class itself if they share one and the lcm doesn't fit.
pub fn overlap(size: Size, a: Congruence, b: Congruence) -> Congruence
    ensures { result ≡ spec.overlap (width_of size) a b }
{
    let p = magnitude(a.modulus);
    let q = magnitude(b.modulus);
    if !alike(gcd_u64(p, q), a.constant, b.constant) {
        return Congruence::BOTTOM;
    }
    let Some(l) = size.lcm(p, q) else {
        return a;
    };
    if l == 0 {
        return Congruence::BOTTOM;
    }
    Congruence {
        constant: signed(shared(a.constant, p, b.constant, q)),
        modulus: l,
    }
}
