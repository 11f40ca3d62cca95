// A set of heads, kept as the bits of one number: head 1 in the lowest bit. The calendar's hearers are such a set. This crate is
// the only one that looks at bits; it uses no other crate, and all above it speak of heads by their numbers, 1 to 64. A number is a `u8` with
// its bounds in a clause: steps, calendars and images hold any byte, and a type of its own would be put round it at each call.
#![tactic(auto, using(crate::proofs::Laws::as_reached), unfolding(crate::specs::Set::all_but))]

ghost use Rattle.std.specs.Prelude.{◌≡◌, ◌≤◌, eqb, leb};
ghost use Rattle.std.specs.Int.Count.{ones};
ghost use Rattle.hearers.specs.Set.{has, alone, without, everyone, all_but};

// Whether head i is in the set.
pub fn has(set: u64, i: u8) -> bool
    requires { (1 ≤ i) × (i ≤ 64) }
    ensures { result ≡ eqb (has set i) 1 }
{
    set >> (i - 1) & 1 == 1
}

// The set of head i alone.
fn alone(i: u8) -> u64
    requires { (1 ≤ i) × (i ≤ 64) }
    ensures { result ≡ alone i }
{
    1 << (i - 1)
}

// The set without head i.
pub fn without(set: u64, i: u8) -> u64
    requires { (1 ≤ i) × (i ≤ 64) }
    ensures { result ≡ without set i }
{
    set & !alone(i)
}

// The set of heads 1 to n.
fn everyone(n: u8) -> u64
    requires { (1 ≤ n) × (n ≤ 64) }
    ensures { result ≡ everyone n }
{
    u64::MAX >> (64 - n)
}

// Heads 1 to n, but for head i.
pub fn all_but(n: u8, i: u8) -> u64
    requires { (1 ≤ i) × (i ≤ n) × (n ≤ 64) }
    ensures { result ≡ all_but n i }
{
    without(everyone(n), i)
}

// Whether the set holds no head above n.
pub fn within(set: u64, n: u8) -> bool
    requires { (1 ≤ n) × (n ≤ 64) }
    ensures { result ≡ leb set (everyone n) }
{
    set <= everyone(n)
}

// How many heads are in the set: the count of ones.
pub fn count(set: u64) -> u32
    ensures { result ≡ ones set }
{
    set.count_ones()
}
