// A row of bits that starts anywhere in lent bytes. The sum of its start and a number need not fit a usize, since bytes can have more than 2 ^ 64 bits:
// so what is tested is counted from a byte near it.
ghost use Rattle.std.specs.Prelude.{◌≡◌, ◌+◌};
ghost use Rattle.bits.specs.Member.{mem};

// Number z of the row is bit start + z, for z below size.
#[derive(Clone, Copy)]
pub struct Span {
    pub start: usize,
    pub size: usize,
}

// Is z in the row? Nothing is past the end.
pub fn has(s: &[u8], start: usize, z: usize) -> bool
    ensures { result ≡ mem s.now (start + z) }
{
    s.get(start / 8 + z / 8..)
        .is_some_and(|rest| bits::test(rest, start % 8 + z % 8))
}
