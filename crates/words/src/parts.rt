// The octets of a line, and what may be asked of them.
ghost use Rattle.std.specs.Prelude.{◌≡◌, ◌+◌, ◌*◌, drop};

// A number of two octets.
pub(crate) fn two(high: u8, low: u8) -> u16
    ensures { result ≡ 256 * high + low }
{
    u16::from_be_bytes([high, low])
}

// What follows n octets; `said::after` is the same, in a crate of the unit's, on which no words stand: for one expression that is no plainer.
pub(crate) fn after(s: &[u8], n: usize) -> &[u8]
    ensures { result.now ≡ drop n s.now }
{
    s.get(n..).unwrap_or(&[])
}
