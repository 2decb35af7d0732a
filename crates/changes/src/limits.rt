// Whether values keep their limits.
ghost use Rattle.std.specs.Prelude.{◌≡◌};
ghost use Rattle.changes.specs.Tests.{from, printable, name_fits};

pub fn is_from(low: u16, high: u16, n: u16) -> bool
    ensures { result ≡ from low high n }
{
    low <= n && n <= high
}

// A printable sign, from the space to the tilde.
fn is_sign(byte: u8) -> bool
    ensures { result ≡ from 0x20 0x7E byte }
{
    is_from(0x20, 0x7E, byte as u16)
}

fn is_printable(bytes: &[u8]) -> bool
    ensures { result ≡ printable bytes.now }
{
    bytes.iter().all(|byte| is_sign(*byte))
}

// A step's name: eight printable bytes.
pub fn name_fits(name: &[u8]) -> bool
    ensures { result ≡ name_fits name.now }
{
    name.len() == 8 && is_printable(name)
}
