//! Slices of bytes.
ghost use Rattle.std.specs.Prelude.{◌≡◌};
ghost use Rattle.mast_source.specs.Slices as slices;

/// The bytes from one place up to another, without the second; what of them is there.
pub fn between(bytes: &[u8], from: usize, to: usize) -> &[u8]
    ensures { result.now ≡ slices.between bytes.now from to }
{
    let end = to.min(bytes.len());
    if from < end { &bytes[from..end] } else { &[] }
}

/// The bytes without the first and the last.
pub fn inside(bytes: &[u8]) -> &[u8]
    ensures { result.now ≡ slices.inside bytes.now }
{
    if bytes.len() < 2 {
        &[]
    } else {
        &bytes[1..bytes.len() - 1]
    }
}
