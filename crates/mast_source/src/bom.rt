//! The byte order mark at the front of a text.
ghost use Rattle.std.specs.Prelude.{◌≡◌, ◌+◌, ◌≤◌, drop, length};
ghost use Rattle.mast_source.specs.Bom as bom;

/// How many bytes a byte order mark takes at the front: 3, or 0 where there is none.
pub fn bom_length(bytes: &[u8]) -> usize
    ensures value { result ≡ bom.bom_length bytes.now }
    ensures within { result ≤ length bytes.now }
{
    match bytes {
        [a, b, c, ..] => {
            if *a == 0xef && *b == 0xbb && *c == 0xbf {
                3
            } else {
                0
            }
        }
        _ => 0,
    }
}

/// The bytes behind one byte order mark, or all where there is none.
pub fn behind_bom(bytes: &[u8]) -> &[u8]
    ensures value { result.now ≡ drop (bom.bom_length bytes.now) bytes.now }
    ensures size { length result.now + bom.bom_length bytes.now ≡ length bytes.now }
{
    let (_, behind) = bytes.split_at(bom_length(bytes));
    behind
}
