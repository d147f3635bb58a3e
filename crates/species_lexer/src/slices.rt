//! Bytes before and behind a place.
ghost use Rattle.std.specs.Prelude.{◌≡◌, take, drop};

/// The first `n` bytes, or all where there are fewer.
pub(crate) fn front(bytes: &[u8], n: usize) -> &[u8]
    ensures { result.now ≡ take n bytes.now }
{
    if n < bytes.len() { &bytes[..n] } else { bytes }
}

/// The bytes behind the first `n`, or none where there are fewer.
pub(crate) fn behind(bytes: &[u8], n: usize) -> &[u8]
    ensures { result.now ≡ drop n bytes.now }
{
    if n < bytes.len() { &bytes[n..] } else { &[] }
}
