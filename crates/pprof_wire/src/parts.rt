//! Parts of the input, lent from where they lie.

ghost use Rattle.std.specs.Prelude.{◌≡◌, ◌+◌, ◌≤◌, length, take, drop};

/// The bytes from index `at` on.
#[inline(always)]
pub(crate) fn bytes_from(bytes: &[u8], at: usize) -> &[u8]
    requires { at ≤ length bytes.now }
    ensures value { result.now ≡ drop at bytes.now }
    ensures pointer { result.ref_ptr ≡ (bytes.entry.ref_ptr.0, bytes.entry.ref_ptr.1 + at) }
{
    &bytes[at..]
}

/// The first `count` bytes.
#[inline(always)]
pub(crate) fn first_bytes(bytes: &[u8], count: usize) -> &[u8]
    requires { count ≤ length bytes.now }
    ensures value { result.now ≡ take count bytes.now }
    ensures pointer { result.ref_ptr ≡ bytes.entry.ref_ptr }
{
    &bytes[..count]
}
