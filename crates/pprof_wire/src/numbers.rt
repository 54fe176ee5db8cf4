//! The numbers of a packed field.

ghost use Rattle.std.specs.Prelude.{◌≡◌};

use crate::packing::Packed;

/// The numbers of a packed field's bytes: varints, one after the other (Protocol Buffers encoding page,
/// "Packed Repeated Fields").
pub fn packed(bytes: &[u8]) -> Packed<'_>
    ensures { result ≡ bytes.now }
{
    Packed::new(bytes)
}
