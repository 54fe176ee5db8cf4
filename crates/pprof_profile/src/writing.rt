//! Fields appended to bytes: numbers, texts and messages.

ghost use Rattle.std.specs.Prelude.{◌≡◌, ◌++◌, ◌<◌, ◌^◌, List, length, map, OnOk};
ghost use Rattle.pprof_wire.specs.Fields.{IsFieldNumber};
ghost use Rattle.pprof_profile.specs.Forms.{Form, Fits, bytes_of};
ghost use Rattle.pprof_profile.specs.Writing.{bytes_of_fields, number_fields, content_fields, each_field, packed_bytes};
ghost use Rattle.pprof_profile.specs.Writing.{FitsNumbers, FitsTexts, FitsEach, HasAppended};

use crate::numbers::Number;
use crate::text::Text;
use basics::Items;
use pprof_wire::{NoMemory, Value, write_field, write_varint};
use std::alloc::Global;

/// A message that can be written.
pub(crate) trait Written {
    /// Its fields.
    ghost form: { Form Self };

    /// Appends the fields. What is nested in them is written to `spare` first, since its length stands before it.
    fn write(&self, alloc: Global, out: &mut Vec<u8>, spare: &mut Vec<u8>) -> Result<(), NoMemory>
        ensures written { OnOk result (out.new.items ≡ out.old.items ++ bytes_of form self.now) }
        ensures fits { OnOk result (Fits form self.now) };
}

/// Appends a single number, if it is not 0.
#[inline(always)]
pub(crate) fn write_number<N: Number>(
    out: &mut Vec<u8>,
    number: u32,
    value: &N,
) -> Result<(), NoMemory>
    requires { IsFieldNumber number }
    ensures written { OnOk result
        (out.new.items ≡ out.old.items ++ bytes_of_fields (number_fields number (N.to value.now))) }
    ensures fits { N.fits value.now }
{
    match value.to_varint() {
        0 => Ok(()),
        value => write_field(out, number, Value::Varint(value)),
    }
}

/// Appends a field of this content, if it is not empty.
#[inline(always)]
fn write_content(out: &mut Vec<u8>, number: u32, content: &[u8]) -> Result<(), NoMemory>
    requires { IsFieldNumber number }
    ensures { OnOk result (out.new.items ≡ out.old.items ++ bytes_of_fields (content_fields number content.now)) }
{
    match content {
        [] => Ok(()),
        _ => write_field(out, number, Value::Bytes(content)),
    }
}

/// Appends numbers, packed in one field, if there are any.
pub(crate) fn write_numbers<N: Number>(
    out: &mut Vec<u8>,
    number: u32,
    items: &Items<N>,
    spare: &mut Vec<u8>,
) -> Result<(), NoMemory>
    requires { IsFieldNumber number }
    ensures { OnOk result (HasAppended out.old.items out.new.items
        (bytes_of_fields (content_fields number (packed_bytes (map N.to items.now))))
        (FitsNumbers N.fits items.now × (length (packed_bytes (map N.to items.now)) < 2 ^ 64))) }
{
    write_packed(out, number, items.as_slice(), spare)
}

/// Appends numbers that are lent, packed in one field, if there are any.
#[inline(always)]
pub(crate) fn write_packed<N: Number>(
    out: &mut Vec<u8>,
    number: u32,
    items: &[N],
    spare: &mut Vec<u8>,
) -> Result<(), NoMemory>
    requires { IsFieldNumber number }
    ensures { OnOk result (HasAppended out.old.items out.new.items
        (bytes_of_fields (content_fields number (packed_bytes (map N.to items.now))))
        (FitsNumbers N.fits items.now × (length (packed_bytes (map N.to items.now)) < 2 ^ 64))) }
{
    spare.clear();
    push_numbers(spare, items)?;
    write_content(out, number, spare.as_slice())
}

/// Appends each number, one after the other.
fn push_numbers<N: Number>(content: &mut Vec<u8>, items: &[N]) -> Result<(), NoMemory>
    ensures { OnOk result (HasAppended content.old.items content.new.items
        (packed_bytes (map N.to items.now))
        (FitsNumbers N.fits items.now)) }
{
    for item in items {
        write_varint(content, item.to_varint())?;
    }
    Ok(())
}

/// Appends a field for each text.
pub(crate) fn write_texts(
    out: &mut Vec<u8>,
    number: u32,
    texts: &Items<Text>,
) -> Result<(), NoMemory>
    requires { IsFieldNumber number }
    ensures { OnOk result (HasAppended out.old.items out.new.items
        (bytes_of_fields (each_field number texts.now))
        (FitsTexts texts.now)) }
{
    for text in texts.as_slice() {
        write_field(out, number, Value::Bytes(text.as_str().as_bytes()))?;
    }
    Ok(())
}

/// Writes a message where other content stood.
pub(crate) fn replace_content<M: Written>(
    alloc: Global,
    content: &mut Vec<u8>,
    item: &M,
    spare: &mut Vec<u8>,
) -> Result<(), NoMemory>
    ensures content { OnOk result (content.new.items ≡ bytes_of M.form item.now) }
    ensures fits { OnOk result (Fits M.form item.now × (length (bytes_of M.form item.now) < 2 ^ 64)) }
{
    content.clear();
    item.write(alloc, content, spare)
}

/// Appends a field for each message.
pub(crate) fn write_messages<M: Written>(
    alloc: Global,
    out: &mut Vec<u8>,
    number: u32,
    items: &Items<M>,
    spare: &mut Vec<u8>,
) -> Result<(), NoMemory>
    requires { IsFieldNumber number }
    ensures { OnOk result (HasAppended out.old.items out.new.items
        (bytes_of_fields (each_field number (map (bytes_of M.form) items.now)))
        (FitsEach (Fits M.form) (bytes_of M.form) items.now)) }
{
    write_each(alloc, out, number, items.as_slice(), spare)
}

/// Appends a field for each message that is lent. One buffer serves for all of them, and one for what is nested in
/// each.
pub(crate) fn write_each<M: Written>(
    alloc: Global,
    out: &mut Vec<u8>,
    number: u32,
    items: &[M],
    spare: &mut Vec<u8>,
) -> Result<(), NoMemory>
    requires { IsFieldNumber number }
    ensures { OnOk result (HasAppended out.old.items out.new.items
        (bytes_of_fields (each_field number (map (bytes_of M.form) items.now)))
        (FitsEach (Fits M.form) (bytes_of M.form) items.now)) }
{
    let mut nested = Vec::new(alloc);
    for item in items {
        replace_content(alloc, spare, item, &mut nested)?;
        write_field(out, number, Value::Bytes(spare.as_slice()))?;
    }
    Ok(())
}

/// Appends a single message, if it is not empty.
pub(crate) fn write_message<M: Written>(
    alloc: Global,
    out: &mut Vec<u8>,
    number: u32,
    item: &M,
    spare: &mut Vec<u8>,
) -> Result<(), NoMemory>
    requires { IsFieldNumber number }
    ensures { OnOk result (HasAppended out.old.items out.new.items
        (bytes_of_fields (content_fields number (bytes_of M.form item.now)))
        (Fits M.form item.now × (length (bytes_of M.form item.now) < 2 ^ 64))) }
{
    let mut nested = Vec::new(alloc);
    replace_content(alloc, spare, item, &mut nested)?;
    write_content(out, number, spare.as_slice())
}
