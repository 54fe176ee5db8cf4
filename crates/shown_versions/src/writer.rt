//! The writer of versions.

ghost use Rattle.std.specs.Prelude.{◌≡◌, ◌∷◌, ◌++◌, ◌<◌, ◌^◌, [], drop, IfOk};
ghost use mathlib.Core.List.{IsPrefix};
ghost use Rattle.left_right.specs.Sides.{view as known};
ghost use Rattle.shown_versions.specs.Views.{IsOf, knower, listed};

use crate::name::StoreName;
use crate::reader::VersionReader;
use crate::version::Version;
use crate::version_rule::{Notes, Published, Sees, View};
use core::mem::replace_with;
use left_right::writer::Writer;
use std::alloc::{AllocError, Global};
use std::marker::PhantomData;
use std::sync::Wait;

/// The writer of a store's versions. It isn't `Drop`: `take` ends it.
pub type VersionWriter = Writer<Version, Version, View, Published>;

/// A writer that shows a version, for so many readers.
///
/// # Errors
///
/// `AllocError` where memory ran out.
pub fn new_writer(
    alloc: Global,
    first: Version,
    readers: usize,
) -> Result<VersionWriter, AllocError>
    requires { (0 < readers) × (readers < 2 ^ 32) }
    ensures shown { IfOk result (λ writer. writer.desk.shown.value ≡ first) }
    ensures listed { IfOk result (λ writer. listed (known writer.desk.place) ≡ []) }
{
    let second = first.share()?;
    Writer::new(alloc, first, second, readers)
}

// Lays the version that is shown before the writer once more. False where there is no memory.
fn append_shown(writer: &mut VersionWriter) -> bool
    ensures { writer.new.desk ≡ writer.old.desk }
{
    match writer.published().share() {
        Ok(version) => writer.append(version).is_ok(),
        Err(_) => false,
    }
}

/// How many versions are laid before the writer for their room. The list gets eight places by them: for these five, for
/// the version that shows them, and for the next. Later there are at most two at a time.
const FOR_ROOM: u32 = 5;

/// Gives the writer's list of versions its room, so that it refuses no later version. False where memory ran out.
pub fn make_room(writer: &mut VersionWriter) -> bool
    ensures { writer.new.desk ≡ writer.old.desk }
{
    for _ in 0..FOR_ROOM {
        if !append_shown(writer) {
            return false;
        }
    }
    true
}

/// Lays a version before the writer, as often as it takes: there is room, so the first time is enough.
fn append<R: Wait>(rt: &R, writer: VersionWriter, version: Version) -> VersionWriter
    ensures desk { result.desk ≡ writer.desk }
    ensures pending { drop result.behind result.log.items ≡ drop writer.behind writer.log.items ++ version ∷ [] }
{
    let mut writer = writer;
    let mut version = version;
    for _ in rt.forever() {
        match writer.append(version) {
            Ok(()) => return writer,
            Err(back) => version = back,
        }
    }
    unreachable!()
}

/// Shows readers a version, as often as it takes: it is refused only where a tree has as many owners as it can have.
fn show<R: Wait>(rt: &R, writer: VersionWriter, version: Version) -> VersionWriter
    requires history { version.seen.book ≡ writer.desk.shown.value.seen.book }
    requires width { version.width ≡ writer.desk.shown.value.width }
    requires more { IsPrefix writer.desk.shown.value.seen.log version.seen.log }
    ensures shown { result.desk.shown.value ≡ version }
    ensures knows { known result.desk.place ≡ knower result.desk.shown.value }
{
    let mut writer = append(rt, writer, version);
    for _ in rt.forever() {
        match writer.publish_as::<Sees, R>(rt) {
            (shown, Ok(())) => return shown,
            (same, Err(_)) => writer = same,
        }
    }
    unreachable!()
}

/// The publish step: shows readers a version in place of the one before, of which it has all changes. Waits for readers
/// that are about to leave an earlier one.
pub fn publish<R: Wait>(rt: &R, writer: &mut VersionWriter, version: Version)
    requires history { version.seen.book ≡ writer.old.desk.shown.value.seen.book }
    requires width { version.width ≡ writer.old.desk.shown.value.width }
    requires more { IsPrefix writer.old.desk.shown.value.seen.log version.seen.log }
    ensures shown { writer.new.desk.shown.value ≡ version }
    ensures knows { known writer.new.desk.place ≡ knower writer.new.desk.shown.value }
{
    replace_with(
        writer,
        version,
        |writer, version| (show(rt, writer, version), ()),
    );
}

/// A reader that knows what the writer knows: which history the versions are of, and how wide rows are.
///
/// # Errors
///
/// `AllocError` where all places for readers are taken.
pub fn new_reader<N: StoreName>(writer: &mut VersionWriter) -> Result<VersionReader<N>, AllocError>
    requires { IsOf (known writer.old.desk.place) N.history N.width }
    ensures shown { writer.new.desk.shown ≡ writer.old.desk.shown }
    ensures knows { known writer.new.desk.place ≡ known writer.old.desk.place }
{
    let mut reader = writer.factory().reader()?;
    let note = writer.tell::<Notes>();
    reader.learn::<Notes>(note);
    Ok(VersionReader {
        reader,
        of: PhantomData,
    })
}
