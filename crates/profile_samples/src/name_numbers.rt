//! The names of a profile's frames by numbers. Equal names have one number, whether they come of one string, of two or
//! of an address, so that a sample's frames are told apart without their texts.

ghost use Rattle.std.specs.Prelude.{ℕ, ◌≡◌, ◌<◌, ◌≤◌, ◌↔◌, All, IfOk, IsTrue, List, MatchOption, [], ◌∷◌, ◌++◌, length};
ghost use Rattle.std.specs.Prelude.{map, slice_index_or};
ghost use Rattle.std.specs.Option.{option_map};
ghost use Rattle.pprof_profile.specs.Valid.{IsValidDraft, location_ids};
ghost use Rattle.profile_rows.specs.Names.{IsName};
ghost use Rattle.profile_samples.specs.Samples.{frames_of_ids, sample_stack_of};
ghost use Rattle.name_counts.specs.TextTables.{with_texts};
ghost use Rattle.profile_samples.specs.NameNumbers.{AreNumbered, address_names, frame_names, given, numbers_of};
ghost use Rattle.profile_samples.specs.NameNumbers.{numbers_of_id, once_of};

use crate::frame_lists::FrameLists;
use crate::function_numbers::FunctionNumbers;
use crate::id_index::IdIndex;
use crate::string_names::{number_with, string_numbers};
use basics::NoMemory;
use indexmap::IndexSet;
use pprof_profile::{Draft, Location, Profile};
use profile_rows::{Hashing, MAX_DEPTH, Name};
use std::alloc::Global;
use std::marker::Model;

/// The frames of a profile's locations, leaf first, by the numbers of their names. The names have those of strings, and
/// get those of addresses.
fn all_frames(
    alloc: Global,
    functions: &FunctionNumbers,
    locations: &[Location],
    names: &mut IndexSet<Name, Hashing>,
) -> Result<FrameLists, NoMemory>
    requires locations { locations.now ≡ functions.now.locations }
    requires strings { with_texts names.old.keys (given (address_names functions.now)) ≡ frame_names functions.now }
    requires each { All IsName names.old.keys }
    ensures { IfOk result (AreNumbered functions.now names.new.keys) }
{
    let mut frames = FrameLists::with_capacity(alloc, locations.len())?;
    for location in locations {
        let name = functions.address_of(alloc, location)?;
        let address = number_with(names, name)?.unwrap_or(0);
        let numbers = functions.numbers_of(alloc, location, address)?;
        frames.push(numbers.as_slice())?;
    }
    Ok(frames)
}

/// The frames of a valid profile's locations, leaf first, by the numbers of their names. There are no names yet.
fn frames_of(
    alloc: Global,
    hashing: Hashing,
    draft: &Draft,
    names: &mut IndexSet<Name, Hashing>,
) -> Result<FrameLists, NoMemory>
    requires valid { IsValidDraft draft.now }
    requires none { names.old.keys ≡ [] }
    ensures { IfOk result (AreNumbered draft.now names.new.keys) }
{
    let strings = string_numbers(alloc, draft, names)?;
    let functions = FunctionNumbers::new(alloc, hashing, draft, strings.as_slice())?;
    all_frames(alloc, &functions, draft.locations.as_slice(), names)
}

/// Where the location of each id stands.
fn location_indices(alloc: Global, hashing: Hashing, draft: &Draft) -> Result<IdIndex, NoMemory>
    ensures { IfOk result (λ indices. indices ≡ location_ids draft.now) }
{
    let locations = draft.locations.as_slice();
    let ids = locations.iter().map(|location| location.id).collect(alloc)?;
    IdIndex::new(alloc, hashing, ids)
}

/// The frames of a profile's locations by the numbers of their names, so that a sample costs a look-up for each
/// location, and the names, each of which may be shared. A contract sees the profile.
#[derive(Drop)]
pub(crate) struct NumberedFrames<'a> {
    draft: &'a Draft,
    indices: IdIndex,
    /// The numbers of each location's frames, leaf first.
    frames: FrameLists,
    /// Those numbers each once.
    once: FrameLists,
    names: IndexSet<Name, Hashing>,
}

impl<'a> Model for NumberedFrames<'a> {
    ghost use Rattle.pprof_profile.specs.declared.messages.Draft.{Draft};
    ghost use Rattle.profile_samples.specs.NameNumbers.{AreFrameNumbers};

    ghost Value = { Draft };

    ghost view = { λ numbered. numbered.draft.now };

    ghost invariant = { λ numbered.
        AreFrameNumbers numbered.draft.now numbered.indices numbered.frames numbered.once
        numbered.names.keys };
}

impl<'a> NumberedFrames<'a> {
    /// The frames of a profile's locations, and `hashing` says how names and ids are hashed.
    pub fn new(
        alloc: Global,
        hashing: Hashing,
        profile: &'a Profile,
    ) -> Result<NumberedFrames<'a>, NoMemory>
        ensures { IfOk result (λ numbered. numbered ≡ profile.now) }
    {
        let draft = profile.draft();
        let mut names = IndexSet::with_hasher(alloc, hashing);
        let frames = frames_of(alloc, hashing, draft, &mut names)?;
        let once = frames.all_once(alloc, names.len())?;
        let indices = location_indices(alloc, hashing, draft)?;
        Ok(NumberedFrames {
            draft,
            indices,
            frames,
            once,
            names,
        })
    }

    /// The names that have a number, in the order of their numbers.
    pub fn names(&self) -> &[Name]
        ensures names { result.now ≡ frame_names self.now }
        ensures each { All IsName (frame_names self.now) }
    {
        self.names.as_slice()
    }

    /// The numbers of the frames of the location that an id names, leaf first.
    #[inline(always)]
    pub fn frames_of(&self, id: u64) -> Option<&[usize]>
        ensures { option_map (λ numbers. numbers.now) result ≡ numbers_of_id self.now id }
    {
        self.frames.get(self.indices.find(id)?)
    }

    /// The numbers of the names of the location that an id names, each once.
    #[inline(always)]
    pub fn names_of(&self, id: u64) -> Option<&[usize]>
        ensures { option_map (λ names. names.now) result ≡ option_map once_of (numbers_of_id self.now id) }
    {
        self.once.get(self.indices.find(id)?)
    }

    /// Whether locations have no more frames together than a stack can hold. So few that none can have more aren't
    /// looked up.
    pub fn fit(&self, ids: &[u64]) -> bool
        ensures { IsTrue result ↔ (length (frames_of_ids self.now ids.now) ≤ MAX_DEPTH) }
    {
        self.frames.deepest().saturating_mul(ids.len()) <= MAX_DEPTH || self.fit_these(ids)
    }

    /// Whether these locations fit, by the frames of each.
    fn fit_these(&self, ids: &[u64]) -> bool
        ensures { IsTrue result ↔ (length (frames_of_ids self.now ids.now) ≤ MAX_DEPTH) }
    {
        let mut room = MAX_DEPTH;
        for id in ids {
            if let Some(frames) = self.frames_of(*id) {
                let depth = frames.len();
                if depth > room {
                    return false;
                }
                room -= depth;
            }
        }
        true
    }

    /// The number of the leaf of locations, where they have frames.
    pub fn leaf_of(&self, ids: &[u64]) -> Option<usize>
        ensures { MatchOption result (sample_stack_of self.now ids.now ≡ [])
            (λ leaf. (leaf < length (frame_names self.now)) × (callers : List (List ℕ))
            × (sample_stack_of self.now ids.now ≡ callers ++ slice_index_or (frame_names self.now) leaf [] ∷ [])) }
    {
        for id in ids {
            if let Some(frames) = self.frames_of(*id) {
                return Some(frames[0]);
            }
        }
        None
    }
}
