//! The samples of a profile, whose parts stand together: a profile has many.

ghost use Rattle.std.specs.Prelude.{◌≡◌, ◌≢◌, ◌<◌, ◌^◌, ◌++◌, ◌∷◌, [], Err, List, Ok, Some, length, slice_get};
ghost use Rattle.std.specs.Prelude.{MatchResult};
ghost use Rattle.pprof_wire.specs.Fields.{value_of};
ghost use Rattle.pprof_profile.specs.declared.faults.ProfileFault.{ProfileFault};
ghost use Rattle.pprof_profile.specs.Forms.{table_of};
ghost use Rattle.pprof_profile.specs.LocationLists.{IsListed, IsSpelling, begun_ids, list_at};
ghost use Rattle.pprof_profile.specs.Messages.{no_sample, sample_form};
ghost use Rattle.pprof_profile.specs.Reading.{AddsMessage, IsAppended, IsFirstFieldFault, IsPackedFault, IsReadSoFar};
ghost use Rattle.pprof_profile.specs.Reading.{KeepsRule};
ghost use Rattle.pprof_profile.specs.SampleLists.{with_ids_before};
ghost use Rattle.pprof_profile.specs.declared.messages.Sample.{Sample};

use crate::faults::ProfileFault;
use crate::location_lists::LocationLists;
use crate::messages::{Label, Sample};
use crate::reading::{Message, push_packed, take_fields};
use crate::sample_iter::SampleIter;
use basics::{Items, Span, append};
use pprof_wire::{Field, Fields, NoMemory, Value, WireFault};
use std::alloc::{AllocError, Global};
use std::fmt::{self, Debug, Formatter, Write};
use std::marker::Model;

/// Where the parts of a sample stand: its locations' ids are the list of a number.
#[derive(Clone, Copy, Debug)]
pub(crate) struct SampleSpans {
    pub list: u32,
    pub values: Span,
    pub labels: Span,
}

/// Where the parts of the sample at an index stand.
#[inline(always)]
fn spans_at(spans: &[SampleSpans], index: usize) -> SampleSpans
    requires { index < length spans.now }
    ensures { slice_get spans.now index ≡ Some result }
{
    spans[index]
}

/// A sample that is lent. A contract sees the sample.
#[derive(Debug, Drop)]
pub struct SampleRef<'a> {
    location_ids: &'a [u64],
    values: &'a [i64],
    labels: &'a [Label],
}

impl<'a> Model for SampleRef<'a> {
    ghost use Rattle.pprof_profile.specs.declared.messages.Sample.{Sample};

    ghost Value = { Sample };

    ghost view = { λ sample. record {
      location_ids = sample.location_ids.now;
      values = sample.values.now;
      labels = sample.labels.now;
    } };
}

impl<'a> SampleRef<'a> {
    /// The locations' ids, the leaf first.
    pub fn location_ids(&self) -> &'a [u64]
        ensures { result.now ≡ self.now.location_ids }
    {
        self.location_ids
    }

    /// A value for each of the profile's sample types.
    pub fn values(&self) -> &'a [i64]
        ensures { result.now ≡ self.now.values }
    {
        self.values
    }

    /// Further context.
    pub fn labels(&self) -> &'a [Label]
        ensures { result.now ≡ self.now.labels }
    {
        self.labels
    }
}

/// Samples in order with the numbers of their lists of location ids: those of one number have the same list. A contract
/// sees the samples and the lists.
#[derive(Drop)]
pub struct SamplesByList<'a> {
    spans: &'a [SampleSpans],
    locations: &'a LocationLists,
    values: &'a [i64],
    labels: &'a [Label],
}

impl<'a> Model for SamplesByList<'a> {
    ghost use Rattle.std.specs.Prelude.{All, map};
    ghost use Rattle.pprof_profile.specs.SampleLists.{AreWithin, ListedSamples, sample_at};

    ghost Value = { ListedSamples };

    ghost view = { λ listed. record {
      samples = map (sample_at listed.locations.now listed.values.now listed.labels.now) listed.spans.now;
      lists = listed.locations.now;
    } };

    ghost invariant = { λ listed.
        All (AreWithin listed.locations.now listed.values.now listed.labels.now) listed.spans.now };
}

impl<'a> SamplesByList<'a> {
    /// How many samples there are.
    pub fn len(&self) -> usize
        ensures { result ≡ length self.now.samples }
    {
        self.spans.len()
    }

    /// The sample at an index.
    pub fn at(&self, index: usize) -> SampleRef<'a>
        requires { index < length self.now.samples }
        ensures { slice_get self.now.samples index ≡ Some result }
    {
        let spans = spans_at(self.spans, index);
        SampleRef {
            location_ids: self.locations.at(spans.list as usize),
            values: spans.values.of(self.values),
            labels: spans.labels.of(self.labels),
        }
    }

    /// The number of the list of the sample at an index.
    #[inline(always)]
    pub fn number_at(&self, index: usize) -> u32
        requires { index < length self.now.samples }
        ensures inside { result < length self.now.lists }
        ensures list { (sample : Sample) → slice_get self.now.samples index ≡ Some sample
            → sample.location_ids ≡ list_at self.now.lists result }
    {
        spans_at(self.spans, index).list
    }

    /// How many lists there are. A list may have other numbers too, and some may be no sample's.
    pub fn list_count(&self) -> usize
        ensures { result ≡ length self.now.lists }
    {
        self.locations.len()
    }

    /// The list of a number.
    pub fn list(&self, number: usize) -> &'a [u64]
        requires { number < length self.now.lists }
        ensures { result.now ≡ list_at self.now.lists number }
    {
        self.locations.at(number)
    }
}

/// How many lists there are before it is looked at whether looking for them saves work.
const FIRST_LISTS: usize = 4096;

/// The bytes of a list, as long as looking for lists saves work: for each four lists one was found. Else none.
fn sought(packed: &[u8], lists: usize, found: u64) -> &[u8]
    ensures { 0 < length result.now → result.now ≡ packed.now }
{
    if lists < FIRST_LISTS || found >= lists as u64 / 4 {
        packed
    } else {
        &[]
    }
}

/// Samples in order: the parts of all stand together. A contract sees the samples and the lists of location ids.
#[derive(Drop)]
pub(crate) struct SampleLists {
    spans: Vec<SampleSpans>,
    locations: LocationLists,
    /// How many times a list was found by its bytes.
    found: u64,
    values: Vec<i64>,
    labels: Vec<Label>,
}

impl Model for SampleLists {
    ghost use Rattle.std.specs.Prelude.{All, map};
    ghost use Rattle.pprof_profile.specs.SampleLists.{AreWithin, ListedSamples, sample_at};

    ghost Value = { ListedSamples };

    ghost view = { λ lists. record {
      samples = map (sample_at lists.locations lists.values.items lists.labels.items) lists.spans.items;
      lists = lists.locations;
    } };

    ghost invariant = { λ lists.
        All (AreWithin lists.locations lists.values.items lists.labels.items) lists.spans.items };
}

impl SampleLists {
    /// No samples. Takes no memory.
    fn empty(alloc: Global) -> SampleLists
        ensures { result ≡ record { samples = []; lists = [] } }
    {
        SampleLists {
            spans: Vec::new(alloc),
            locations: LocationLists::empty(alloc),
            found: 0,
            values: Vec::new(alloc),
            labels: Vec::new(alloc),
        }
    }

    /// Adds a copy of a sample, whose ids stand after those of a list where it begins with one. Where memory runs out
    /// the samples are as they were.
    pub(crate) fn push(&mut self, begun: Option<u32>, sample: &Sample) -> Result<(), AllocError>
        requires { IsListed begun self.old.lists }
        ensures { MatchResult result (λ _. self.new.samples
            ≡ self.old.samples ++ with_ids_before (begun_ids self.old.lists begun) sample.now ∷ [])
            (λ _. self.new.samples ≡ self.old.samples) }
    {
        let last = self.spans.last().map(|spans| spans.list);
        let list = self
            .locations
            .number_after(begun, sample.location_ids.as_slice(), last)?;
        let values = append(&mut self.values, sample.values.as_slice())?;
        let labels = append(&mut self.labels, sample.labels.as_slice())?;
        self.spans.push(SampleSpans {
            list,
            values,
            labels,
        })?;
        Ok(())
    }

    /// The number of the list that these bytes spell, which is read into a place without ids where it isn't known. The
    /// place has none after it either.
    fn take_list(&mut self, ids: &mut Items<u64>, packed: &[u8]) -> Result<u32, ProfileFault>
        requires { ids.old ≡ [] }
        ensures taken { MatchResult result (λ number. (ids.new ≡ []) × (number < length self.new.lists)
            × IsSpelling packed.now (list_at self.new.lists number))
            (λ fault. fault ≢ ProfileFault.NoMemory → IsPackedFault packed.now fault) }
        ensures kept { self.new.samples ≡ self.old.samples }
    {
        let spelling = sought(packed, self.locations.len(), self.found);
        if let Some(number) = self.locations.find(spelling) {
            self.found = self.found.saturating_add(1);
            return Ok(number);
        }
        push_packed(ids, packed)?;
        let number = self.locations.push(ids.as_slice(), spelling)?;
        ids.clear();
        Ok(number)
    }

    /// Takes a field of a sample that is read, which has no ids yet. Where it has packed ids, these stay out of the
    /// sample, and it gives the number of their list.
    fn take_field(
        &mut self,
        alloc: Global,
        sample: &mut Sample,
        field: Field,
    ) -> Result<Option<u32>, ProfileFault>
        requires { sample.old.location_ids ≡ [] }
        ensures taken { MatchResult result (λ begun. IsListed begun self.new.lists
            × table_of sample_form sample.old field.entry.number (value_of field.entry.value)
            (Ok (with_ids_before (begun_ids self.new.lists begun) sample.new)))
            (λ fault. fault ≢ ProfileFault.NoMemory
            → table_of sample_form sample.old field.entry.number (value_of field.entry.value) (Err fault)) }
        ensures kept { self.new.samples ≡ self.old.samples }
    {
        match field.value {
            Value::Bytes(packed) if field.number == 1 => {
                Ok(Some(self.take_list(&mut sample.location_ids, packed)?))
            }
            _ => {
                sample.take(alloc, field)?;
                Ok(None)
            }
        }
    }

    /// Takes the first field of a sample that is read. Where it has packed ids, these stay out of the sample, and it
    /// gives the number of their list.
    fn take_first(
        &mut self,
        alloc: Global,
        sample: &mut Sample,
        fields: &mut Fields,
    ) -> Result<Option<u32>, ProfileFault>
        requires { sample.old ≡ no_sample }
        ensures taken { MatchResult result (λ begun. IsListed begun self.new.lists
            × IsReadSoFar (table_of sample_form) no_sample fields.old.bytes
            (with_ids_before (begun_ids self.new.lists begun) sample.new) fields.new.bytes)
            (λ fault. fault ≢ ProfileFault.NoMemory
            → IsFirstFieldFault (table_of sample_form) no_sample fields.old.bytes fault) }
        ensures kept { self.new.samples ≡ self.old.samples }
    {
        match fields.next_field() {
            Some(Ok(field)) => self.take_field(alloc, sample, field),
            Some(Err(fault)) => Err(ProfileFault::Wire(fault)),
            None => Ok(None),
        }
    }

    /// These samples, with the numbers of their lists.
    fn by_list(&self) -> SamplesByList<'_>
        ensures { result ≡ self.now }
    {
        SamplesByList {
            spans: self.spans.as_slice(),
            locations: &self.locations,
            values: self.values.as_slice(),
            labels: self.labels.as_slice(),
        }
    }
}

/// A profile's samples in order. A contract sees the list of them.
#[derive(Drop)]
pub struct Samples {
    lists: SampleLists,
    /// The sample that is read, before it is added: its memory serves for one after the other.
    spare: Sample,
}

impl Model for Samples {
    ghost use Rattle.std.specs.Prelude.{List};
    ghost use Rattle.pprof_profile.specs.declared.messages.Sample.{Sample};

    ghost Value = { List Sample };

    ghost view = { λ samples. samples.lists.samples };
}

impl Debug for Samples {
    fn fmt<W: Write>(&self, f: &mut Formatter<W>) -> Result<(), fmt::Error> {
        f.debug_list().entries(self.iter()).finish()
    }
}

impl Samples {
    /// No samples. Takes no memory.
    pub fn empty(alloc: Global) -> Samples
        ensures { result ≡ [] }
    {
        Samples {
            lists: SampleLists::empty(alloc),
            spare: Sample::empty(alloc),
        }
    }

    /// How many samples there are.
    pub fn len(&self) -> usize
        ensures { result ≡ length self.now }
    {
        self.by_list().len()
    }

    /// The sample at an index.
    pub fn at(&self, index: usize) -> SampleRef<'_>
        requires { index < length self.now }
        ensures { slice_get self.now index ≡ Some result }
    {
        self.by_list().at(index)
    }

    /// The samples with the numbers of their lists of location ids, so that what is asked of a list is asked once.
    pub fn by_list(&self) -> SamplesByList<'_>
        ensures { result.samples ≡ self.now }
    {
        self.lists.by_list()
    }

    /// The samples in order, each of them lent. Takes no memory.
    pub fn iter(&self) -> SampleIter<'_>
        ensures { result ≡ self.now }
    {
        SampleIter::new(self)
    }

    /// Adds a copy of a sample.
    ///
    /// # Errors
    ///
    /// `NoMemory`, also where all samples together would have 2^32 location ids, values or labels; the samples are then
    /// as they were.
    pub fn push(&mut self, sample: &Sample) -> Result<(), NoMemory>
        ensures { MatchResult result (λ _. self.new ≡ self.old ++ sample.now ∷ []) (λ _. self.new ≡ self.old) }
    {
        Ok(self.lists.push(None, sample)?)
    }

    /// Adds the sample that the bytes spell.
    fn read(&mut self, alloc: Global, bytes: &[u8]) -> Result<(), ProfileFault>
        ensures { MatchResult result (λ _. IsAppended (table_of sample_form) no_sample self.old bytes.now self.new)
            (λ fault. fault ≢ ProfileFault.NoMemory
            → IsFirstFieldFault (table_of sample_form) no_sample bytes.now fault) }
    {
        self.spare.clear();
        let mut fields = Fields::new(bytes);
        let begun = self.lists.take_first(alloc, &mut self.spare, &mut fields)?;
        take_fields(alloc, &mut self.spare, &mut fields)?;
        let spare = &self.spare;
        Ok(self.lists.push(begun, spare)?)
    }
}

/// Adds the sample of a field.
pub(crate) fn push_sample(
    alloc: Global,
    samples: &mut Samples,
    value: Value,
) -> Result<(), ProfileFault>
    ensures { KeepsRule (AddsMessage (table_of sample_form) no_sample samples.old (value_of value.entry)) samples.new
        result }
{
    let Value::Bytes(bytes) = value else {
        return Err(ProfileFault::Wire(WireFault::WireType));
    };
    samples.read(alloc, bytes)
}
