//! Profiles in the format of profile.proto: the messages, what makes them valid, and how they are read and written.
//!
//! `specs/` has the definitions that the contracts speak of.
#![tactic(auto)]

mod encoding;
mod faults;
mod ids;
mod indices;
pub mod laws;
mod location_lists;
mod messages;
mod near_table;
mod numbers;
mod profile;
mod reading;
mod sample_iter;
mod samples;
mod tables;
mod text;
mod validity;
mod writing;
mod written_samples;

pub use basics::Items;
pub use faults::{ProfileFault, Refused};
pub use messages::{Draft, Function, Label, Line, Location, Mapping, Sample, ValueType};
pub use near_table::{IdRange, NearTable};
pub use pprof_wire::{NoMemory, WireFault};
pub use profile::{Profile, check, decode, encode};
pub use sample_iter::SampleIter;
pub use samples::{SampleRef, Samples, SamplesByList};
pub use text::Text;
pub use written_samples::{WrittenSamples, encode_around};
