//! The wire format of Protocol Buffers: varints, fields and packed numbers, read in place and written.
//!
//! `specs/` has the definitions that the contracts speak of, and `laws` what is proved of the definitions.
#![tactic(auto)]

mod faults;
mod fields;
pub mod laws;
mod numbers;
mod packing;
mod parts;
mod values;
mod varints;
mod writing;

pub use basics::NoMemory;
pub use faults::WireFault;
pub use fields::Fields;
pub use numbers::packed;
pub use packing::Packed;
pub use values::{Field, Value};
pub use varints::read_varint;
pub use writing::{write_field, write_varint};
