//! The library under one name: what a service names, from the bytes of an input to a store of many threads and its
//! audit. Nothing is made here; each call stands in the crate that its page of contracts names.
//!
//! - Reading: [`read_folded`], [`decode`] and [`batch_of`] make a [`Batch`] of rows out of folded text and of profiles.
//!   [`take_lines`] hands a text's lines to a [`LineTaker`] of the service's own, which makes of them what it likes.
//! - Writing: [`write_folded`], [`encode`], and [`encode_around`] for samples that are written one by one.
//! - One thread: a [`Grower`] adds batches to a [`CallTree`], and [`report`] answers a [`Query`] over it.
//! - Many threads: a [`Store`] gives each thread a [`Session`], which adds batches, resets, and reports without a lock.
//! - Audit: [`audit`] says whether what sessions were told is one history, which [`laws::logs_add_up`] turns into sums.
//!
//! # What is in it
//!
//! Everything public of `profile_rows`, `folded_text`, `profile_samples`, `call_tree`, `flame_report`, `op_book`,
//! `log_audit` and `live_store`; of `pprof_profile` everything but `IdRange` and `NearTable`.
//!
//! The layers below these aren't in it: `basics`, the wire format (`pprof_wire`), the pages of trees (`shared_pages`),
//! and the history of a store with its versions (`shown_versions`). Of them it has only what its calls take or give:
//! [`Items`], [`NoMemory`], [`WireFault`] and [`StoreName`]. Of `name_counts` it has [`KnownNames`] and
//! [`kept_totals`]. Nor is the program in it: `flame_words`, `flame_answers`, `live_report` and `flame_program`.
#![tactic(auto)]

pub mod laws;

pub use call_tree::CallTree;
pub use call_tree::Grower;
pub use call_tree::Plan;
pub use flame_report::Answer;
pub use flame_report::Columns;
pub use flame_report::Flame;
pub use flame_report::Items;
pub use flame_report::Kind;
pub use flame_report::Label;
pub use flame_report::MAX_COLUMNS;
pub use flame_report::Query;
pub use flame_report::Rank;
pub use flame_report::Rect;
pub use flame_report::Top;
pub use flame_report::TopRow;
pub use flame_report::flame_json;
pub use flame_report::report;
pub use flame_report::report_in_order;
pub use flame_report::report_of;
pub use flame_report::report_of_stacks;
pub use flame_report::top_list;
pub use flame_report::top_text;
pub use folded_text::LineTaker;
pub use folded_text::read_frames;
pub use folded_text::take_lines;
pub use live_store::Blank;
pub use live_store::Cause;
pub use live_store::FinishedWorker;
pub use live_store::Gate;
pub use live_store::MAX_SESSIONS;
pub use live_store::MakeFault;
pub use live_store::Placed;
pub use live_store::Session;
pub use live_store::SessionFault;
pub use live_store::Stop;
pub use live_store::Store;
pub use live_store::StoreName;
pub use live_store::Told;
pub use live_store::Ungated;
pub use live_store::Window;
pub use live_store::WorkersFault;
pub use live_store::run_workers;
pub use log_audit::AuditFault;
pub use log_audit::Run;
pub use log_audit::RunStep;
pub use log_audit::audit;
pub use log_audit::audit_with;
pub use op_book::Book;
pub use op_book::BookFault;
pub use op_book::Change;
pub use op_book::Entry;
pub use op_book::Journal;
pub use op_book::Op;
pub use op_book::Ready;
pub use op_book::Receipt;
pub use op_book::Refused as RefusedChange;
pub use op_book::Reply;
pub use op_book::SessionLog;
pub use pprof_profile::Draft;
pub use pprof_profile::Function;
pub use pprof_profile::Label as SampleLabel;
pub use pprof_profile::Line;
pub use pprof_profile::Location;
pub use pprof_profile::Mapping;
pub use pprof_profile::Profile;
pub use pprof_profile::ProfileFault;
pub use pprof_profile::Refused as RefusedDraft;
pub use pprof_profile::Sample;
pub use pprof_profile::SampleIter;
pub use pprof_profile::SampleRef;
pub use pprof_profile::Samples;
pub use pprof_profile::SamplesByList;
pub use pprof_profile::Text;
pub use pprof_profile::ValueType;
pub use pprof_profile::WireFault;
pub use pprof_profile::WrittenSamples;
pub use pprof_profile::check;
pub use pprof_profile::decode;
pub use pprof_profile::encode;
pub use pprof_profile::encode_around;
pub use profile_rows::AsName;
pub use profile_rows::StackText;
pub use profile_rows::aggregate_stacks;
pub use profile_rows::push_joined;
pub use stack_text::AddedLines;
pub use stack_text::Batch;
pub use stack_text::BatchFault;
pub use stack_text::FoldedFault;
pub use stack_text::FrameTotal;
pub use stack_text::FrameTotals;
pub use stack_text::HasFrames;
pub use stack_text::Hashing;
pub use stack_text::KnownNames;
pub use stack_text::LineSums;
pub use stack_text::MAX_DEPTH;
pub use stack_text::MAX_TOTAL;
pub use stack_text::MAX_WIDTH;
pub use stack_text::Name;
pub use stack_text::NameFault;
pub use stack_text::NoMemory;
pub use stack_text::OrderedRows;
pub use stack_text::OwnedRow;
pub use stack_text::PushFault;
pub use stack_text::Refused;
pub use stack_text::Row;
pub use stack_text::Rows;
pub use stack_text::Stack;
pub use stack_text::ValueChoice;
pub use stack_text::ValueUnit;
pub use stack_text::WeightedStack;
pub use stack_text::WeightedStacks;
pub use stack_text::Weights;
pub use stack_text::Width;
pub use stack_text::aggregate;
pub use stack_text::batch_of;
pub use stack_text::batch_of_with;
pub use stack_text::export_folded;
pub use stack_text::first_heavy;
pub use stack_text::folded_totals;
pub use stack_text::keeps;
pub use stack_text::kept_totals;
pub use stack_text::merge_lines;
pub use stack_text::merge_samples;
pub use stack_text::profile_of;
pub use stack_text::read_folded;
pub use stack_text::read_folded_with;
pub use stack_text::read_ordered;
pub use stack_text::sample_totals;
pub use stack_text::unfold;
pub use stack_text::write_folded;
pub use stack_text::write_ordered;
pub use stack_text::write_stacks;
