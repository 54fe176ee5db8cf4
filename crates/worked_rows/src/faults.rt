//! Faults that no input makes: how they are printed, and how the program ends by them.

use flame_program::{Outcome, Status, ToolFault};
use library_steps::{Made, Words, Wrong};
use live_report::LiveFault;
use profile_store::{
    AuditFault, BatchFault, BookFault, FoldedFault, MakeFault, NameFault, NoMemory, ProfileFault,
    PushFault, SessionFault, WorkersFault,
};

/// What calls answer that are out of memory.
fn tell_memory(made: &mut Made) {
    made.refuse(&NoMemory);
    made.refuse(&FoldedFault::NoMemory);
    made.refuse(&PushFault::NoMemory);
    made.refuse(&NameFault::NoMemory);
    made.refuse(&ProfileFault::NoMemory);
    made.refuse(&BatchFault::NoMemory);
    made.refuse(&BookFault::NoMemory);
    made.refuse(&MakeFault::NoMemory);
    made.refuse(&SessionFault::NoMemory);
    made.refuse(&WorkersFault::NoMemory);
    made.refuse(&AuditFault::NoMemory);
}

/// `faults memory`, `faults live`, `faults end`: what calls answer that are out of memory, what `live` makes of each
/// cause, and how the program ends by each fault of a store.
pub(crate) fn tell_faults(words: Words, made: &mut Made) {
    match words.word(1) {
        "memory" => tell_memory(made),
        "live" => tell_causes(made),
        "end" => tell_ends(made),
        _ => made.fail(Wrong::Command),
    }
}

/// What `live` makes of causes.
fn faults_of_causes() -> [LiveFault; 15] {
    let no_session = WorkersFault::Session {
        worker: 1,
        fault: SessionFault::AllGiven,
    };
    let no_place = WorkersFault::Session {
        worker: 0,
        fault: SessionFault::Place,
    };
    [
        LiveFault::Start,
        LiveFault::Warm,
        LiveFault::from(MakeFault::Place),
        LiveFault::from(SessionFault::Place),
        LiveFault::from(no_place),
        LiveFault::from(BookFault::Version),
        LiveFault::from(SessionFault::AllGiven),
        LiveFault::from(no_session),
        LiveFault::from(BookFault::Full { held: 2 }),
        LiveFault::from(AuditFault::Missing { entry: 1 }),
        LiveFault::from(MakeFault::NoMemory),
        LiveFault::from(SessionFault::NoMemory),
        LiveFault::from(BookFault::NoMemory),
        LiveFault::from(WorkersFault::NoMemory),
        LiveFault::from(AuditFault::NoMemory),
    ]
}

/// Adds each fault, and whether something was missing, so that the store refused nothing.
fn tell_causes(made: &mut Made) {
    for fault in faults_of_causes() {
        made.print(&fault);
        if fault.is_shortage() {
            made.add(b", a shortage");
        }
        made.push(b'\n');
    }
}

/// Each fault of a store.
const OF_A_STORE: [LiveFault; 18] = [
    LiveFault::Start,
    LiveFault::NoMemory,
    LiveFault::Make(MakeFault::Sessions),
    LiveFault::Make(MakeFault::Place),
    LiveFault::Session(SessionFault::AllGiven),
    LiveFault::Session(SessionFault::Place),
    LiveFault::Book(BookFault::Session),
    LiveFault::Book(BookFault::Turn { held: 1 }),
    LiveFault::Book(BookFault::Full { held: 2 }),
    LiveFault::Book(BookFault::Heavy { value: 0, held: 3 }),
    LiveFault::Book(BookFault::Width { held: 4 }),
    LiveFault::Book(BookFault::Version),
    LiveFault::Audit(AuditFault::TwoLogs { session: 0 }),
    LiveFault::Audit(AuditFault::Stranger {
        session: 0,
        index: 1,
    }),
    LiveFault::Audit(AuditFault::Order {
        session: 1,
        index: 2,
    }),
    LiveFault::Audit(AuditFault::Missing { entry: 1 }),
    LiveFault::Audit(AuditFault::WrongAnswer {
        session: 1,
        index: 2,
    }),
    LiveFault::Warm,
];

/// Adds the exit status of each fault, and what the program says.
fn tell_ends(made: &mut Made) {
    for fault in OF_A_STORE {
        let status = Status::of(Outcome::Fault(ToolFault::Live(fault)));
        made.print(&format_args!("! {} {}", status.code, status.cause));
    }
}
