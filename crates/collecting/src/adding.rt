//! What one thread adds to windows.

ghost use Rattle.std.specs.Prelude.{◌≡◌, ◌+◌, ◌≤◌, [], IfOk, IfSome, MatchOption, Some, length};
ghost use Rattle.std.specs.Arc.{arc_value};
ghost use Rattle.collecting.specs.Added.{GoesOn, HasAdded, IsBatchOf};

use crate::held_text::Text;
use crate::profile::{Unread, read_profile};
use crate::window::{EarlyEnd, Window};
use collect_sources::{Content, Lines, Messages, Origin, Piece};
use crossbeam_channel::Receiver;
use profile_store::{AddedLines, Batch, BookFault, FoldedFault, Hashing, LineSums, NoMemory};
use std::alloc::Global;
use std::mem;
use std::sync::{Arc, Wait};
use std::time::{Clock, Duration};
use store_window::Source;

/// How many bytes of stack texts all adders together gather, where so many come in time.
const MOST: usize = 268_435_456;

/// For how many milliseconds an adder gathers lines before it adds them.
const GATHER: u64 = 500;

/// How many milliseconds an adder waits for a piece before it looks whether another has ended the window.
const PAUSE: u64 = 50;

/// What an adder has to tell of a window.
#[derive(Drop)]
pub(crate) struct Told {
    /// The origins with rows in the window.
    pub(crate) added: Vec<Arc<Origin>>,
    /// The origins that ended in it, without a fault.
    pub(crate) read: Vec<Arc<Origin>>,
}

/// Adds to one window after the other what some sources bring, each source's in its order.
#[derive(Drop)]
pub(crate) struct Adder<'a> {
    alloc: Global,
    messages: &'a Messages,
    hashing: Hashing,
    /// The name of the sample type that is taken of profiles.
    value: Option<&'a str>,
    pieces: Receiver<Piece>,
    /// How many bytes of stack texts are gathered at most, but for one piece.
    most: usize,
    /// What was received and isn't in a window yet, in this order.
    refused: Option<Arc<Batch>>,
    sums: LineSums,
    text: Option<Text>,
    next: Option<Piece>,
    /// Nothing more comes.
    has_ended: bool,
    window: Option<Arc<Window>>,
    /// The origins with rows in the last window.
    added: Vec<Arc<Origin>>,
    /// The origins that ended in it, without a fault.
    read: Vec<Arc<Origin>>,
}

impl<'a> Adder<'a> {
    pub(crate) fn new(
        alloc: Global,
        messages: &'a Messages,
        hashing: Hashing,
        value: Option<&'a str>,
        pieces: Receiver<Piece>,
        adders: usize,
    ) -> Adder<'a> {
        Adder {
            alloc,
            messages,
            hashing,
            value,
            pieces,
            most: MOST.checked_div(adders).unwrap_or(0),
            refused: None,
            sums: LineSums::new(alloc, hashing),
            text: None,
            next: None,
            has_ended: false,
            window: None,
            added: Vec::new(alloc),
            read: Vec::new(alloc),
        }
    }

    /// Whether everything was added.
    pub(crate) fn has_ended(&self) -> bool {
        self.has_ended
    }

    /// What it has to tell of the last window. What isn't in it yet is in the next one.
    pub(crate) fn take_told(&mut self) -> Told {
        let told = Told {
            added: mem::replace(&mut self.added, Vec::new(self.alloc)),
            read: mem::replace(&mut self.read, Vec::new(self.alloc)),
        };
        if let (true, Some(origin)) = (self.has_waiting(), told.added.last()) {
            if self.note(origin).is_err() {
                origin.lose();
            }
        }
        told
    }

    /// Whether rows wait that were counted as those of the last window.
    fn has_waiting(&self) -> bool {
        self.refused.is_some() || !self.sums.is_empty()
    }

    /// Takes part in a window.
    pub(crate) fn begin(&mut self, window: Arc<Window>) {
        self.window = Some(window);
    }

    /// Keeps a batch for the next window.
    fn keep(&mut self, batch: Arc<Batch>)
        ensures { self.new.refused ≡ Some batch }
    {
        self.refused = Some(batch);
    }

    /// The window that it takes part in.
    fn window(&self) -> Option<Arc<Window>> {
        Arc::try_clone(self.window.as_ref()?).ok()
    }

    /// The batch that is added next; nothing where nothing came for a while.
    fn try_next<R: Wait + Clock>(&mut self, rt: &R, window: &Window) -> Option<Arc<Batch>> {
        if let Some(batch) = self.refused.take() {
            return Some(batch);
        }
        if !self.sums.is_empty() {
            return self.give(rt, window);
        }
        if let Some(text) = self.text.take() {
            self.gather(rt, window, text);
            return self.give(rt, window);
        }
        match self.next.take() {
            Some(piece) => self.take_piece(rt, window, piece),
            None => {
                self.next = self.wait(rt, window);
                None
            }
        }
    }

    /// The next piece, where one comes soon and before the window is over.
    fn wait<R: Wait + Clock>(&mut self, rt: &R, window: &Window) -> Option<Piece> {
        let until = window.soon(rt, Duration::from_millis(PAUSE))?;
        match self.pieces.recv_deadline(rt, until) {
            Ok(piece) => Some(piece),
            Err(error) => {
                self.has_ended = error.is_disconnected();
                None
            }
        }
    }

    /// Begins with a piece.
    fn take_piece<R: Wait + Clock>(
        &mut self,
        rt: &R,
        window: &Window,
        piece: Piece,
    ) -> Option<Arc<Batch>> {
        let Piece { origin, content } = piece;
        if origin.is_over() {
            return None;
        }
        match content {
            Content::Lines(lines) => {
                self.gather(rt, window, Text::new(origin, lines));
                self.give(rt, window)
            }
            Content::Profile(bytes) => self.take_profile(rt, window, origin, bytes),
            Content::End => {
                self.end(origin);
                None
            }
        }
    }

    /// Notes that an origin ended.
    fn end(&mut self, origin: Arc<Origin>) {
        if self.read.reserve(1).is_err() {
            self.next = Some(Piece {
                origin,
                content: Content::End,
            });
            return;
        }
        let _ = self.read.push(origin);
    }

    /// Adds lines to the sums, with those of the same origin that come soon, if the window has room for many: lines of
    /// one stack are one row, so many at once cost less.
    fn gather<R: Wait + Clock>(&mut self, rt: &R, window: &Window, text: Text) {
        let Ok(origin) = Arc::try_clone(text.origin()) else {
            self.stop(rt, window, text);
            return;
        };
        self.add_text(rt, window, text);
        let Some(until) = window.soon(rt, Duration::from_millis(GATHER)) else {
            return;
        };
        for _ in rt.forever() {
            if origin.is_over() || self.is_full(rt, window) {
                break;
            }
            match self.pieces.recv_deadline(rt, until) {
                Ok(piece) => self.add_piece(rt, window, &origin, piece),
                Err(_) => break,
            }
        }
    }

    /// Whether no more lines are gathered.
    fn is_full<R: Wait + Clock>(&self, rt: &R, window: &Window) -> bool {
        let is_waiting = self.text.is_some() || self.next.is_some();
        let has_many = self.sums.bytes() >= self.most;
        is_waiting || has_many || window.is_nearly_full(rt) || window.is_over(rt)
    }

    /// Adds the lines of a piece to the sums if it is of this origin. Else it is the next one.
    fn add_piece<R: Wait>(&mut self, rt: &R, window: &Window, origin: &Origin, piece: Piece) {
        let Piece {
            origin: from,
            content,
        } = piece;
        match content {
            Content::Lines(lines) if from.name() == origin.name() => {
                self.add_text(rt, window, Text::new(from, lines));
            }
            content => {
                let origin = from;
                self.next = Some(Piece { origin, content });
            }
        }
    }

    /// Adds a text's next lines to the sums, and notes of which origin they are. What follows them stays.
    fn add_text<R: Wait>(&mut self, rt: &R, window: &Window, text: Text) {
        match self.note(text.origin()) {
            Ok(()) => self.sum_lines(rt, window, text),
            Err(_) => self.stop(rt, window, text),
        }
    }

    /// Adds as many of a text's next lines to the sums as the window has room for. What follows them stays.
    fn sum_lines<R: Wait>(&mut self, rt: &R, window: &Window, text: Text)
        ensures { HasAdded text self.old.sums self.new.sums self.new.text }
    {
        let lines = window.first_rows(rt, text.rest());
        let AddedLines { len, fault } = self.sums.add(lines);
        self.pass(rt, window, text, len, fault);
    }

    /// Ends a window since memory ran out before a text was added.
    fn stop<R: Wait>(&mut self, rt: &R, window: &Window, text: Text)
        ensures { self.new ≡ record self.old { text = Some text } }
    {
        self.text = Some(text);
        window.end_early(rt, EarlyEnd::NoMemory);
    }

    /// Notes that an origin has rows in the window.
    fn note(&mut self, origin: &Arc<Origin>) -> Result<(), NoMemory> {
        let last = self.added.last();
        if last.is_none_or(|last| last.name() != origin.name()) {
            self.added.push(Arc::try_clone(origin)?)?;
        }
        Ok(())
    }

    /// Goes on after lines that were added, up to a fault where there is one.
    fn pass<R: Wait>(
        &mut self,
        rt: &R,
        window: &Window,
        text: Text,
        len: usize,
        fault: Option<FoldedFault>,
    )
        requires { text.from + len ≤ length text.bytes.items }
        ensures goes_on { GoesOn text len fault self.new.text }
        ensures sums { self.new.sums ≡ self.old.sums }
    {
        let mut text = text;
        let before = text.skip(len);
        match fault {
            None if text.rest().is_empty() => {
                text.let_go(rt);
                self.text = None;
            }
            // Together with the lines before, the next is too heavy: it comes after these are added.
            None | Some(FoldedFault::Heavy { .. }) => self.text = Some(text),
            Some(FoldedFault::NoMemory) => self.stop(rt, window, text),
            Some(fault) => {
                self.text = None;
                self.end_faulty(text.origin(), moved(fault, before));
            }
        }
    }

    /// Gives the rows that were gathered, as one batch.
    fn give<R: Wait>(&mut self, rt: &R, window: &Window) -> Option<Arc<Batch>>
        ensures { MatchOption result (self.new.sums ≡ self.old.sums)
            (λ batch. IsBatchOf self.old.sums (arc_value batch) × (self.new.sums ≡ [])) }
    {
        if self.sums.is_empty() {
            return None;
        }
        match batch_of(self.alloc, &self.sums) {
            Ok(batch) => {
                self.sums = LineSums::new(self.alloc, self.hashing);
                Some(batch)
            }
            Err(_) => {
                window.end_early(rt, EarlyEnd::NoMemory);
                None
            }
        }
    }

    /// Ends an origin at a fault.
    fn end_faulty(&self, origin: &Origin, fault: FoldedFault) {
        origin.end();
        let told = format_args!("{fault}, and nothing after it is read");
        self.messages.blame(origin.name(), &told);
    }

    /// The rows of a profile.
    fn take_profile<R: Wait>(
        &mut self,
        rt: &R,
        window: &Window,
        origin: Arc<Origin>,
        bytes: Vec<u8>,
    ) -> Option<Arc<Batch>> {
        match read_profile(self.alloc, self.hashing, self.value, bytes.as_slice()) {
            Ok(batch) if self.note(&origin).is_ok() => {
                let _ = window.take_rows(rt, batch.len() as u64);
                Some(batch)
            }
            Ok(_) | Err(Unread::NoMemory) => {
                let content = Content::Profile(bytes);
                self.next = Some(Piece { origin, content });
                window.end_early(rt, EarlyEnd::NoMemory);
                None
            }
            Err(fault) => {
                origin.end();
                self.messages.blame(origin.name(), &fault);
                None
            }
        }
    }
}

impl Source for Adder<'_> {
    fn next_batch<R: Wait + Clock>(&mut self, rt: &R) -> Option<Arc<Batch>> {
        let window = self.window()?;
        for _ in rt.forever() {
            if self.has_ended || window.is_over(rt) {
                break;
            }
            if let Some(batch) = self.try_next(rt, &window) {
                return Some(batch);
            }
        }
        None
    }

    fn take_back<R: Wait>(&mut self, rt: &R, batch: Arc<Batch>, fault: BookFault) {
        if let Some(window) = &self.window {
            window.end_early(rt, EarlyEnd::of(fault));
        }
        self.keep(batch);
    }

    fn leave(&mut self) {
        if let Some(window) = &self.window {
            window.leave();
        }
    }
}

/// The rows of sums, as a batch.
fn batch_of(alloc: Global, sums: &LineSums) -> Result<Arc<Batch>, NoMemory>
    ensures { IfOk result (λ batch. IsBatchOf sums.now (arc_value batch)) }
{
    Ok(Arc::new(alloc, Batch::single(alloc, sums.stacks()?))?)
}

/// A fault so many lines later.
fn moved(fault: FoldedFault, lines: u64) -> FoldedFault {
    match fault {
        FoldedFault::NotUtf8 { line } => FoldedFault::NotUtf8 {
            line: line.saturating_add(lines),
        },
        FoldedFault::NoCount { line } => FoldedFault::NoCount {
            line: line.saturating_add(lines),
        },
        FoldedFault::Count { line } => FoldedFault::Count {
            line: line.saturating_add(lines),
        },
        FoldedFault::Depth { line } => FoldedFault::Depth {
            line: line.saturating_add(lines),
        },
        FoldedFault::Heavy { line } => FoldedFault::Heavy {
            line: line.saturating_add(lines),
        },
        FoldedFault::NoMemory => FoldedFault::NoMemory,
    }
}
