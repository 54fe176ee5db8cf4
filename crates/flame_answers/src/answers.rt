//! What an input answers to a request.

ghost use Rattle.std.specs.Prelude.{ℕ, ◌≡◌, List, MatchResult, IfOk, None, Option};
ghost use Rattle.flame_report.specs.declared.query.Kind.TheVariants.{Top};
ghost use Rattle.flame_answers.specs.Answers.{IsAnswerOfAll, IsExport, IsReport, answer_text};
ghost use Rattle.flame_answers.specs.Inputs.{IsChoice, IsRefusedIn};
ghost use Rattle.flame_answers.specs.Inputs.Wanted.{for_report};
ghost use Rattle.flame_words.specs.declared.request.Format.TheVariants.{Folded, Pprof};

use crate::faults::AnswerFault;
use bumpalo::Bump;
use flame_report::laws::answers_are_by_the_aggregate;
use flame_report::{
    Answer, Kind, Query, Rank, flame_json, report_in_order, report_of_stacks, top_of_lent, top_text,
};
use flame_words::{Format, Source};
use folded_text::{lent_totals, read_ordered};
use pprof_profile::{Text, decode};
use profile_rows::{Hashing, NoMemory};
use profile_samples::{ValueChoice, export_folded, lent_sample_totals, merge_samples};
use std::alloc::Global;

/// The text of a report on an input. `hashing` says how its names, stack texts and ids are hashed.
///
/// # Errors
///
/// The first fault of an input that has no rows; `NoMemory`.
pub fn report_on(
    alloc: Global,
    hashing: Hashing,
    source: &Source,
    query: &Query,
    input: &[u8],
) -> Result<Vec<u8>, AnswerFault>
    ensures { MatchResult result
        (λ text. IsReport source.now.format source.now.value query.now input.now text.items)
        (λ fault. IsRefusedIn source.now.format (for_report source.now.value) input.now fault) }
{
    match (source.format, query.kind) {
        (Format::Folded, Kind::Top { rank, count }) if query.keeps_all() => {
            folded_top(alloc, hashing, rank, count, input)
        }
        (Format::Pprof, Kind::Top { rank, count }) if query.keeps_all() => {
            profile_top(alloc, hashing, &source.value, rank, count, input)
        }
        (Format::Folded, _) => folded_answer(alloc, hashing, query, input),
        (Format::Pprof, _) => profile_answer(alloc, hashing, &source.value, query, input),
    }
}

/// The text of the top list of folded text's rows, which aren't kept for it.
fn folded_top(
    alloc: Global,
    hashing: Hashing,
    rank: Rank,
    count: u32,
    input: &[u8],
) -> Result<Vec<u8>, AnswerFault>
    ensures { (value : Option (List ℕ)) → MatchResult result
        (λ text. IsAnswerOfAll Folded value input.now (Top rank count) text.items)
        (λ fault. IsRefusedIn Folded (for_report value) input.now fault) }
{
    let arena = Bump::new(alloc);
    let totals = lent_totals(alloc, hashing, &arena, input)?;
    let top = top_of_lent(totals, rank, count)?;
    Ok(top_text(alloc, &top)?)
}

/// The text of the top list of the rows of a profile's samples, which aren't made for it.
fn profile_top(
    alloc: Global,
    hashing: Hashing,
    value: &Option<Text>,
    rank: Rank,
    count: u32,
    input: &[u8],
) -> Result<Vec<u8>, AnswerFault>
    ensures { MatchResult result
        (λ text. IsAnswerOfAll Pprof value.now input.now (Top rank count) text.items)
        (λ fault. IsRefusedIn Pprof (for_report value.now) input.now fault) }
{
    let profile = decode(alloc, input)?;
    let arena = Bump::new(alloc);
    let counted = lent_sample_totals(alloc, hashing, &arena, &profile, choice_of(value));
    drop(profile);
    let top = top_of_lent(counted?, rank, count)?;
    Ok(top_text(alloc, &top)?)
}

/// The bytes of the profile that folded text is exported as.
///
/// # Errors
///
/// The first fault of text that isn't folded text; `NoMemory`.
pub fn export(
    alloc: Global,
    hashing: Hashing,
    kind: &Text,
    unit: &Text,
    input: &[u8],
) -> Result<Vec<u8>, AnswerFault>
    ensures { MatchResult result
        (λ bytes. IsExport kind.now unit.now input.now bytes.items)
        (λ fault. IsRefusedIn Folded (for_report None) input.now fault) }
{
    let bytes = export_folded(alloc, hashing, input, kind.as_str(), unit.as_str())?;
    Ok(bytes)
}

/// The text of the answer over the rows of folded text, which are read in order.
fn folded_answer(
    alloc: Global,
    hashing: Hashing,
    query: &Query,
    input: &[u8],
) -> Result<Vec<u8>, AnswerFault>
    ensures { (value : Option (List ℕ)) → MatchResult result
        (λ text. IsReport Folded value query.now input.now text.items)
        (λ fault. IsRefusedIn Folded (for_report value) input.now fault) }
{
    let rows = read_ordered(alloc, hashing, input)?;
    let answer = report_in_order(alloc, hashing, rows, query)?;
    answers_are_by_the_aggregate();
    Ok(text_of(alloc, answer)?)
}

/// The text of the answer over rows that add up to those of a profile's samples.
fn profile_answer(
    alloc: Global,
    hashing: Hashing,
    value: &Option<Text>,
    query: &Query,
    input: &[u8],
) -> Result<Vec<u8>, AnswerFault>
    ensures { MatchResult result
        (λ text. IsReport Pprof value.now query.now input.now text.items)
        (λ fault. IsRefusedIn Pprof (for_report value.now) input.now fault) }
{
    let profile = decode(alloc, input)?;
    let merged = merge_samples(alloc, hashing, &profile, choice_of(value));
    drop(profile);
    let answer = report_of_stacks(alloc, hashing, merged?, query)?;
    answers_are_by_the_aggregate();
    Ok(text_of(alloc, answer)?)
}

/// The choice of a value.
pub(crate) fn choice_of<'a>(value: &'a Option<Text>) -> ValueChoice<'a>
    ensures { IsChoice value.entry.now result }
{
    match value {
        Some(text) => ValueChoice::Named(text.as_str()),
        None => ValueChoice::Default,
    }
}

/// The text of an answer.
fn text_of(alloc: Global, answer: Answer) -> Result<Vec<u8>, NoMemory>
    ensures { IfOk result (λ text. text.items ≡ answer_text answer) }
{
    match answer {
        Answer::Total(total) => Ok(format!(in alloc; "{total}\n")?.into_bytes()),
        Answer::Top(top) => top_text(alloc, &top),
        Answer::Flame(flame) => {
            let mut text = flame_json(alloc, &flame)?.into_bytes();
            text.push(b'\n')?;
            Ok(text)
        }
        Answer::Folded(text) => Ok(text.into_vec()),
    }
}
