//! Laws of profiles. Each function does nothing: what it ensures is the law.

ghost use Rattle.std.specs.Prelude.{◌≡◌, ◌↔◌, ℕ, List};
ghost use Rattle.pprof_profile.specs.declared.messages.Draft.{Draft};
ghost use Rattle.pprof_profile.specs.declared.faults.ProfileFault.{ProfileFault};
ghost use Rattle.pprof_profile.specs.Valid.{IsValidDraft};
ghost use Rattle.pprof_profile.specs.Profiles.{BeginsAsGzip, SpellsDraft, IsProfile, IsProfileFault};
ghost use Rattle.pprof_profile.specs.ByFields.{HasFieldsOf};
ghost use Rattle.pprof_profile.specs.Canonical.{canonical_bytes_of, FitsDraft};

/// Bytes are at most one profile.
pub fn one_profile()
    ensures { (bytes : List ℕ) → (one other : Draft)
        → IsProfile bytes one → IsProfile bytes other → one ≡ other }
{}

/// Bytes that are a profile have no fault, and others have at most one.
pub fn one_profile_or_fault()
    ensures profile { (bytes : List ℕ) → (draft : Draft) → (fault : ProfileFault)
        → IsProfile bytes draft → IsProfileFault bytes fault → ⊥ }
    ensures fault { (bytes : List ℕ) → (one other : ProfileFault)
        → IsProfileFault bytes one → IsProfileFault bytes other → one ≡ other }
{}

/// Bytes that begin as those of gzip spell no message.
pub fn gzip_spells_no_draft()
    ensures { (bytes : List ℕ) → (draft : Draft) → SpellsDraft bytes draft → BeginsAsGzip bytes → ⊥ }
{}

/// The canonical bytes of a draft spell it: a draft of numbers of 64 bits, of texts in UTF-8 and of lengths below 2^64.
pub fn canonical_bytes_spell_the_draft()
    ensures draft { (draft : Draft) → FitsDraft draft → SpellsDraft (canonical_bytes_of draft) draft }
    ensures profile { (draft : Draft) → FitsDraft draft → IsValidDraft draft
        → IsProfile (canonical_bytes_of draft) draft }
{}

/// What a spelled draft is, said of the whole list of its fields and not field by field: a single number is that of the
/// last field of its number, or of 0 where there is none; repeated numbers, texts and messages are those of all the
/// fields of their number, in order; `period_type` is the message of all the fields that its occurrences have, one
/// after the other.
pub fn draft_by_its_fields()
    ensures { (bytes : List ℕ) → (draft : Draft) → SpellsDraft bytes draft ↔ HasFieldsOf bytes draft }
{}
