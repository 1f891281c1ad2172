//! What holds of the grammar of traces, apart from any code.

ghost use Rattle.std.specs.Prelude.{◌≡◌, ℕ, ◌<◌, List, Option, None, slice_index};
ghost use Rattle.el_base.specs.declared.events.Event.{Event};
ghost use Rattle.el_base.specs.declared.config.Config.{Config};
ghost use Rattle.el_base.specs.declared.outcomes.Outcome.{Outcome};
ghost use Rattle.trace_file.specs.Faults.{trace_fault};
ghost use Rattle.trace_file.specs.Spelling.{spelling, IsTrace};

/// The grammar is exact: each string of bytes either is the spelling of one trace, in one version, and of no
/// other, or has a first fault, and never both.
pub fn grammar()
    ensures one_spelling { (c d : Config) (es fs : List Event) (os ps : Option (List Outcome)) →
        IsTrace c es os → IsTrace d fs ps → spelling c es os ≡ spelling d fs ps → (c ≡ d) × (es ≡ fs) × (os ≡ ps) }
    ensures a_spelling_has_no_fault { (c : Config) (es : List Event) (os : Option (List Outcome)) →
        IsTrace c es os → trace_fault (spelling c es os) ≡ None }
    ensures what_has_no_fault_is_a_spelling { (file : List ℕ) → ((i : ℕ) → slice_index file i < 256) → trace_fault file ≡ None →
        ((c : Config) × (es : List Event) × (os : Option (List Outcome)) × IsTrace c es os × (file ≡ spelling c es os)) }
{}
