//! What holds of certificates, apart from any code.

ghost use Rattle.std.specs.Prelude.{◌≡◌, ℕ, ◌<◌, List, None, All, slice_index};
ghost use Rattle.chronicle.specs.Serial.{serial};
ghost use Rattle.el_base.specs.declared.entries.Entry.{Entry};
ghost use Rattle.elf_image.specs.Program.{IsProgram, Program};
ghost use Rattle.rv_flat.specs.FlatState.{FlatState, start};
ghost use Rattle.rv_flat.specs.Run.{run};
ghost use Rattle.run_check.specs.Certified.{certificate_of, IsStateOf};
ghost use Rattle.run_check.specs.Check.{CertificateHolds, IsFirst};
ghost use Rattle.run_check.specs.Content.{Content};
ghost use Rattle.run_check.specs.Faults.{certificate_fault};
ghost use Rattle.run_check.specs.declared.verdict.Difference.{Difference};
ghost use Rattle.run_check.specs.Spelling.{spelling, IsCertificate};

/// The grammar is exact: each string of bytes either is the spelling of one certificate, and of no other,
/// or has a first fault, and never both.
pub fn grammar()
    ensures one_spelling { (c d : Content) → IsCertificate c → IsCertificate d → spelling c ≡ spelling d → c ≡ d }
    ensures a_spelling_has_no_fault { (c : Content) → IsCertificate c → certificate_fault (spelling c) ≡ None }
    ensures what_has_no_fault_is_a_spelling { (file : List ℕ) → ((i : ℕ) → slice_index file i < 256) →
        certificate_fault file ≡ None →
        ((c : Content) × IsCertificate c × (file ≡ spelling c)) }
{}

/// A certificate has one verdict: one that holds has no first difference, and there is no second one.
pub fn one_verdict()
    ensures holds_or_differs { (program : Program) (content : Content) (kind : Difference) (place : ℕ) →
        CertificateHolds program content → IsFirst program content kind place → ⊥ }
    ensures one_first { (program : Program) (content : Content) (kind other : Difference) (place at : ℕ) →
        IsFirst program content kind place → IsFirst program content other at → (kind ≡ other) × (place ≡ at) }
{}

/// The certificate of a history and of what a run of its serial order reaches on plain memory holds for the
/// program.
pub fn written_certificates_hold()
    ensures { (program : Program) (entries : List Entry) (state : FlatState) → IsProgram program →
        All (λ hart. hart < program.harts) (serial entries) → state ≡ run (start program) (serial entries) →
        CertificateHolds program (certificate_of program entries state) }
{}

/// What a run of a program reaches on plain memory is a state that can be certified.
pub fn reached_states_can_be_certified()
    ensures { (program : Program) (state : FlatState) (harts : List ℕ) → state ≡ run (start program) harts →
        IsStateOf program state }
{}
