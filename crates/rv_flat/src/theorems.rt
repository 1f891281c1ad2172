//! Laws of the flat step, over every state and every hart. Each is the contract of a function that
//! does nothing.

ghost use Rattle.std.specs.Prelude.{◌≡◌, ◌≢◌, ◌<◌, ◌+◌, ℕ, List, ◌++◌, Option, length, slice_index};
ghost use Rattle.el_base.specs.Line.{line_number};
ghost use Rattle.elf_image.specs.Program.{Program};
ghost use Rattle.rv_alu.specs.declared.view.HartStatus.TheVariants.{Running};
ghost use Rattle.rv_alu.specs.Footprint.{IsNoCall};
ghost use Rattle.rv_flat.specs.FlatState.{FlatState, span_of, start, status_of, view_of};
ghost use Rattle.rv_flat.specs.Laws.{AreSameTo, DidTheSame, HasRegs, IsInOneLine, KeepsShape, MakesNoStoreConditional, Writes, footprint_of};
ghost use Rattle.rv_flat.specs.Laws.{next_insn, seen_after, with_output, with_reserved, written_line};
ghost use Rattle.rv_flat.specs.Run.{alone, run};
ghost use Rattle.rv_flat.specs.Step.{flat};

/// A hart that has stopped changes nothing.
#[tactic(auto, using(crate::proofs::Laws::StepLaws::still))]
pub fn stopped_hart_changes_nothing()
    ensures { (state : FlatState) (hart : ℕ) → status_of state hart ≢ Running → flat state hart ≡ state }
{}

/// A step keeps where memory lies, its length, the code and the number of harts, and the output
/// only grows at its end.
pub fn step_keeps_shape()
    ensures { (state : FlatState) (hart : ℕ) → KeepsShape state (flat state hart) }
{}

/// A run of any harts keeps the same, and the output only grows at its end.
pub fn run_keeps_shape()
    ensures { (state : FlatState) (harts : List ℕ) → KeepsShape state (run state harts) }
{}

/// What a step touches lies in memory, and in one line of it.
#[tactic(auto, using(crate::proofs::Laws::StepLaws::one_line))]
pub fn step_touches_one_line()
    ensures { (state : FlatState) (hart : ℕ) → IsInOneLine (span_of state) (footprint_of state hart) }
{}

/// A step changes memory only where its footprint writes.
#[tactic(auto, using(crate::proofs::Laws::StepLaws::writes_in_footprint))]
pub fn step_writes_only_its_footprint()
    ensures { (state : FlatState) (hart place : ℕ) → (Writes (footprint_of state hart) (state.base + place) → ⊥) →
        slice_index (flat state hart).bytes place ≡ slice_index state.bytes place }
{}

/// A step changes no view but its own hart's, except that a write takes the other harts'
/// reservations of words on its line.
#[tactic(auto, using(crate::proofs::Laws::StepLaws::keeps_others))]
pub fn step_keeps_other_views()
    ensures { (state : FlatState) (hart other : ℕ) → other ≢ hart →
        view_of (flat state hart) other ≡ seen_after (footprint_of state hart) (view_of state other) }
{}

/// A step changes memory only on one line: that of what its footprint writes.
#[tactic(auto, using(crate::proofs::Laws::StepLaws::writes_on_line))]
pub fn step_writes_only_one_line()
    ensures { (state : FlatState) (hart place : ℕ) → written_line (footprint_of state hart) ≢ Some (line_number (state.base + place)) →
        slice_index (flat state hart).bytes place ≡ slice_index state.bytes place }
{}

/// A step depends on nothing but what its hart sees: in two states that have the same view of the
/// hart, the same code, the same addresses of memory, the same room of the output and the same bytes
/// at the footprint it does the same.
pub fn step_depends_on_what_its_hart_sees()
    ensures { (hart : ℕ) (left right : FlatState) → hart < length left.harts → hart < length right.harts →
        AreSameTo hart left right → DidTheSame hart left right (flat left hart) (flat right hart) }
{}

/// A step that makes no call appends nothing to the output and does not depend on it.
#[tactic(auto, using(crate::proofs::Frame::any_output))]
pub fn step_ignores_output_outside_calls()
    ensures { (state : FlatState) (output : List ℕ) (hart : ℕ) → IsNoCall (next_insn state hart) →
        flat (with_output state output) hart ≡ with_output (flat state hart) output }
{}

/// A run in which a hart makes no store conditional depends on the reservation that the hart has
/// before it only in what is left of that: where nothing is left, or the same, two runs come to the
/// same state.
#[tactic(auto, using(crate::proofs::LostReservations::run_forgets))]
pub fn run_forgets_a_lost_reservation()
    ensures { (state : FlatState) (hart : ℕ) (reserved : Option ℕ) (harts : List ℕ) → hart < length state.harts →
        MakesNoStoreConditional state hart harts →
        (view_of (run (with_reserved state hart reserved) harts) hart).reserved ≡ (view_of (run state harts) hart).reserved →
        run (with_reserved state hart reserved) harts ≡ run state harts }
{}

/// Each hart of a program has 32 registers of which the first is 0, before its first step.
pub fn start_has_registers()
    ensures { (program : Program) → HasRegs (start program) }
{}

/// Where each hart has 32 registers of which the first is 0, each has after a step.
pub fn step_keeps_register_zero()
    ensures { (state : FlatState) (hart : ℕ) → HasRegs state → HasRegs (flat state hart) }
{}

/// A run of two lists is a run of the second after a run of the first.
#[tactic(auto, using(crate::proofs::Laws::StepLaws::run_append))]
pub fn run_of_two_lists()
    ensures { (state : FlatState) (first second : List ℕ) → run state (first ++ second) ≡ run (run state first) second }
{}

/// Steps of one hart alone are made one after the other.
#[tactic(auto, using(crate::proofs::Laws::StepLaws::alone_sum))]
pub fn alone_of_a_sum()
    ensures { (state : FlatState) (hart m n : ℕ) → alone state hart (m + n) ≡ alone (alone state hart m) hart n }
{}
