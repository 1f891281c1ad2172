ghost use Rattle.std.specs.Prelude.{◌≡◌, ℕ, ◌<◌, ◌≤◌, List, length, Option, take, if◌then◌else◌, is_ok, IfOk, OnOk, OnErr};
ghost use Rattle.el_io.specs.Counts.{one_more};
ghost use Rattle.el_io.specs.Sink.{Took, TookAll, TookPart};

/// A sink took nothing, and counted a fault.
#[derive(Clone, Copy, Debug, PartialEq, Eq)]
pub struct Failed;

/// A device that takes bytes in order, such as an output stream.
///
/// `taken` is the list of the bytes taken, where the sink tells it. `faults` is the count of
/// faults: a `u64`, which never falls and stands still at `u64::MAX`.
pub trait Sink {
    ghost taken: { Self → Option (List ℕ) };

    ghost faults: { Self → ℕ };

    /// Takes the first of the bytes and answers how many, at least one where there are any.
    ///
    /// `Failed` comes only where this call counted a fault, and then nothing was taken. A sink that
    /// tells what it took told it before.
    fn put(&mut self, bytes: &[u8]) -> Result<usize, Failed>
        ensures within { IfOk result (λ count. count ≤ length bytes.now) }
        ensures goes_on { IfOk result (λ count. 0 < length bytes.now → 0 < count) }
        ensures taken { IfOk result (λ count.
            Took (taken self.old) (taken self.new) (take count bytes.now)) }
        ensures nothing_after_failed { OnErr result (taken self.new ≡ taken self.old) }
        ensures faults_counted { faults self.new ≡
            (if is_ok result then faults self.old else one_more (faults self.old)) }
        ensures count_never_falls { faults self.old ≤ faults self.new };
}

/// Puts the bytes until all are taken. Where there are none, nothing is put.
///
/// `Failed` comes only where the sink counted a fault in this call. The sink then took some of the
/// bytes, from the first on, and not all.
pub fn put_all<S: Sink>(sink: &mut S, bytes: &[u8]) -> Result<(), Failed>
    ensures all_taken { OnOk result (TookAll (S.taken sink.old) (S.taken sink.new) bytes.now) }
    ensures part_after_failed { OnErr result
        (TookPart (S.taken sink.old) (S.taken sink.new) bytes.now) }
    ensures faults_counted { S.faults sink.new ≡
        (if is_ok result then S.faults sink.old else one_more (S.faults sink.old)) }
    ensures count_never_falls { S.faults sink.old ≤ S.faults sink.new }
{
    let mut taken = 0;
    while taken < bytes.len() {
        taken += sink.put(&bytes[taken..])?;
    }
    Ok(())
}
