ghost use Rattle.std.specs.Prelude.{◌≡◌, ◌<◌, ◌≤◌, None, IsTrue, IsSome, IfOk, OnErr, length, take, is_ok, if◌then◌else◌};
ghost use Rattle.el_io.specs.Counts.{one_more};
ghost use Rattle.el_io.specs.Sink.{Took};

use crate::sink::{Failed, Sink};
use std::io::Write;

/// A sink that hands the bytes on to a writer of the standard library, and counts a fault at each
/// error of the writer and where it takes nothing of some bytes.
///
/// What a real writer does with the bytes is trusted. The sink tells what the writer tells, if it
/// was made by [`StreamSink::telling`].
#[derive(Drop)]
pub struct StreamSink<W: Write> {
    writer: W,
    faults: u64,
    tells: bool,
    ghost known: { IsTrue tells → IsSome (W.contents writer) },
}

impl<W: Write> StreamSink<W> {
    /// A sink over any writer, which tells nothing.
    pub fn new(writer: W) -> StreamSink<W>
        ensures untold { ⟦<StreamSink<W> as Sink>⟧.taken result ≡ None }
        ensures no_faults { ⟦<StreamSink<W> as Sink>⟧.faults result ≡ 0 }
    {
        StreamSink {
            writer,
            faults: 0,
            tells: false,
        }
    }

    /// A sink over a writer that tells what it holds.
    pub fn telling(writer: W) -> StreamSink<W>
        requires writer_tells { IsSome (W.contents writer) }
        ensures told { ⟦<StreamSink<W> as Sink>⟧.taken result ≡ W.contents writer }
        ensures no_faults { ⟦<StreamSink<W> as Sink>⟧.faults result ≡ 0 }
    {
        StreamSink {
            writer,
            faults: 0,
            tells: true,
        }
    }
}

impl<W: Write> Sink for StreamSink<W> {
    ghost taken = { λ s. if s.tells then W.contents s.writer else None };

    ghost faults = { λ s. s.faults };

    fn put(&mut self, bytes: &[u8]) -> Result<usize, Failed>
        ensures within { IfOk result (λ count. count ≤ length bytes.now) }
        ensures goes_on { IfOk result (λ count. 0 < length bytes.now → 0 < count) }
        ensures taken { IfOk result (λ count.
            Took (⟦<StreamSink<W> as Sink>⟧.taken self.old) (⟦<StreamSink<W> as Sink>⟧.taken self.new)
            (take count bytes.now)) }
        ensures nothing_after_failed { OnErr result
            (⟦<StreamSink<W> as Sink>⟧.taken self.new ≡ ⟦<StreamSink<W> as Sink>⟧.taken self.old) }
        ensures still_telling { IsSome (⟦<StreamSink<W> as Sink>⟧.taken self.old) →
            IsSome (⟦<StreamSink<W> as Sink>⟧.taken self.new) }
        ensures faults_counted { ⟦<StreamSink<W> as Sink>⟧.faults self.new ≡ (if is_ok result
            then ⟦<StreamSink<W> as Sink>⟧.faults self.old
            else one_more (⟦<StreamSink<W> as Sink>⟧.faults self.old)) }
        ensures count_never_falls { ⟦<StreamSink<W> as Sink>⟧.faults self.old ≤
            ⟦<StreamSink<W> as Sink>⟧.faults self.new }
    {
        match self.writer.write(bytes) {
            Ok(count) if count > 0 || bytes.is_empty() => Ok(count),
            _ => {
                self.faults = self.faults.saturating_add(1);
                Err(Failed)
            }
        }
    }
}
