//! What a certificate says.

ghost use Rattle.std.specs.Prelude.{◌≡◌};
ghost use Rattle.run_check.specs.Content.{Content};
ghost use Rattle.run_check.specs.Spelling.{IsCertificate};

use el_base::{HartId, LineAddr};
use rv_alu::HartView;
use std::marker::Model;

/// Steps of one hart that stand next to one another in the serial order.
#[derive(Clone, Copy, Debug, PartialEq, Eq)]
pub struct Stretch {
    pub hart: HartId,
    /// How many, at least 1.
    pub count: u32,
}

/// One line of memory with its bytes.
#[derive(Clone, Copy, Debug, PartialEq, Eq)]
pub struct Patch {
    pub line: LineAddr,
    pub bytes: [u8; 64],
}

/// A serial order in stretches, and what a run of it is to leave: each hart's view, the output, and the
/// lines of memory that differ from the image. It keeps the rules of `IsCertificate`.
#[derive(Debug, Drop)]
pub struct Certificate {
    harts: u8,
    stretches: Vec<Stretch>,
    views: Vec<HartView>,
    output: Vec<u8>,
    lines: Vec<Patch>,
}

impl Model for Certificate {
    ghost use Rattle.run_check.specs.Content.{Content};
    ghost use Rattle.run_check.specs.Spelling.{IsCertificate};

    ghost Value = { Content };

    ghost view = { λ c. record {
      harts = c.harts;
      stretches = c.stretches.items;
      views = c.views.items;
      output = c.output.items;
      lines = c.lines.items;
    } };

    ghost invariant = { λ c. IsCertificate (record {
      harts = c.harts;
      stretches = c.stretches.items;
      views = c.views.items;
      output = c.output.items;
      lines = c.lines.items;
    }) };
}

impl Certificate {
    /// The certificate of these parts.
    pub(crate) fn new(
        harts: u8,
        stretches: Vec<Stretch>,
        views: Vec<HartView>,
        output: Vec<u8>,
        lines: Vec<Patch>,
    ) -> Certificate
        requires { IsCertificate (record {
          harts = harts;
          stretches = stretches.items;
          views = views.items;
          output = output.items;
          lines = lines.items;
        }) }
        ensures { result ≡ record {
          harts = harts;
          stretches = stretches.items;
          views = views.items;
          output = output.items;
          lines = lines.items;
        } }
    {
        Certificate {
            harts,
            stretches,
            views,
            output,
            lines,
        }
    }

    /// The number of harts, from 1 to 8.
    pub fn harts(&self) -> u8
        ensures exact { result ≡ self.now.harts }
        ensures valid { IsCertificate self.now }
    {
        self.harts
    }

    /// The serial order. Neighbouring stretches have different harts, each has a step, and all together
    /// have at most 16,777,216.
    pub fn stretches(&self) -> &[Stretch]
        ensures exact { result.now ≡ self.now.stretches }
        ensures valid { IsCertificate self.now }
    {
        self.stretches.as_slice()
    }

    /// One view a hart, in the order of their numbers.
    pub fn views(&self) -> &[HartView]
        ensures exact { result.now ≡ self.now.views }
        ensures valid { IsCertificate self.now }
    {
        self.views.as_slice()
    }

    /// What the program has written, at most 16,777,216 bytes.
    pub fn output(&self) -> &[u8]
        ensures exact { result.now ≡ self.now.output }
        ensures valid { IsCertificate self.now }
    {
        self.output.as_slice()
    }

    /// Lines of memory, ascending, at most 262,144.
    pub fn lines(&self) -> &[Patch]
        ensures exact { result.now ≡ self.now.lines }
        ensures valid { IsCertificate self.now }
    {
        self.lines.as_slice()
    }
}
