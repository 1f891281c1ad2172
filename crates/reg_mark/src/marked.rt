ghost use Rattle.std.specs.Prelude.{◌≡◌, None, IsSome};
ghost use Rattle.std.specs.Borrow.{sem};
ghost use Rattle.reg_mark.specs.Marks.{back_of, committed_of, kept_of, marked, marks_unreserved, unmarked};

use el_base::LineAddr;
use rv_alu::HartView;

/// A hart's present view, with a checkpoint of an earlier one or none.
#[derive(Clone, Copy, Debug, PartialEq, Eq)]
pub struct Marked {
    pub present: HartView,
    /// The view that the hart goes back to, where one stands.
    pub mark: Option<HartView>,
}

impl Marked {
    ghost use Rattle.reg_mark.specs.Lending.{LendsPresent};

    /// A view without a checkpoint.
    pub fn new(view: HartView) -> Marked
        ensures { result ≡ unmarked view }
    {
        Marked {
            present: view,
            mark: None,
        }
    }

    /// Makes a checkpoint of the present view. None stands yet.
    pub fn mark(&mut self)
        requires { self.old.mark ≡ None }
        ensures { self.new ≡ marked self.old }
    {
        self.mark = Some(self.present);
    }

    /// Goes back to the checkpoint, and gives it up. One stands.
    pub fn back(&mut self)
        requires { IsSome self.old.mark }
        ensures { self.new ≡ back_of self.old }
    {
        if let Some(mark) = self.mark {
            self.present = mark;
            self.mark = None;
        }
    }

    /// Keeps the present view, and gives the checkpoint up. One stands.
    pub fn keep(&mut self)
        requires { IsSome self.old.mark }
        ensures { self.new ≡ kept_of self.old }
    {
        self.mark = None;
    }

    /// The present view.
    pub fn present(&self) -> &HartView
        ensures { result.now ≡ self.now.present }
    {
        &self.present
    }

    /// The present view, to write to. The checkpoint stays.
    pub fn present_mut(&mut self) -> &mut HartView
        ensures* writes_back { sem 𝓛 (LendsPresent self.entry result) }
        ensures value { result.now ≡ self.old.present }
    {
        &mut self.present
    }

    /// The committed view: the checkpoint where one stands, else the present view.
    pub fn committed(&self) -> &HartView
        ensures { result.now ≡ committed_of self.now }
    {
        match &self.mark {
            Some(mark) => mark,
            None => &self.present,
        }
    }

    /// Ends the committed view's reservation where it is of a word on this line. Where a checkpoint
    /// stands, the present view keeps its own.
    pub fn unreserve(&mut self, line: LineAddr)
        ensures { self.new ≡ marks_unreserved line.number self.old }
    {
        match &mut self.mark {
            Some(mark) => mark.unreserve(line),
            None => self.present.unreserve(line),
        }
    }
}
