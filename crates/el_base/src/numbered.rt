ghost use Rattle.std.specs.Prelude.{◌≡◌, ◌==◌, find};
ghost use Rattle.std.specs.Option.{option_copied};
ghost use Rattle.el_base.specs.Numbered.{name_by_number};

/// A kind, of a list of kinds, that a line of text tells by its number and its name: a fault of a file's format or of
/// a configuration, or a difference from a certificate.
pub trait Numbered: Copy + 'static {
    ghost use Rattle.std.specs.Prelude.{List, ℕ};

    ghost kinds: { List Self };

    ghost number_of: { Self → ℕ };

    ghost name_of: { Self → List ℕ };

    /// All kinds of the list, in the order of their numbers.
    fn all() -> &'static [Self]
        ensures { result.now ≡ kinds };

    /// The number of the kind in its list, from 1 on.
    fn number(self) -> u8
        ensures { result ≡ number_of self };

    /// The name of the kind.
    fn name(self) -> &'static str
        ensures { result.now ≡ name_of self };

    /// The kind that has a number, or none where no kind of the list has it.
    final fn with_number(number: u8) -> Option<Self>
        ensures { result ≡ find (λ kind. number_of kind == number) kinds }
    {
        Self::all()
            .iter()
            .copied()
            .find(|kind| kind.number() == number)
    }

    /// The name of the kind that has a number, or none where no kind of the list has it.
    final fn name_of_number(number: u8) -> Option<&'static str>
        ensures { option_copied result ≡ name_by_number number_of name_of kinds number }
    {
        let kind = Self::with_number(number)?;
        Some(kind.name())
    }
}
