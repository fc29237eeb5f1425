//! The forms of a term.

/// A form of a term.
#[derive(Clone, Copy)]
pub(crate) enum Form {
    Pure,
    Raise,
    Canceled,
    Never,
    Cede,
    Seq,
    Let,
    Handle,
    If,
    For,
    Mask,
    Poll,
    OnCancel,
    Bracket,
    BracketCase,
    Guarantee,
    Forcer,
    Using,
    Start,
    Join,
    Cancel,
    First,
    Race,
    Offer,
    Take,
    TryOffer,
    TryTake,
}

impl Form {
    ghost use Rattle.std.specs.Prelude.{◌≡◌, bytes_eq, find};
    ghost use Rattle.fx_text.specs.Shape.{forms, word_of};

    const ALL: [Form; 27] = [
        Form::Pure,
        Form::Raise,
        Form::Canceled,
        Form::Never,
        Form::Cede,
        Form::Seq,
        Form::Let,
        Form::Handle,
        Form::If,
        Form::For,
        Form::Mask,
        Form::Poll,
        Form::OnCancel,
        Form::Bracket,
        Form::BracketCase,
        Form::Guarantee,
        Form::Forcer,
        Form::Using,
        Form::Start,
        Form::Join,
        Form::Cancel,
        Form::First,
        Form::Race,
        Form::Offer,
        Form::Take,
        Form::TryOffer,
        Form::TryTake,
    ];

    fn word(self) -> &'static [u8]
        ensures { result.now ≡ word_of self }
    {
        match self {
            Form::Pure => b"pure",
            Form::Raise => b"raise",
            Form::Canceled => b"canceled",
            Form::Never => b"never",
            Form::Cede => b"cede",
            Form::Seq => b"seq",
            Form::Let => b"let",
            Form::Handle => b"handle",
            Form::If => b"if",
            Form::For => b"for",
            Form::Mask => b"mask",
            Form::Poll => b"poll",
            Form::OnCancel => b"oncancel",
            Form::Bracket => b"bracket",
            Form::BracketCase => b"bracketcase",
            Form::Guarantee => b"guarantee",
            Form::Forcer => b"forcer",
            Form::Using => b"using",
            Form::Start => b"start",
            Form::Join => b"join",
            Form::Cancel => b"cancel",
            Form::First => b"first",
            Form::Race => b"race",
            Form::Offer => b"offer",
            Form::Take => b"take",
            Form::TryOffer => b"tryoffer",
            Form::TryTake => b"trytake",
        }
    }

    /// The form of that word.
    pub(crate) fn of_word(word: &[u8]) -> Option<Form>
        ensures { result ≡ find (λ f. bytes_eq (word_of f) word.now) forms }
    {
        Form::ALL.iter().copied().find(|f| f.word() == word)
    }
}
