//! The forms of a term, by their words.

/// A form of a term.
#[derive(Clone, Copy, PartialEq, Eq, Debug)]
pub enum Form {
    Pure,
    Raise,
    Canceled,
    Never,
    Cede,
    Seq,
    Let,
    Handle,
    If,
    For,
    Mask,
    Poll,
    OnCancel,
    Bracket,
    BracketCase,
    Guarantee,
    Forcer,
    Using,
    Start,
    Join,
    Cancel,
    First,
    Race,
    Offer,
    Take,
    TryOffer,
    TryTake,
}

impl Form {
    ghost use Rattle.std.specs.Prelude.{◌≡◌, bytes_eq, find};
    ghost use Rattle.fx_places.specs.Form.{forms, word_of};

    const ALL: [Form; 27] = [
        Form::Pure,
        Form::Raise,
        Form::Canceled,
        Form::Never,
        Form::Cede,
        Form::Seq,
        Form::Let,
        Form::Handle,
        Form::If,
        Form::For,
        Form::Mask,
        Form::Poll,
        Form::OnCancel,
        Form::Bracket,
        Form::BracketCase,
        Form::Guarantee,
        Form::Forcer,
        Form::Using,
        Form::Start,
        Form::Join,
        Form::Cancel,
        Form::First,
        Form::Race,
        Form::Offer,
        Form::Take,
        Form::TryOffer,
        Form::TryTake,
    ];

    /// The word of the form.
    pub fn word(self) -> &'static str
        ensures { result.now ≡ word_of self }
    {
        match self {
            Form::Pure => "pure",
            Form::Raise => "raise",
            Form::Canceled => "canceled",
            Form::Never => "never",
            Form::Cede => "cede",
            Form::Seq => "seq",
            Form::Let => "let",
            Form::Handle => "handle",
            Form::If => "if",
            Form::For => "for",
            Form::Mask => "mask",
            Form::Poll => "poll",
            Form::OnCancel => "oncancel",
            Form::Bracket => "bracket",
            Form::BracketCase => "bracketcase",
            Form::Guarantee => "guarantee",
            Form::Forcer => "forcer",
            Form::Using => "using",
            Form::Start => "start",
            Form::Join => "join",
            Form::Cancel => "cancel",
            Form::First => "first",
            Form::Race => "race",
            Form::Offer => "offer",
            Form::Take => "take",
            Form::TryOffer => "tryoffer",
            Form::TryTake => "trytake",
        }
    }

    /// The form of that word.
    pub(crate) fn of_word(word: &[u8]) -> Option<Form>
        ensures { result ≡ find (λ f. bytes_eq (word_of f) word.now) forms }
    {
        Form::ALL
            .iter()
            .copied()
            .find(|f| f.word().as_bytes() == word)
    }
}
