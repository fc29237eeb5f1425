//! The parts of the forms, in words.

/// What is wanted at a place.
#[derive(Clone, Copy, PartialEq, Eq)]
pub(crate) enum Wanted {
    Open,
    Word,
    Term,
    TermOrClose,
    Name,
    Number,
    Value,
    Poll,
    Fiber,
    Queue,
    Resources,
    Resource,
    Outcome,
    Close,
}

impl Wanted {
    /// In words.
    pub(crate) fn words(self) -> &'static str {
        match self {
            Wanted::Open => "`(`",
            Wanted::Word => "the word of a form",
            Wanted::Term => "a term",
            Wanted::TermOrClose => "a term or `)`",
            Wanted::Name => "a name",
            Wanted::Number => "a number",
            Wanted::Value => "a number or the name of a value",
            Wanted::Poll => "the name of a poll",
            Wanted::Fiber => "the name of a fiber",
            Wanted::Queue => "the name of a queue",
            Wanted::Resources => "the resources `((x T T)..)`",
            Wanted::Resource => "a resource `(x T T)`",
            Wanted::Outcome => "a group `(x T)`",
            Wanted::Close => "`)`",
        }
    }

    /// The kind of the name that is wanted.
    pub(crate) fn kind(self) -> &'static str {
        match self {
            Wanted::Poll => "poll",
            Wanted::Fiber => "fiber",
            Wanted::Queue => "queue",
            _ => "value",
        }
    }
}

/// A part of a form: what is wanted there, and which part it is, where that needs to be said.
#[derive(Clone, Copy)]
pub(crate) struct Part {
    pub(crate) wanted: Wanted,
    pub(crate) role: &'static str,
}

const NAME: Part = Part {
    wanted: Wanted::Name,
    role: "the name",
};

const VALUE: Part = Part {
    wanted: Wanted::Value,
    role: "the value",
};

const TEST: Part = Part {
    wanted: Wanted::Value,
    role: "the test",
};

const COUNT: Part = Part {
    wanted: Wanted::Number,
    role: "the count",
};

const CAPACITY: Part = Part {
    wanted: Wanted::Number,
    role: "the capacity",
};

const POLL: Part = Part {
    wanted: Wanted::Poll,
    role: "the poll",
};

const FIBER: Part = Part {
    wanted: Wanted::Fiber,
    role: "the fiber",
};

const QUEUE: Part = Part {
    wanted: Wanted::Queue,
    role: "the queue",
};

const TERM: Part = Part {
    wanted: Wanted::Term,
    role: "the term",
};

const FIRST: Part = Part {
    wanted: Wanted::Term,
    role: "the first term",
};

const SECOND: Part = Part {
    wanted: Wanted::Term,
    role: "the second term",
};

const FINALIZER: Part = Part {
    wanted: Wanted::Term,
    role: "the finalizer",
};

const ACQUIRE: Part = Part {
    wanted: Wanted::Term,
    role: "the acquire",
};

const USE: Part = Part {
    wanted: Wanted::Term,
    role: "the use",
};

const RELEASE: Part = Part {
    wanted: Wanted::Term,
    role: "the release",
};

const RESOURCES: Part = Part {
    wanted: Wanted::Resources,
    role: "the list",
};

const AFTER_A_VALUE: Part = Part {
    wanted: Wanted::Outcome,
    role: "the part for a value",
};

const AFTER_AN_ERROR: Part = Part {
    wanted: Wanted::Outcome,
    role: "the part for an error",
};

const AFTER_CANCELLATION: Part = Part {
    wanted: Wanted::Term,
    role: "the part for cancellation",
};

/// The parts of a resource after its name.
pub(crate) const OF_RESOURCE: &[Part] = &[ACQUIRE, RELEASE];

/// What stands after the name in a group of a `join` or a `bracketcase`.
pub(crate) const OF_OUTCOME: &[Part] = &[TERM];

/// The parts of a form after its word.
pub(crate) fn parts_of(word: &[u8]) -> &'static [Part] {
    match word {
        b"pure" | b"raise" => &[VALUE],
        b"main" | b"seq" => &[TERM],
        b"let" => &[NAME, FIRST, SECOND],
        b"handle" => &[FIRST, NAME, SECOND],
        b"if" => &[TEST, FIRST, SECOND],
        b"for" => &[NAME, COUNT, TERM],
        b"mask" => &[NAME, TERM],
        b"poll" => &[POLL, TERM],
        b"oncancel" | b"guarantee" => &[TERM, FINALIZER],
        b"forcer" | b"race" => &[FIRST, SECOND],
        b"bracket" => &[NAME, ACQUIRE, USE, RELEASE],
        b"bracketcase" => &[
            NAME,
            ACQUIRE,
            USE,
            AFTER_A_VALUE,
            AFTER_AN_ERROR,
            AFTER_CANCELLATION,
        ],
        b"using" => &[RESOURCES, USE],
        b"start" => &[NAME, FIRST, SECOND],
        b"join" => &[FIBER, AFTER_A_VALUE, AFTER_AN_ERROR, AFTER_CANCELLATION],
        b"cancel" => &[FIBER],
        b"first" => &[FIBER, FIBER],
        b"queue" => &[NAME, CAPACITY],
        b"offer" | b"tryoffer" => &[QUEUE, VALUE],
        b"take" => &[QUEUE],
        b"trytake" => &[QUEUE, NAME, FIRST, SECOND],
        _ => &[],
    }
}
