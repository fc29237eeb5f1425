//! The law of statuses. A function here does nothing: its contract is the law.
ghost use Rattle.std.specs.Prelude.{◌≡◌};
ghost use Rattle.fx_report.specs.declared.status.TheConstants.{ENDED, BLOCKED, OTHER_WORDS, REFUSED, UNREADABLE, FAULT};

/// The numbers of the statuses, which never change.
pub fn statuses_have_their_numbers()
    ensures ended { ENDED ≡ 0 }
    ensures blocked { BLOCKED ≡ 1 }
    ensures other_words { OTHER_WORDS ≡ 2 }
    ensures refused { REFUSED ≡ 3 }
    ensures unreadable { UNREADABLE ≡ 4 }
    ensures fault { FAULT ≡ 5 }
{}
