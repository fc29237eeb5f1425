//! The law of limits. A function here does nothing: its contract is the law.
ghost use Rattle.std.specs.Prelude.{◌≡◌};
ghost use Rattle.fx_text.specs.Limits.{most_bytes};

/// The most bytes that a script may have.
pub fn a_script_has_few_bytes()
    ensures { most_bytes ≡ 65536 }
{}
