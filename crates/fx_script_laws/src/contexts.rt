//! What holds of two terms wherever a fiber comes to them holds in every term.
ghost use Rattle.std.specs.Prelude.{ℕ, Bool, List};
ghost use Rattle.fx_term.specs.Term.{Term};
ghost use Rattle.fx_model.specs.Row.{Counts, Label};
ghost use Rattle.fx_model.specs.Step.{Runs};
ghost use Rattle.fx_model.specs.Outside.{Outside};
ghost use Rattle.fx_script_laws.specs.Cover.{Cover};
ghost use Rattle.fx_script_laws.specs.Interchange.{Where, AreInterchangeableWhere, IsWithOtherWhere};
ghost use Rattle.fx_script_laws.specs.Interchange.{Anywhere, StopsThere, CanComeTo, CanComeLike, EitherWay, AreTheTwo};
ghost use Rattle.fx_script_laws.specs.Interchange.{ShowTheSameWithNumbers, WaitForTheSameWithNumbers, IsWithOther};

/// Terms that show the same wherever a fiber comes to them, whatever numbers stand for their names, can be
/// put for one another anywhere in a whole term: in what runs and what does not run yet, in what it starts,
/// in clean-ups and in loops. A fiber with the one whole term can show what one with the other can, with
/// any counts.
pub fn whole_terms_show_the_same()
    ensures { (own : ℕ → Bool) (t u a b : Term) → ShowTheSameWithNumbers own t u → IsWithOther own t u a b → (c : Counts) (ls : List Label)
        → CanComeTo Anywhere c (Runs a) ls → CanComeLike (EitherWay (AreTheTwo own t u)) Anywhere c (Runs b) ls }
{}

/// And where they wait for the same everywhere, a fiber with the one whole term can come to where it cannot
/// step, or to its end, as one with the other can, by each outside.
pub fn whole_terms_wait_for_the_same()
    ensures { (own : ℕ → Bool) (t u a b : Term) (o : Outside) (f : ℕ) (ended : Bool) → WaitForTheSameWithNumbers own t u
        → IsWithOther own t u a b → (c : Counts) (ls : List Label)
        → CanComeTo (StopsThere o f ended) c (Runs a) ls
        → CanComeLike (EitherWay (AreTheTwo own t u)) (StopsThere o f ended) c (Runs b) ls }
{}

/// The same of two terms that come to the same at places that are closed so, where they are put for one another
/// at such places alone. What closes a place is told by the forms round it: each mask once more, each poll once
/// less, and an acquire part, a finalizer and a release for good.
pub fn whole_terms_come_to_the_same_where()
    ensures shows { (there : Cover → Bool) (own : ℕ → Bool) (t u a b : Term) → AreInterchangeableWhere there own t u
        → IsWithOtherWhere there own t u a b → (c : Counts) (ls : List Label)
        → CanComeTo Anywhere c (Runs a) ls → CanComeLike (EitherWay (Where there (AreTheTwo own t u))) Anywhere c (Runs b) ls }
    ensures waits { (there : Cover → Bool) (own : ℕ → Bool) (t u a b : Term) (o : Outside) (f : ℕ) (ended : Bool)
        → AreInterchangeableWhere there own t u → IsWithOtherWhere there own t u a b → (c : Counts) (ls : List Label)
        → CanComeTo (StopsThere o f ended) c (Runs a) ls
        → CanComeLike (EitherWay (Where there (AreTheTwo own t u))) (StopsThere o f ended) c (Runs b) ls }
{}
