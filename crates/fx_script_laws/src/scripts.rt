//! What holds of two terms wherever a fiber comes to them holds in every script.
ghost use Rattle.std.specs.Prelude.{◌≡◌, ◌≢◌, ◌↔◌, ℕ, Bool, List, Option, Some, None};
ghost use Rattle.fx_term.specs.declared.node.Arg.TheVariants.{Number, Slot};
ghost use Rattle.fx_term.specs.declared.name_kind.NameKind.{NameKind};
ghost use Rattle.fx_term.specs.declared.name_kind.NameKind.TheVariants as kind;
ghost use Rattle.fx_term.specs.Scope.{with_name, IsScoped};
ghost use Rattle.fx_term.specs.Term.{Term, Start, OnCancel, For, Mask, Let, Pure, Bracket, BracketCase};
ghost use Rattle.fx_term.specs.Script.{ScriptView};
ghost use Rattle.fx_model.specs.LawfulReport.{IsLawfulReport};
ghost use Rattle.fx_model.specs.Report.{ReportView};
ghost use Rattle.fx_model.specs.Causes.{IsLawfulInOneOrder};
ghost use Rattle.fx_model.specs.Happenings.{IsLawfulInOneList};
ghost use Rattle.fx_model.specs.MaskLaws.{forced_after};
ghost use Rattle.fx_laws.specs.Names.{without_names};
ghost use Rattle.fx_term.specs.Need.{need};
ghost use Rattle.fx_script_laws.specs.Cover.{Cover};
ghost use Rattle.fx_script_laws.specs.Interchange.{AreInterchangeable, AreInterchangeableWhere, IsWithOther, IsWithOtherWhere};

/// Two terms that show the same and wait for the same, wherever a fiber comes to them and whatever numbers
/// stand for their names, can be put for one another in any script, at any places: the two scripts have
/// the same lawful reports, so the same traces, outcomes, elements left and blocked fibers. They are so in
/// one order of all events, too, and in one list, as those of a replay are.
pub fn scripts_have_the_same_reports()
    ensures reports { (own : ℕ → Bool) (t u : Term) (s z : ScriptView) (may : ℕ → Bool) (r : ReportView)
        → AreInterchangeable own t u → IsWithOther own t u s.term z.term → s.capacities ≡ z.capacities
        → IsLawfulReport s may r ↔ IsLawfulReport z may r }
    ensures orders { (own : ℕ → Bool) (t u : Term) (s z : ScriptView) (may : ℕ → Bool) (r : ReportView)
        → AreInterchangeable own t u → IsWithOther own t u s.term z.term → s.capacities ≡ z.capacities
        → IsLawfulInOneOrder s may r ↔ IsLawfulInOneOrder z may r }
    ensures lists { (own : ℕ → Bool) (t u : Term) (s z : ScriptView) (may : ℕ → Bool) (r : ReportView)
        → AreInterchangeable own t u → IsWithOther own t u s.term z.term → s.capacities ≡ z.capacities
        → IsLawfulInOneList s may r ↔ IsLawfulInOneList z may r }
{}

/// So it is of two terms that show the same and wait for the same where they stand at places that are closed so,
/// in scripts that differ at such places alone.
pub fn scripts_have_the_same_reports_where()
    ensures reports { (there : Cover → Bool) (own : ℕ → Bool) (t u : Term) (s z : ScriptView) (may : ℕ → Bool) (r : ReportView)
        → AreInterchangeableWhere there own t u → IsWithOtherWhere there own t u s.term z.term → s.capacities ≡ z.capacities
        → IsLawfulReport s may r ↔ IsLawfulReport z may r }
    ensures orders { (there : Cover → Bool) (own : ℕ → Bool) (t u : Term) (s z : ScriptView) (may : ℕ → Bool) (r : ReportView)
        → AreInterchangeableWhere there own t u → IsWithOtherWhere there own t u s.term z.term → s.capacities ≡ z.capacities
        → IsLawfulInOneOrder s may r ↔ IsLawfulInOneOrder z may r }
    ensures lists { (there : Cover → Bool) (own : ℕ → Bool) (t u : Term) (s z : ScriptView) (may : ℕ → Bool) (r : ReportView)
        → AreInterchangeableWhere there own t u → IsWithOtherWhere there own t u s.term z.term → s.capacities ≡ z.capacities
        → IsLawfulInOneList s may r ↔ IsLawfulInOneList z may r }
{}

/// Written out for a value that is forced away before any term, in a mask with other parts before it:
/// `(mask p (seq B (forcer (pure n) A)))`.
pub fn scripts_may_discard_a_value_in_a_mask()
    ensures { (p n : ℕ) (a b : Term) (capacities : List ℕ) (may : ℕ → Bool) (r : ReportView)
        → IsLawfulReport (record {
          term = Mask p (Let None b (forced_after (Pure (Number n)) a));
          capacities = capacities;
        }) may r
        ↔ IsLawfulReport (record { term = Mask p (Let None b a); capacities = capacities }) may r }
{}

/// Written out for a finalizer in another one: `(oncancel B (oncancel A F))`, where `F` starts no fiber.
pub fn scripts_may_leave_out_a_finalizer_in_a_finalizer()
    ensures { (a b f : Term) (capacities : List ℕ) (may : ℕ → Bool) (r : ReportView) → need f ≡ 0
        → IsLawfulReport (record { term = OnCancel b (OnCancel a f); capacities = capacities }) may r
        ↔ IsLawfulReport (record { term = OnCancel b a; capacities = capacities }) may r }
{}

/// Written out for `forceRAssociativity`, in a loop of a started fiber whose finalizer has it too:
/// `(start h (oncancel (for i n (forcer A (forcer B C))) (forcer A (forcer B C))) D)`.
pub fn scripts_may_force_in_either_order()
    ensures { (i n : ℕ) (a b f d : Term) (capacities : List ℕ) (may : ℕ → Bool) (r : ReportView)
        → IsLawfulReport (record {
          term = Start 0 (OnCancel (For i n (forced_after a (forced_after b f))) (forced_after a (forced_after b f))) d;
          capacities = capacities;
        }) may r
        ↔ IsLawfulReport (record {
          term = Start 0 (OnCancel (For i n (forced_after (forced_after a b) f)) (forced_after (forced_after a b) f)) d;
          capacities = capacities;
        }) may r }
{}

/// Written out for `guarantee`, in a mask with other parts before and behind, where the names are new ones:
/// `(mask p (seq B (seq (guarantee A F) C)))`.
pub fn scripts_may_guarantee_by_cases()
    ensures { (scope : ℕ → Option NameKind) (p x y e : ℕ) (a f b c : Term) (capacities : List ℕ) (may : ℕ → Bool) (r : ReportView)
        → IsScoped (with_name x kind.OtherPoll scope) a → IsScoped (without_names scope x y e) f
        → IsLawfulReport (record {
          term = Mask p (Let None b (Let None (Bracket None (Pure (Number 0)) a f) c));
          capacities = capacities;
        }) may r
        ↔ IsLawfulReport (record {
          term = Mask p (Let None b (Let None (BracketCase x (Pure (Number 0)) a y f e f f) c));
          capacities = capacities;
        }) may r }
{}

/// Written out for the right identity of `flatMap`, in a loop whose name is another one: the name that the
/// term binds is its own. `(seq (for i n (let x A (pure x))) B)`.
pub fn scripts_may_give_a_value_again()
    ensures { (i n x : ℕ) (a b : Term) (capacities : List ℕ) (may : ℕ → Bool) (r : ReportView) → i ≢ x
        → IsLawfulReport (record {
          term = Let None (For i n (Let (Some x) a (Pure (Slot x)))) b;
          capacities = capacities;
        }) may r
        ↔ IsLawfulReport (record { term = Let None (For i n a) b; capacities = capacities }) may r }
{}
