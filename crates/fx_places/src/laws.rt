//! Laws of the forms.
ghost use Rattle.std.specs.Prelude.{◌≡◌, ◌∷◌, ℕ, List, Some, map};
ghost use Rattle.fx_text.specs.Shape.{forms as forms_of_scripts, word_of as word_of_scripts};
ghost use Rattle.fx_text.specs.Token.{Name, next};
ghost use Rattle.fx_places.specs.declared.form.Form.TheVariants as form;
ghost use Rattle.fx_places.specs.declared.place.FormPlace.{FormPlace};
ghost use Rattle.fx_places.specs.Form.{forms, word_of};
ghost use Rattle.fx_places.specs.Handle.{second_word, handle_of};
ghost use Rattle.fx_places.specs.Places.{StandsAt, IsFormPlace};

/// The words of the forms are those of the language, in its order.
pub fn words_are_those_of_scripts()
    ensures { map word_of forms ≡ map word_of_scripts forms_of_scripts }
{}

/// The name that a `start` of the text gives the fiber that it starts is the word behind its own.
pub fn handle_is_the_second_word_of_a_start()
    ensures { (text : List ℕ) (place : FormPlace) → IsFormPlace text place → place.form ≡ form.Start
        → (inside : List ℕ) × StandsAt text (40 ∷ inside) place.position × ((next inside).token ≡ Name (word_of form.Start))
        × (handle_of text place ≡ Some (second_word inside)) }
{}
