//! Laws of renderings. A function here does nothing: its contract is the law.
ghost use Rattle.std.specs.Prelude.{◌≡◌, true, false, List, [], codes};
ghost use Rattle.fx_svg.specs.declared.tag.Tag.{Tag};
ghost use Rattle.fx_svg.specs.Content.{AttributeView, Content, element, rendering};
ghost use Rattle.fx_svg.specs.WellFormed.{has_distinct_keys, is_well_formed};

/// The rendering of an element is a well-formed document where no element in it has an attribute twice.
pub fn rendering_is_well_formed()
    ensures { (tag : Tag) (attributes : List AttributeView) (inside : Content)
        → has_distinct_keys (element tag attributes inside) ≡ true
        → is_well_formed (rendering (element tag attributes inside)) ≡ true }
{}

/// Texts with one mistake each are no well-formed documents. The first one has none.
pub fn mistakes_are_found()
    ensures right { is_well_formed (codes "<g><line x1=\"1\" y1=\"2\"></line>&lt;</g>\n") ≡ true }
    ensures stray_start { is_well_formed (codes "<g>1 < 2</g>\n") ≡ false }
    ensures stray_reference { is_well_formed (codes "<g>1 & 2</g>\n") ≡ false }
    ensures unknown_reference { is_well_formed (codes "<g>&less;</g>\n") ≡ false }
    ensures no_end_tag { is_well_formed (codes "<g><line></g>\n") ≡ false }
    ensures cut_off { is_well_formed (codes "<g><line></line>\n") ≡ false }
    ensures end_tags_change_places { is_well_formed (codes "<g><line></g></line>\n") ≡ false }
    ensures no_start_tag { is_well_formed (codes "<g></line></g>\n") ≡ false }
    ensures no_quotes { is_well_formed (codes "<g><line x1=1></line></g>\n") ≡ false }
    ensures start_in_value { is_well_formed (codes "<g id=\"<\"></g>\n") ≡ false }
    ensures quote_in_value { is_well_formed (codes "<g id=\"a\"b\"></g>\n") ≡ false }
    ensures attribute_twice { is_well_formed (codes "<line x1=\"1\" x1=\"2\"></line>\n") ≡ false }
    ensures two_documents { is_well_formed (codes "<g></g><g></g>\n") ≡ false }
    ensures words_outside { is_well_formed (codes "<g></g>end") ≡ false }
    ensures nothing { is_well_formed [] ≡ false }
{}
