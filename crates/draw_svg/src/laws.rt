// Laws that every text obeys: of contents, of the style, and of its width.
ghost use Rattle.draw_svg.specs.Content.{EscapedHasNoMarkup};
ghost use Rattle.draw_svg.specs.Layout.{FewColumnsFit};
ghost use Rattle.draw_svg.specs.Style.{StyleIsLiteral};

/// An escaped content has no byte that begins or ends a tag, or ends a value.
pub fn contents_have_no_markup()
    ensures { EscapedHasNoMarkup }
{}

/// The style of a text is these lines. They have no script and name nothing outside.
pub fn style_is_literal()
    ensures { StyleIsLiteral }
{}

/// A picture of at most 38 columns is at most 1,200 units wide.
pub fn few_columns_fit()
    ensures { FewColumnsFit }
{}
