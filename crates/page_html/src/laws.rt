// Laws of escaped texts.
ghost use Rattle.page_html.specs.Pages.{EscapedTextsHaveNoMark, UnmarkedTextsStay};

/// An escaped text has no `<`, so it begins no tag and ends none.
pub fn escaped_texts_have_no_mark()
    ensures { EscapedTextsHaveNoMark }
{}

/// A text without `<` is escaped as it is.
pub fn unmarked_texts_stay()
    ensures { UnmarkedTextsStay }
{}
