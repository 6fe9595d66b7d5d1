// The text of a page: the template with the texts of the program in their places.
ghost use Rattle.std.specs.Prelude.{◌≡◌, ◌++◌, IfOk, OnOk, [], string_bytes};
ghost use Rattle.page_html.specs.Pages.{escaped, page_text};

use crate::template::{
    AFTER_ORDER, BEFORE_EXPLAIN, BEFORE_HISTORY, BEFORE_JUDGE, BEFORE_LOCATE, BEFORE_ORDER,
};
use std::alloc::{AllocError, Global};

/// The texts that a page shows: the history as it was given, and the lines of the program on it.
#[derive(Clone, Copy)]
pub struct PageTexts<'a> {
    /// The text of the history.
    pub history: &'a str,
    /// What `judge` prints.
    pub judged: &'a str,
    /// What `locate` prints.
    pub located: &'a str,
    /// What `explain` prints.
    pub explained: &'a str,
    /// A line with an order, or nothing.
    pub order: &'a str,
}

/// Returns the page that shows these texts.
pub fn page_of(alloc: Global, texts: PageTexts<'_>) -> Result<String, AllocError>
    ensures { IfOk result (λ page. string_bytes page ≡ page_text texts.entry.history.now
        texts.entry.judged.now
        texts.entry.located.now texts.entry.explained.now texts.entry.order.now) }
{
    let mut page = String::new(alloc);
    push_page(&mut page, texts)?;
    Ok(page)
}

/// Adds the page to an empty text.
fn push_page(page: &mut String, texts: PageTexts<'_>) -> Result<(), AllocError>
    requires { string_bytes page.old ≡ [] }
    ensures { OnOk result (string_bytes page.new ≡ page_text texts.entry.history.now
        texts.entry.judged.now
        texts.entry.located.now texts.entry.explained.now texts.entry.order.now) }
{
    push_block(page, BEFORE_HISTORY, texts.history)?;
    push_block(page, BEFORE_JUDGE, texts.judged)?;
    push_block(page, BEFORE_LOCATE, texts.located)?;
    push_block(page, BEFORE_EXPLAIN, texts.explained)?;
    push_block(page, BEFORE_ORDER, texts.order)?;
    page.push_str(AFTER_ORDER)
}

/// Adds a part of the template, and a text of the program after it.
fn push_block(page: &mut String, before: &str, text: &str) -> Result<(), AllocError>
    ensures { OnOk result (string_bytes page.new
        ≡ (string_bytes page.old ++ before.now) ++ escaped text.now) }
{
    page.push_str(before)?;
    push_escaped(page, text)
}

/// Adds a text, with each `<` written as `\u003c`.
fn push_escaped(out: &mut String, text: &str) -> Result<(), AllocError>
    ensures { OnOk result (string_bytes out.new ≡ string_bytes out.old ++ escaped text.now) }
{
    let mut rest = text;
    while let Some((before, after)) = rest.split_once('<') {
        out.push_str(before)?;
        out.push_str("\\u003c")?;
        rest = after;
    }
    out.push_str(rest)?;
    Ok(())
}
