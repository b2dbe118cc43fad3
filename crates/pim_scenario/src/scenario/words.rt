//! The words of a text.
ghost use Rattle.std.specs.Prelude.{IfOk, map};
ghost use Rattle.pim_scenario.specs.Words.{AreWords};

use std::alloc::{AllocError, Global};

/// The words of a text, with white space between them.
pub(super) fn split<'a>(alloc: Global, text: &'a str) -> Result<Vec<&'a str>, AllocError>
    ensures { IfOk result (λ words. AreWords text.entry.now (map (λ w. w.now) words.items)) }
{
    let mut words = Vec::new(alloc);
    for word in text.split_whitespace() {
        words.push(word)?;
    }
    Ok(words)
}
