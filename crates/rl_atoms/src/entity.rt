//! Entities of JSX texts: names that stand for one character each.

use rl_base::name_table::Named;
use rl_base::text::Text;

/// A name that stands for a character in JSX texts and attributes, as `nbsp` in `&nbsp;`.
#[derive(Debug, Drop)]
pub struct Entity {
    /// The name, without `&` and `;`.
    pub name: Text,
    /// The code point of the character, a Unicode scalar value.
    pub value: u32,
}

impl Named for Entity {
    ghost name = { λ entity. entity.name };

    fn name(&self) -> &str {
        self.name.as_str()
    }
}
