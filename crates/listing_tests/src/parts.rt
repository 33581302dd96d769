//! Small parts of the function that is listed.

use rl_base::error::OutOfMemory;
use rl_base::ids::IdentifierId;
use rl_base::list::List;
use rl_base::span::Span;
use rl_base::text::Text;
use rl_hir::instruction::{Place, PlaceOrSpread};
use std::alloc::Global;

/// The place of an identifier, without a span.
pub(crate) fn place(identifier: u32) -> Place {
    Place {
        identifier: IdentifierId(identifier),
        span: None,
    }
}

/// The span `(at 2 5)`.
pub(crate) fn span() -> Span {
    Span { start: 2, end: 5 }
}

/// A text of its own.
pub(crate) fn text(alloc: Global, text: &str) -> Result<Text, OutOfMemory> {
    Text::from_str(alloc, text)
}

/// A list of a place.
pub(crate) fn places(alloc: Global, identifier: u32) -> Result<List<Place>, OutOfMemory> {
    let mut places = List::new(alloc);
    places.push(place(identifier))?;
    Ok(places)
}

/// The arguments of identifier 2, and of 3, which is spread.
pub(crate) fn arguments(alloc: Global) -> Result<List<PlaceOrSpread>, OutOfMemory> {
    let mut arguments = List::new(alloc);
    arguments.push(PlaceOrSpread::Place(place(2)))?;
    arguments.push(PlaceOrSpread::Spread(place(3)))?;
    Ok(arguments)
}
