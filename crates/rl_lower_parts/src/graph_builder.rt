//! The builder of the graphs of a result.

use rl_builder::builder::HirBuilder;
use rl_hir::blocks::GraphBlocks;

/// The builder of a graph whose blocks stand in the table of a result.
pub type GraphBuilder<'e, U> = HirBuilder<'e, U, GraphBlocks>;
