//! The tables of blocks that are timed.

/// A table of blocks.
#[derive(Clone, Copy)]
pub enum Table {
    /// `MapBlocks`
    Map,
    /// `DenseBlocks`
    Dense,
}

/// All tables.
const TABLES: [Table; 2] = [Table::Map, Table::Dense];

impl Table {
    /// The name of the table.
    fn name(self) -> &'static str {
        match self {
            Table::Map => "map",
            Table::Dense => "dense",
        }
    }

    /// The table that has this name.
    pub fn from_name(name: &str) -> Option<Table> {
        for table in TABLES {
            if table.name() == name {
                return Some(table);
            }
        }
        None
    }
}
