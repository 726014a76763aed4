//! What makes a recovered row lawful, and why one is not.

use std::fmt;

/// A law of recovered rows that a cell breaks. `specs/RowFault.antt` defines what each law says of
/// the cell.
#[derive(Clone, Copy, Debug, PartialEq, Eq)]
pub enum Law {
    /// A caller owns the current transaction.
    Owner,
    /// No data cell is newer than the current transaction.
    Newest,
    /// The data cells stand for a store.
    Store,
}

impl fmt::Display for Law {
    ghost use Rattle.std.specs.Prelude.{Some};
    ghost use Rattle.of_image.specs.Messages.{law_text};

    ghost output = { λ l. Some (law_text l) };

    fn fmt<W: fmt::Write>(&self, f: &mut fmt::Formatter<W>) -> fmt::Result {
        match self {
            Law::Owner => f.write_str("its payload is no caller's number"),
            Law::Newest => f.write_str("its sequence is above that of cell 0"),
            Law::Store => f.write_str(
                "the data cells stand for no store, and this is the first at fault",
            ),
        }
    }
}
