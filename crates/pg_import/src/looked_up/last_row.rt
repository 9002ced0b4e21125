//! Look-ups of rows, which remember the last one.
ghost use Rattle.std.specs.Prelude.{◌≡◌};
ghost use Rattle.std.specs.Option.{option_copied};
ghost use Rattle.pg_graph.specs.Rows.{row_at};

use pg_graph::{Cursor, Graph, Row, VertexId};
use std::marker::Model;

/// The row that was looked up last, if one was. A contract sees the graph.
#[derive(Drop)]
pub(crate) struct LastRow<'a> {
    cursor: Cursor<'a, Row>,
    id: Option<VertexId>,
    row: Option<&'a Row>,
}

impl<'a> Model for LastRow<'a> {
    ghost use Rattle.std.specs.Prelude.{◌≡◌, IfSome};
    ghost use Rattle.std.specs.Option.{option_copied};
    ghost use Rattle.pg_graph.specs.Rows.{Rows, row_at};

    ghost Value = { Rows };

    ghost view = { λ last. last.cursor };

    ghost invariant = { λ last. IfSome last.id (λ id. option_copied last.row ≡ row_at id last.cursor) };
}

impl<'a> LastRow<'a> {
    /// None yet, of this graph.
    pub(crate) fn of(graph: &'a Graph) -> LastRow<'a>
        ensures { result ≡ graph.now }
    {
        LastRow {
            cursor: graph.cursor(),
            id: None,
            row: None,
        }
    }

    /// The row at an id. It is looked up where the last one was at another id.
    pub(crate) fn row_at(&mut self, id: VertexId) -> Option<&'a Row>
        ensures row { option_copied result ≡ row_at id self.old }
        ensures same { self.new ≡ self.old }
    {
        if self.id != Some(id) {
            self.id = Some(id);
            self.row = self.cursor.get(id);
        }
        self.row
    }
}
