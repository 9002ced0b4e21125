//! A binary search among edges.
ghost use Rattle.std.specs.Prelude.{IfOk, IfErr};
ghost use Rattle.pg_graph.specs.Handed.{IsRising, IsPlaceOf, IsGapFor};

use pg_graph::VertexId;

/// The place of the edge to `target`, or where it would stand.
pub(crate) fn place_of(edges: &[(VertexId, i64)], target: VertexId) -> Result<usize, usize>
    requires { IsRising edges.now }
    ensures found { IfOk result (IsPlaceOf target edges.now) }
    ensures absent { IfErr result (IsGapFor target edges.now) }
{
    edges.binary_search_by_key(&target, |edge| edge.0)
}
