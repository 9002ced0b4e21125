ghost use Rattle.std.specs.Prelude.{◌≡◌, ◌++◌, ◌∷◌, [], map, true, false, pos, slice_get, unwrap_or, None, IfOk};
ghost use Rattle.pg_graph.specs.Handed.{with_edge};
ghost use Rattle.pg_program.specs.Context.{ShowsDeclared};

use pg_graph::{Edges, Memory, Superstep, VertexId};
use pg_model::{Declared, Place, Sequence, VertexState, View};
use pg_program::{Coded, Computation, Cx, EdgeRoom, Meter, Plain, Tally, Vertex};
use std::alloc::Global;
use std::fmt::Write;
use std::process::Abort;
use std::test::Fail;
use tests_kit::id;

/// A program in which a vertex takes over the aggregate at place 0, adds an edge of that weight to
/// itself, and sends the aggregate along all its edges and then to itself once more.
struct Echo;

impl Computation for Echo {
    type Value = i64;

    type Message = i64;

    ghost program = { λ _. record {
      declared = record { reads = 1; writes = 1; total_vertices = true; total_edges = true };
      initial = λ id input. input;
      step = λ i.
          let seen = unwrap_or (unwrap_or (slice_get i.view.aggregates 0) None) (pos 0) in
          record {
            value = seen;
            edges = with_edge i.id seen i.edges;
            halted = true;
            sent = map (λ e. (e.0, seen)) (with_edge i.id seen i.edges) ++ (i.id, seen) ∷ [];
            contributed = (0, seen) ∷ [];
          };
    } };

    fn declared(&self) -> Declared {
        Declared {
            reads: 1,
            writes: 1,
            total_vertices: true,
            total_edges: true,
        }
    }

    fn initial(&self, _alloc: Global, _id: VertexId, input: i64) -> Result<i64, Memory> {
        Ok(input)
    }

    fn compute(
        &self,
        alloc: Global,
        vertex: &mut Vertex<i64>,
        _messages: &[i64],
        cx: &mut Cx<i64>,
    ) -> Result<(), Memory> {
        let seen = cx.aggregated(Place::new(0));
        let id = vertex.id();
        vertex.set_value(seen);
        vertex.add_edge(id, seen)?;
        cx.send_to_all_edges(alloc, vertex, &seen)?;
        cx.send(id, seen)?;
        cx.aggregate(Place::new(0), seen)?;
        vertex.vote_to_halt();
        cx.called();
        Ok(())
    }
}

/// A context in which place 0 shows -4.
fn context(alloc: Global) -> Result<Cx<i64>, Memory>
    ensures shown { IfOk result
        (λ cx. ShowsDeclared
        (record { reads = 1; writes = 1; total_vertices = true; total_edges = true }) cx.view) }
    ensures writes { IfOk result (λ cx. cx.writes ≡ 1) }
{
    let view = View {
        superstep: Superstep::new(3),
        aggregates: Sequence::from_vec(vec![in alloc; Some(-4), None]?),
        total_vertices: Some(6),
        total_edges: Some(8),
    };
    Ok(Cx::new(alloc, view, Echo.declared(), Meter::new()))
}

// Appends a value.
fn show<T: Plain>(value: &T, text: &mut String) -> Result<(), Memory> {
    value.show(text)
}

// A copy of the value.
fn copy_of<T: Plain>(alloc: Global, value: &T) -> Result<T, Memory> {
    value.copy(alloc)
}

// The text that a value appends.
fn text_of<T: Plain>(alloc: Global, value: &T) -> Result<String, Memory> {
    let mut text = String::from_str(alloc, "of ")?;
    show(&copy_of(alloc, value)?, &mut text)?;
    Ok(text)
}

// A value is equal to its copy.
fn is_copied<T: Plain>(alloc: Global, value: &T) -> Result<bool, Memory> {
    value.fits();
    Ok(*value == copy_of(alloc, value)?)
}

// A value appends this.
fn shows<T: Plain>(rt: &impl Abort, alloc: Global, value: &T, wanted: &str) -> Result<(), Fail> {
    assert_eq!(rt; text_of(alloc, value)?.as_str(), wanted);
    Ok(())
}

#[test]
fn shows_numbers(rt: HostRuntime) -> Result<(), Fail> {
    let alloc = rt.alloc();
    shows(&rt, alloc, &u64::MAX, "of 18446744073709551615")?;
    shows(&rt, alloc, &true, "of true")?;
    shows(&rt, alloc, &false, "of false")?;
    let mut text = text_of(alloc, &i64::MIN)?;
    show(&0i64, &mut text)?;
    assert_eq!(rt; text.as_str(), "of -92233720368547758080");
    Ok(())
}

#[test]
fn shows_pairs_and_lists(rt: HostRuntime) -> Result<(), Fail> {
    let alloc = rt.alloc();
    let none = (7i64, Sequence::<i64>::new(alloc));
    shows(&rt, alloc, &none, "of (7 [])")?;
    let one = Sequence::from_vec(vec![in alloc; (true, 5u64)]?);
    shows(&rt, alloc, &one, "of [(true 5)]")?;
    let three = Sequence::from_vec(vec![in alloc; 1i64, -2, 3]?);
    shows(&rt, alloc, &three, "of [1 -2 3]")
}

#[test]
fn lists_are_compared(rt: HostRuntime) -> Result<(), Fail> {
    let alloc = rt.alloc();
    let three = Sequence::from_vec(vec![in alloc; 1i64, -2, 3]?);
    assert!(rt; is_copied(alloc, &three)?);
    let shorter = Sequence::from_vec(vec![in alloc; 1i64, -2]?);
    assert!(rt; three != shorter);
    Ok(())
}

// The bytes of a value, and 1 behind them.
fn bytes_and_one<T: Coded>(alloc: Global, value: &T) -> Result<Vec<u8>, Memory> {
    let mut bytes = Vec::new(alloc);
    value.encode(&mut bytes)?;
    bytes.push(1)?;
    Ok(bytes)
}

// This value stands at the front, in so many bytes.
fn stands_in<T: Coded>(alloc: Global, bytes: &[u8], value: &T, len: usize) -> Result<bool, Memory> {
    match T::decode(alloc, bytes)? {
        Some((found, count)) => Ok(found == *value && count == len),
        None => Ok(false),
    }
}

#[test]
fn numbers_are_coded(rt: HostRuntime) -> Result<(), Fail> {
    let alloc = rt.alloc();
    let seven = bytes_and_one(alloc, &7u64)?;
    assert_eq!(rt; seven.as_slice(), [7, 0, 0, 0, 0, 0, 0, 0, 1].as_slice());
    assert!(rt; stands_in(alloc, seven.as_slice(), &7u64, 8)?);
    assert!(rt; matches!(u64::decode(alloc, &seven[..7]), Ok(None)));
    let truth = bytes_and_one(alloc, &true)?;
    assert_eq!(rt; truth.as_slice(), [1, 1].as_slice());
    assert!(rt; stands_in(alloc, truth.as_slice(), &true, 1)?);
    assert!(rt; matches!(bool::decode(alloc, &[2]), Ok(None)));
    assert!(rt; matches!(bool::decode(alloc, &[]), Ok(None)));
    Ok(())
}

#[test]
fn pairs_and_lists_are_coded(rt: HostRuntime) -> Result<(), Fail> {
    let alloc = rt.alloc();
    let value = (2i64, Sequence::from_vec(vec![in alloc; 10i64, 20]?));
    let bytes = bytes_and_one(alloc, &value)?;
    let wanted = [
        2, 0, 0, 0, 0, 0, 0, 0, 2, 0, 0, 0, 0, 0, 0, 0, 10, 0, 0, 0, 0, 0, 0, 0, 20, 0, 0, 0, 0, 0,
        0, 0, 1,
    ];
    assert_eq!(rt; bytes.as_slice(), wanted.as_slice());
    assert!(rt; stands_in(alloc, bytes.as_slice(), &value, 32)?);
    assert!(rt;
        matches!(
            <(i64, Sequence<i64>)>::decode(alloc, &wanted[..31]),
            Ok(None)
        )
    );
    Ok(())
}

// Each edge as ` target=weight`.
fn write_edges(text: &mut String, edges: &[(VertexId, i64)]) -> Result<(), Memory> {
    for (target, weight) in edges {
        write!(text, " {target}={weight}")?;
    }
    Ok(())
}

// Each message as ` target=message`.
fn write_sent<M: Plain>(text: &mut String, sent: &[(VertexId, M)]) -> Result<(), Memory> {
    for (target, message) in sent {
        write!(text, " {target}=")?;
        show(message, text)?;
    }
    Ok(())
}

// Each contribution as ` place=value`.
fn write_contributed(text: &mut String, contributed: &[(Place, i64)]) -> Result<(), Memory> {
    for (place, value) in contributed {
        let place = place.number();
        write!(text, " {place}={value}")?;
    }
    Ok(())
}

// What was sent and contributed in a context, and how many calls it has counted.
fn write_context<M: Plain>(text: &mut String, cx: Cx<M>) -> Result<(), Memory> {
    let (_view, sent, contributed, meter) = cx.into_parts();
    write!(text, " sent")?;
    write_sent(text, sent.as_slice())?;
    write!(text, " contributed")?;
    write_contributed(text, contributed.as_slice())?;
    let calls = meter.count();
    write!(text, " calls {calls}")?;
    Ok(())
}

// A vertex with this value and an edge to 2.
fn begun<V: Plain>(alloc: Global, value: V) -> Result<Vertex<V>, Fail>
    ensures { IfOk result (λ vertex. vertex.halted ≡ false) }
{
    let mut vertex = Vertex::new(id(5)?, value, Edges::new(), EdgeRoom::new(alloc))?;
    vertex.add_edge(id(2)?, 20)?;
    Ok(vertex)
}

// The value and the edges of a vertex, and what was sent and contributed.
fn reported<V: Plain, M: Plain>(
    alloc: Global,
    vertex: &Vertex<V>,
    cx: Cx<M>,
) -> Result<String, Fail> {
    let mut text = text_of(alloc, vertex.value())?;
    write!(text, " edges")?;
    write_edges(&mut text, vertex.edges())?;
    write_context(&mut text, cx)?;
    Ok(text)
}

// What one execution of a program leaves at vertex 5, of this input with an edge to 2: the value, the edges, and what
// it added to a context.
fn executed<P: Computation>(
    alloc: Global,
    program: &P,
    input: i64,
    messages: &[P::Message],
    mut cx: Cx<P::Message>,
) -> Result<String, Fail>
    requires shown { ShowsDeclared (P.program program.now).declared cx.view }
    requires writes { cx.writes ≡ (P.program program.now).declared.writes }
{
    let value = program.initial(alloc, id(5)?, input)?;
    let mut vertex = begun(alloc, value)?;
    program.compute(alloc, &mut vertex, messages, &mut cx)?;
    reported(alloc, &vertex, cx)
}

// What one execution of `Tally` leaves at vertex 5, of input 30 with an edge to 2.
fn tally(alloc: Global, superstep: u32, messages: &[i64]) -> Result<String, Fail> {
    let view = View {
        superstep: Superstep::new(superstep),
        aggregates: Sequence::new(alloc),
        total_vertices: None,
        total_edges: None,
    };
    let cx = Cx::new(alloc, view, Tally.declared(), Meter::new());
    executed(alloc, &Tally, 30, messages, cx)
}

#[test]
fn tallies(rt: HostRuntime) -> Result<(), Fail> {
    let text = tally(rt.alloc(), 0, &[])?;
    assert_eq!(rt;
        text.as_str(),
        "of (30 []) edges 2=20 sent 2=30 contributed calls 1"
    );
    let text = tally(rt.alloc(), 1, &[4, -4])?;
    assert_eq!(rt;
        text.as_str(),
        "of (2 [4 -4]) edges 2=20 sent contributed calls 1"
    );
    Ok(())
}

fn add_edge(vertex: &mut Vertex<i64>, target: u64, weight: i64) -> Result<(), Fail> {
    vertex.add_edge(id(target)?, weight)?;
    Ok(())
}

// Vertex 5 with edges to 7, 2 and 9. The one to 2 is added twice.
fn three_edges(alloc: Global) -> Result<Vertex<i64>, Fail> {
    let mut vertex = Vertex::new(id(5)?, 10i64, Edges::new(), EdgeRoom::new(alloc))?;
    add_edge(&mut vertex, 7, 70)?;
    add_edge(&mut vertex, 2, 20)?;
    add_edge(&mut vertex, 9, 90)?;
    add_edge(&mut vertex, 2, 25)?;
    Ok(vertex)
}

// The vertex in its next execution, a copy of the edges that the first one had, and whether that voted to halt.
fn in_next_execution(
    alloc: Global,
    vertex: Vertex<i64>,
) -> Result<(Vertex<i64>, Edges, bool), Memory> {
    let (state, room) = vertex.into_parts(alloc)?;
    let VertexState {
        id,
        value,
        edges,
        halted,
    } = state;
    let shared = edges.copy()?;
    Ok((Vertex::new(id, value, edges, room)?, shared, halted))
}

// Changes of edges that are there and of some that aren't. The answers are those of the changes of weights.
fn change_edges(vertex: &mut Vertex<i64>) -> Result<(bool, bool), Fail> {
    let is_set = vertex.set_edge_value(id(7)?, -7);
    let is_other_set = vertex.set_edge_value(id(8)?, 80);
    vertex.remove_edges(id(2)?);
    vertex.remove_edges(id(3)?);
    vertex.add_edge(id(1)?, 11)?;
    Ok((is_set, is_other_set))
}

// The edges as a text.
fn edges_of(alloc: Global, edges: &[(VertexId, i64)]) -> Result<String, Memory> {
    let mut text = String::new(alloc);
    write_edges(&mut text, edges)?;
    Ok(text)
}

// Vertex 5 in its second execution, after changes, and a copy of the edges that the first one had.
fn changed(rt: &impl Abort, alloc: Global) -> Result<(Vertex<i64>, Edges), Fail> {
    let (mut vertex, shared, halted) = in_next_execution(alloc, three_edges(alloc)?)?;
    assert!(rt; !halted);
    assert_eq!(rt; change_edges(&mut vertex)?, (true, false));
    vertex.set_value(12);
    vertex.vote_to_halt();
    Ok((vertex, shared))
}

// The vertex shows what it was changed to.
fn is_changed(rt: &impl Abort, vertex: &Vertex<i64>) -> Result<(), Fail> {
    assert_eq!(rt;
        (vertex.id().number(), *vertex.value(), vertex.num_edges()),
        (5, 12, 3)
    );
    let weights = (vertex.edge_value(id(7)?), vertex.edge_value(id(8)?));
    assert_eq!(rt; weights, (Some(-7), None));
    Ok(())
}

// The edges are these.
fn are_edges(
    rt: &impl Abort,
    alloc: Global,
    edges: &[(VertexId, i64)],
    wanted: &str,
) -> Result<(), Fail> {
    assert_eq!(rt; edges_of(alloc, edges)?.as_str(), wanted);
    Ok(())
}

#[test]
fn changes_edges(rt: HostRuntime) -> Result<(), Fail> {
    let alloc = rt.alloc();
    let (vertex, shared) = changed(&rt, alloc)?;
    is_changed(&rt, &vertex)?;
    are_edges(&rt, alloc, vertex.edges(), " 1=11 7=-7 9=90")?;
    let (_, remaining, halted) = in_next_execution(alloc, vertex)?;
    assert!(rt; halted);
    are_edges(&rt, alloc, remaining.as_slice(), " 1=11 7=-7 9=90")?;
    are_edges(&rt, alloc, shared.as_slice(), " 2=25 7=70 9=90")
}

#[test]
fn executes(rt: HostRuntime) -> Result<(), Fail> {
    let alloc = rt.alloc();
    let mut cx = context(alloc)?;
    assert_eq!(rt;
        (
            cx.superstep().number(),
            cx.total_vertices(),
            cx.total_edges()
        ),
        (3, 6, 8)
    );
    cx.send(id(1)?, 40)?;
    let text = executed(alloc, &Echo, 10, &[], cx)?;
    assert_eq!(rt;
        text.as_str(),
        "of -4 edges 2=20 5=-4 sent 1=40 2=-4 5=-4 5=-4 contributed 0=-4 calls 1"
    );
    Ok(())
}
