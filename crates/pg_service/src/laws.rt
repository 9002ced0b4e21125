//! What follows of any calls.
ghost use Rattle.std.specs.Prelude.{List};
ghost use Rattle.logbook.specs.Pages.{Book};
ghost use mathlib.Core.List.{IsPrefix};
ghost use Rattle.pg_graph.specs.Handed.{Edit};
ghost use Rattle.pg_global.specs.Registry.{Registered};
ghost use Rattle.pg_model.specs.Job.{Job};
ghost use Rattle.pg_publish.specs.Answers.{Answered};
ghost use Rattle.pg_service.specs.Job.{ServiceJob};
ghost use Rattle.pg_service.specs.Led.{Follows, Led, LooksAtAnswers};
ghost use Rattle.pg_service.specs.Service.{ServiceState};

/// Whatever edits and refreshes have led a service to where it is, accepted or refused, and readers that were made, in
/// any order: its graph is what the accepted batches make, one after another; its edition is their number; each
/// publication is the answer of the run on the graph of its edition, with the names of its aggregates; and editions
/// never go back. It does nothing.
pub fn publications_are_answers<P, C, A, V, M>()
    ensures { (own : ServiceJob P C A) (job : Job V M) (names : Registered) (publisher : Book)
        (batches : List (List Edit))
        (state : ServiceState P C A V) → Led own job names publisher batches state
        → Follows job names publisher batches state }
{}

/// A reader has seen a beginning of what a service has published, also where it learned of it, and sees further ones:
/// each of these is the answer of the run on the graph of its edition, and no later look is at an earlier edition. It
/// does nothing.
pub fn looks_are_answers<P, C, A, V, M>()
    ensures { (own : ServiceJob P C A) (job : Job V M) (names : Registered) (publisher : Book)
        (batches : List (List Edit))
        (state : ServiceState P C A V) (seen later : List (Answered V)) → Led own job names publisher batches state
        → IsPrefix seen later → IsPrefix later state.told.list → LooksAtAnswers job names batches seen later }
{}
