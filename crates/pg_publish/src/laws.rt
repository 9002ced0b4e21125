//! What holds of a publisher and its readers as a whole. These functions do nothing: their
//! contracts are the laws.
ghost use Rattle.pg_publish.specs.Editions.{LooksNeverGoBack};
ghost use Rattle.pg_publish.specs.Steps.{ReadersSeeBeginnings};

/// After any list of publish, tell, enter and learn steps each reader has seen a beginning of what
/// the publisher has published, and no step takes anything back.
pub fn readers_see_beginnings<E>()
    ensures { ReadersSeeBeginnings E }
{}

/// Where the editions that are published never go back, the editions that a reader looks at don't.
pub fn looks_never_go_back<V>()
    ensures { LooksNeverGoBack V }
{}
