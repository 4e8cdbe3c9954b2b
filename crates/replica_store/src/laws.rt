//! Laws of operations and their states. Each function does nothing: its contract is the law.
ghost use Rattle.replica_store.specs.Laws.{DeltasMakeTheState, OrderIsFree, OneState, StateOfBoth, StateOfSome, SeenIsOfTheOperations, LiveIsOfTheOperations, CoverIsOfTheOperations, CoverBelowIsOfTheOperations, CountIsOfTheOperations, TopicsAreTheMessages, AnswerIsOfTheOperations, OneAnswer};

/// Joining the deltas of operations makes their state, in whatever order and however often each
/// comes.
pub fn deltas_make_the_state()
    ensures state { DeltasMakeTheState }
    ensures order { OrderIsFree }
{}

/// The same operations have one state.
pub fn one_state()
    ensures { OneState }
{}

/// The state of two lists of operations together is the join of their states.
pub fn state_of_both()
    ensures { StateOfBoth }
{}

/// The deltas of some of the operations make the state of these.
pub fn state_of_some()
    ensures { StateOfSome }
{}

/// What the state says of dots, subscriptions and counts is what the operations say.
pub fn state_shows_the_operations()
    ensures seen { SeenIsOfTheOperations }
    ensures live { LiveIsOfTheOperations }
    ensures cover { CoverIsOfTheOperations }
    ensures cover_below { CoverBelowIsOfTheOperations }
    ensures count { CountIsOfTheOperations }
    ensures topics { TopicsAreTheMessages }
{}

/// The messages that answer a new subscription are those with which the operations answer, and
/// there is one such list.
pub fn state_answers_for_the_operations()
    ensures answer { AnswerIsOfTheOperations }
    ensures one { OneAnswer }
{}
