//! What holds in every run of a cluster. Each function does nothing: its contract is the law.
ghost use Rattle.cluster_play.specs.Agreement.{HoldsItsOperations, LiveIsOfItsOperations, AnswerIsOfItsOperations, HoldsItsOperationsAmid, OwnDots, SameTaken, AgreeWhereTheyTookTheSame, AnswerAlike};
ghost use Rattle.cluster_play.specs.Believing.{BelievesWhatIsTaken, LacksNothingThere};
ghost use Rattle.cluster_play.specs.CatchingUp.{DeltaFrames, FramesAreSpelled, CatchUp, KnowsWhatIsTaken};
ghost use Rattle.cluster_play.specs.Copying.{CopiesAsTaken};
ghost use Rattle.cluster_play.specs.GoingOn.{FramesStay, LacksNothing, RunsCompose, StartIsReached, RunsGoOn, FramelessStepsAreHonest, PlayedIsReached};
ghost use Rattle.cluster_play.specs.Lasting.{RowsAreOfWhatIsHeld, RowsKeepItsOperations, RowsAreOfTheirNode, RestartsWithWhatLasts, KeepsItsTable, FaultsLeaveRows};
ghost use Rattle.cluster_play.specs.Living.{HoldsWhatItsMovesLeave, SessionsAreRuns, SessionsAreRunsAmid};
ghost use Rattle.cluster_play.specs.MadeOperations.{OperationsOfAStep, TakesWhatItMakesOrIsBrought};
ghost use Rattle.cluster_play.specs.Offering.{AnswersAsSent, SendAlike};

/// Each running node holds the state of the operations that it has taken, no dot has two
/// operations, and what a Delta frame carries is the state of the operations that it lists.
pub fn nodes_hold_their_operations()
    ensures nodes { HoldsItsOperations }
    ensures dots { OwnDots }
    ensures frames { DeltaFrames }
{}

/// Each frame that was released is the spelling of one frame, as which its bytes are read again.
pub fn frames_are_spelled()
    ensures { FramesAreSpelled }
{}

/// What a running node shows is what its operations say: which subscriptions are live, and with which
/// messages it answers a filter, between steps and amid one.
pub fn nodes_answer_for_their_operations()
    ensures live { LiveIsOfItsOperations }
    ensures answers { AnswerIsOfItsOperations }
    ensures amid { HoldsItsOperationsAmid }
{}

/// What the client's session is offered after SUBACK, one by one, are the retained messages with which the
/// operations answer that the node has taken by then, filter by filter; so nodes that have taken the same
/// offer the same to the same subscription at the same moment.
pub fn answers_go_out_as_taken()
    ensures sent { AnswersAsSent }
    ensures alike { SendAlike }
{}

/// A message that is passed on makes exactly the copies of its message for the live subscriptions of the
/// operations that its node has taken by then, and for the turn and the sessions there.
pub fn copies_are_made_as_taken()
    ensures { CopiesAsTaken }
{}

/// Two running nodes whose sets of taken dots are equal have taken the same operations in the run;
/// they hold the same subscriptions and retained messages, and answer alike.
pub fn nodes_agree()
    ensures taken { SameTaken }
    ensures states { AgreeWhereTheyTookTheSame }
    ensures answers { AnswerAlike }
{}

/// The operations of a step are the next ones of its node.
pub fn steps_make_the_next_operations()
    ensures { OperationsOfAStep }
{}

/// A Delta frame that came brings its receiver all that its sender had taken.
pub fn frames_catch_up()
    ensures { CatchUp }
{}

/// A node takes the dots of the operations that it makes and those that the Delta frames list which
/// come to it once it has started, and no other.
pub fn nodes_take_what_they_make_or_are_brought()
    ensures { TakesWhatItMakesOrIsBrought }
{}

/// A running node holds what its acts in the run, and its losses at restarts, lead to since it was first opened. So each
/// of its sessions, between steps and amid one, comes of a run from a new session, by the calls and losses since it last
/// began; and what is proved of every such run holds of it.
pub fn sessions_are_runs()
    ensures moves { HoldsWhatItsMovesLeave }
    ensures sessions { SessionsAreRuns }
    ensures amid { SessionsAreRunsAmid }
{}

/// The rows of a running node are those of what it holds. The rows of each node, also of one that is down, say that it has
/// the state of the operations that it has taken; so a restart never finds rows that aren't those of its node, and the node
/// then holds what lasts of what it held last. A fault leaves the rows of its node.
pub fn rows_keep_what_lasts()
    ensures held { RowsAreOfWhatIsHeld }
    ensures operations { RowsKeepItsOperations }
    ensures node { RowsAreOfTheirNode }
    ensures restarts { RestartsWithWhatLasts }
    ensures faults { FaultsLeaveRows }
{}

/// The table of homes of a node, also of one that is down, is the one that an event of a committed step gave it last, or
/// the one with which it was first opened. With it the node is opened again.
pub fn nodes_keep_their_tables()
    ensures { KeepsItsTable }
{}

/// What a Know tells is taken at its sender, then and in every later world.
pub fn knows_stay_true()
    ensures { KnowsWhatIsTaken }
{}

/// What a running node believes another one to have taken, that one has taken. So one that it believes to lack nothing has
/// taken all that it has taken.
pub fn beliefs_are_true()
    ensures beliefs { BelievesWhatIsTaken }
    ensures nothing { LacksNothingThere }
{}

/// The laws hold however a run is played: new nodes are reached, an honest run goes on from what is
/// reached, and steps that bring no frame of their own are honest, so what they play is reached.
pub fn runs_go_on()
    ensures start { StartIsReached }
    ensures runs { RunsGoOn }
    ensures steps { FramelessStepsAreHonest }
    ensures played { PlayedIsReached }
{}

/// A run goes on where another ends, each frame keeps its number, and a step that happens lacks
/// nothing.
pub fn runs_compose()
    ensures runs { RunsCompose }
    ensures frames { FramesStay }
    ensures steps { LacksNothing }
{}
