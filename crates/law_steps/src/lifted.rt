//! Laws of every step, for every step of a run.
ghost use Rattle.law_steps.specs.Lifted.{FirstConnectsOfRunsAreAnswered, FramesOfRunsAreOfEvents, PublishesArePassedOn, StepsOfRunsAreSteps};

/// Each step of a run that commits is a step of its node, from what that held then. So each law of every step is one of every run: as that the frames
/// that it gives out are those of its event, and that the first CONNECT of a connection is answered in it.
pub fn steps_of_runs_are_steps()
    ensures steps { StepsOfRunsAreSteps }
    ensures frames { FramesOfRunsAreOfEvents }
    ensures connects { FirstConnectsOfRunsAreAnswered }
{}

/// In a run a message that a session takes of a PUBLISH and asks its node to pass on, at QoS 0 too, is passed on directly after that, and with
/// RETAIN its Put stays.
pub fn publishes_are_passed_on()
    ensures { PublishesArePassedOn }
{}
