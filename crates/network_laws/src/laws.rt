ghost use Rattle.network_laws.specs.Worked.{AreWorkedAnswers, WorkedRunIsLawful, WorkedStallIsTrue};
ghost use Rattle.network_laws.specs.Alike.{AlikeContentsHaveOneAnswer};
ghost use Rattle.network_laws.specs.Bounds.{ProgressIsBounded};
ghost use Rattle.network_laws.specs.Circles.{StuckWaitsAreOwn, StuckWaitsMeetCircle};
ghost use Rattle.network_laws.specs.Laws.{AnswersAreOutputs, NewIsLawful, EachPipeIsDetermined, EachOutputIsDetermined, LawfulOutputsBegin, DoneOutputsAre, StatusIsFixed, CountFaultIsTrue, NoForestIsStuck, SomeWaitIsFull, StuckWaitsLeadOn};

/// Each pipe of a plan has its writer's output for the lists of the sequential answer.
pub fn answers_are_outputs()
    ensures { AnswersAreOutputs }
{}

/// The sequential answer is the same for contents that differ only in inputs whose one reader gives the same result for both.
pub fn alike_contents_have_one_answer()
    ensures { AlikeContentsHaveOneAnswer }
{}

/// A new network is in a lawful state.
pub fn new_networks_are_lawful()
    ensures { NewIsLawful }
{}

/// Whatever the order of the steps was, each pipe has a prefix of its list in the sequential
/// answer, and the whole list if it was closed.
pub fn pipes_are_determined()
    ensures { EachPipeIsDetermined }
{}

/// Each sink has written a prefix of its list in the sequential answer, and the whole list if it
/// has ended.
pub fn outputs_are_determined()
    ensures { EachOutputIsDetermined }
{}

/// In every lawful state each output is a prefix of its list.
pub fn outputs_begin()
    ensures { LawfulOutputsBegin }
{}

/// If every node has ended or broken, each output is its list.
pub fn done_outputs_are_the_answer()
    ensures { DoneOutputsAre }
{}

/// Whatever the order of the steps was, the progress of the network is bounded by the lengths of the lists in the sequential
/// answer.
pub fn progress_is_bounded()
    ensures { ProgressIsBounded }
{}

/// The exit status is fixed by which inputs are missing.
pub fn the_status_is_fixed()
    ensures { StatusIsFixed }
{}

/// A stage that failed for a count has one that is too large, whatever may still come.
pub fn count_faults_are_true()
    ensures { CountFaultIsTrue }
{}

/// A plan that is a forest has no stuck state.
pub fn forests_are_never_stuck()
    ensures { NoForestIsStuck }
{}

/// Every stuck state has a node that waits for a full pipe.
pub fn stuck_states_have_a_full_wait()
    ensures { SomeWaitIsFull }
{}

/// In a stuck state a waiting node is at the other end of each pipe that is waited for.
pub fn stuck_waits_lead_on()
    ensures { StuckWaitsLeadOn }
{}

/// In a stuck state each node waits for a pipe of its own, and none is there twice among the waits.
pub fn stuck_waits_are_own()
    ensures { StuckWaitsAreOwn }
{}

/// Following the waits of a stuck state never leads to a node that does not wait.
pub fn stuck_waits_meet_a_circle()
    ensures { StuckWaitsMeetCircle }
{}

/// The sequential answers of four worked scripts, and that their graphs are plans.
pub fn worked_answers_are_right()
    ensures { AreWorkedAnswers }
{}

/// A state in the middle of a worked run is lawful.
pub fn worked_run_is_lawful()
    ensures { WorkedRunIsLawful }
{}

/// A worked state in which nothing can move is stuck, and the outcome that names its waits is true.
pub fn worked_stall_is_stuck()
    ensures { WorkedStallIsTrue }
{}
