ghost use Rattle.std.specs.Prelude.{◌≡◌, ◌<◌, ◌≤◌, ◌∷◌, ◌++◌, ℕ, List, [], Option, None, true};
ghost use Rattle.dav_machine.specs.Machine.{Run};
ghost use Rattle.dav_disk.specs.Disk.{Doubt, MightLeave};
ghost use Rattle.dav_edge.specs.Connections.{connections_of};
ghost use Rattle.dav_edge.specs.Device.{Happened, DeviceLog};
ghost use Rattle.dav_uri.specs.Target.{BaseParts};
ghost use Rattle.dav_deeds.specs.declared.ask.Ask.{Ask};
ghost use Rattle.dav_deeds.specs.declared.deed.Step.{Step};
ghost use Rattle.dav_deeds.specs.DeskTable.{DeskTable, reopened};
ghost use Rattle.dav_deeds.specs.Legal.{IsAsk, IsOfShell, Legal, table_after};
ghost use Rattle.dav_recorder.specs.Recovers.{Recovers};
ghost use Rattle.dav_recorder.specs.Survives.{Survives, SurviveAll, with_under};
ghost use Rattle.dav_desk.specs.Verdict.{Verdict, table_by};
ghost use Rattle.dav_upload.specs.Asking.{Asked, table_through, steps_through};
ghost use Rattle.dav_upload.specs.Backs.{Backs};
ghost use Rattle.dav_upload.specs.Drain.{Drained, Drains};
ghost use Rattle.dav_upload.specs.Turns.{Turns, Backed};
ghost use Rattle.dav_upload.specs.Outlives.{KeepsBytes, Outlives};
ghost use Rattle.dav_upload.specs.Pair.{Answers, Made};
ghost use Rattle.dav_upload.specs.Resting.{IsResting};
ghost use Rattle.dav_upload.specs.Sent.{step_asked, AsksBacked, AllTold, JobGiven, OfJobs, PathsDiffer, jobs_told};

/// A law: where the steps of a desk that tell bytes to be sent have their requests on the wire, and an image of
/// the disk recovers to the table after all of the steps, the bytes closed last of each path are in the image,
/// or were sent whole.
pub fn last_bytes_are_kept_whole()
    ensures { (base : BaseParts) (url : List ℕ) (bodies : ℕ → List ℕ) (opening : DeskTable) (steps : List Step) (events : List Happened) (image : ℕ → List ℕ)
        → opening.job ≡ None → Legal opening steps → Backs base bodies opening steps events → Recovers url (reopened (table_after opening steps)).index bodies image
        → KeepsBytes base bodies opening steps events (reopened (table_after opening steps)).index image }
{}

/// A law: the same after a stop at any moment, of a front of the steps that has each one that ended until then.
pub fn last_bytes_outlive_a_stop()
    ensures { (base : BaseParts) (url : List ℕ) (bodies : ℕ → List ℕ) (opening : DeskTable) (steps : List Step) (under : Option Step) (events : List Happened) (m : ℕ) (image : ℕ → List ℕ)
        → opening.job ≡ None → Legal opening (with_under steps under) → Backs base bodies opening (with_under steps under) events
        → Survives url opening steps under bodies m image → Outlives base url bodies opening steps under events m image }
{}

/// A law: where the steps of a desk survive at each moment since it began, and the calls of a wire are behind them, the bytes
/// closed last of each path outlive a stop at any moment: for every moment and every image of the disk that a stop may have left
/// from it on.
pub fn last_bytes_outlive_each_stop()
    ensures { (base : BaseParts) (url : List ℕ) (bodies : ℕ → List ℕ) (opening : DeskTable) (steps : List Step) (under : Option Step) (past : ℕ → ℕ → Doubt) (start now : ℕ) (events : List Happened)
        → opening.job ≡ None → Legal opening (with_under steps under) → Backs base bodies opening (with_under steps under) events → SurviveAll past start now url opening steps under bodies
        → (m : ℕ) (image : ℕ → List ℕ) → start ≤ m → MightLeave past now m image → Outlives base url bodies opening steps under events m image }
{}

/// A law: where jobs are taken, sent and settled one after another, each step that tells bytes to be sent has the
/// request of its job on the wire.
pub fn turns_are_backed()
    ensures { (base : BaseParts) (bodies : ℕ → List ℕ) (t : DeskTable) (steps : List Step) (old new : DeviceLog) → Turns base bodies t steps old new → Backed base bodies t steps old new }
{}

/// A law: requests behind steps, and behind the steps after those, stand behind all of them.
pub fn backs_join()
    ensures { (base : BaseParts) (bodies : ℕ → List ℕ) (t : DeskTable) (steps more : List Step) (old mid new : DeviceLog) → Backed base bodies t steps old mid → Backed base bodies (table_after t steps) more mid new
        → Backed base bodies t (steps ++ more) old new }
{}

/// A law: what a shell asks of a desk leaves its table within its bounds, and no job in flight, however it goes.
pub fn shells_leave_no_job()
    ensures { (t : DeskTable) (now : ℕ) (ask : Ask) (v : Verdict) → IsAsk ask → IsOfShell ask → IsResting t → IsResting (table_by v t now ask) }
{}

/// A law: a drain leaves the table that its asks make. Among its calls each job that it settled as sent has its whole request, each
/// its own, in their order. On the wire stands one connection at most for each job that it took: a beginning of the job's request
/// was sent on it, and nothing else.
pub fn drains_send_their_jobs()
    ensures table { (base : BaseParts) (now : ℕ) (t : DeskTable) (given : Answers) (run : Run Made Answers (Drained × DeskTable)) → Drains base now t given run → run.result.1 ≡ table_through t run.made.desk }
    ensures backed { (base : BaseParts) (now : ℕ) (t : DeskTable) (given : Answers) (run : Run Made Answers (Drained × DeskTable)) → Drains base now t given run → AsksBacked base [] t run.made.desk run.made.up }
    ensures connections { (base : BaseParts) (now : ℕ) (t : DeskTable) (given : Answers) (run : Run Made Answers (Drained × DeskTable)) → Drains base now t given run
        → OfJobs base (jobs_told t run.made.desk) (connections_of run.made.up) }
{}

/// A law: while a desk is about to end a drain takes no path twice.
pub fn drains_take_once()
    ensures { (base : BaseParts) (now : ℕ) (t : DeskTable) (given : Answers) (run : Run Made Answers (Drained × DeskTable)) → IsResting t → t.stopping ≡ true → now < 18446744073709551615 → Drains base now t given run
        → PathsDiffer (jobs_told t run.made.desk) }
{}

/// A law: where each ask that tells bytes to be sent has its request among calls, and each job was told with the bytes that are
/// given for its body, each step of the asks that tells bytes to be sent has its request there, and so has the one of an ask that
/// was stopped. The first bytes are those of the job in flight.
pub fn asks_back_their_steps()
    ensures steps { (base : BaseParts) (given : ℕ → List ℕ) (bytes : List ℕ) (t : DeskTable) (asks : List Asked) (events : List Happened) → AsksBacked base bytes t asks events → AllTold given t asks → JobGiven given bytes t.job
        → Backs base given t (steps_through t asks) events }
    ensures under { (base : BaseParts) (given : ℕ → List ℕ) (bytes : List ℕ) (t : DeskTable) (before : List Asked) (stopped : Asked) (since : List Asked) (events : List Happened)
        → AsksBacked base bytes t (before ++ stopped ∷ since) events → AllTold given t before → JobGiven given bytes t.job
        → Backs base given t (steps_through t before ++ step_asked (table_through t before) stopped ∷ []) events }
{}
