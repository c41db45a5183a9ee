// What is promised of the images of accepted texts side by side.

ghost use Rattle.std.specs.Prelude.{◌≡◌, ◌⊎◌, ℕ, ◌≤◌, Bool, List, length, Some, Ok, slice_get};
ghost use Rattle.std.specs.List.{AllByRecursion};
ghost use Rattle.harts.specs.Ends.{still_going, ended_with};
ghost use Rattle.harts.specs.EverySchedule.{AllAgree, IsAlone, IsFromSource};
ghost use Rattle.harts.specs.RunHarts.{RunsHarts};
ghost use Rattle.harts.specs.SideBySide.{Job, system_of};
ghost use Rattle.harts.specs.declared.ends.HartEnd.{HartEnd};
ghost use Rattle.harts.specs.Below.{ByteMap, FollowsSchedule, HartObservation, HartMakes, Means, Member, most_images};
ghost use Rattle.harts.specs.Below.{Observation, Results, System, steps_of};

use rv_machine::Stop;

/// Every schedule: images of accepted texts side by side on one memory, on arguments within their parameter types,
/// their steps interleaved as a schedule says. Each hart is what it is alone after as many steps, and alone there is
/// one such state; it has not stopped, or has with the outcome that its source means. Where each hart's arguments are
/// equal where they are public, an observer sees one and the same list; so one who chooses the schedule by what was
/// seen learns no more.
pub fn every_schedule()
    ensures alone { (jobs : List Job) (schedule : List ℕ) (list : List HartObservation) (end : System) (k : ℕ)
        (job : Job) (from : IsFromSource job)
        → length jobs ≤ most_images
        → AllByRecursion IsFromSource jobs
        → FollowsSchedule schedule (system_of jobs) list end
        → slice_get jobs k ≡ Some job
        → IsAlone from.built.program k job schedule list end }
    ensures one_alone { (n : ℕ) (own bytes bytes' : ByteMap) (m after after' : Member) (seen seen' : List Observation)
        → HartMakes n own m seen bytes after
        → HartMakes n own m seen' bytes' after'
        → (seen ≡ seen') × (bytes ≡ bytes') × (after ≡ after') }
    ensures equal_leakage { (one other : List Job) (schedule : List ℕ) (list list' : List HartObservation)
        (end end' : System)
        → length one ≤ most_images
        → AllByRecursion IsFromSource one
        → AllAgree one other
        → FollowsSchedule schedule (system_of one) list end
        → FollowsSchedule schedule (system_of other) list' end'
        → list ≡ list' }
{}

/// What `run_harts` answers and records of images of accepted texts, on arguments within their parameter types: a hart
/// that the schedule gave as many steps as its image states has stopped with the outcome that its source means, and one
/// that it gave fewer has not stopped, or has in this way. Where each hart's arguments are equal where they are public,
/// one and the same list is recorded.
pub fn harts_do_what_sources_mean()
    ensures ended { (jobs : List Job) (schedule : List ℕ) (keeps : Bool) (list list' : List HartObservation)
        (ends : List HartEnd) (k : ℕ) (job : Job) (from : IsFromSource job)
        → AllByRecursion IsFromSource jobs
        → RunsHarts jobs schedule keeps list (Ok ends) list'
        → slice_get jobs k ≡ Some job
        → job.image.max_steps ≤ steps_of k schedule
        → (results : Results)
        × Means from.built.program job.args results
        × (slice_get ends k ≡ Some (record { stop = Some Stop.Ecall; outcome = Some results })) }
    ensures so_far { (jobs : List Job) (schedule : List ℕ) (keeps : Bool) (list list' : List HartObservation)
        (ends : List HartEnd) (k : ℕ) (job : Job) (from : IsFromSource job)
        → AllByRecursion IsFromSource jobs
        → RunsHarts jobs schedule keeps list (Ok ends) list'
        → slice_get jobs k ≡ Some job
        → (slice_get ends k ≡ Some still_going)
        ⊎ ((results : Results)
        × Means from.built.program job.args results
        × (slice_get ends k ≡ Some (ended_with results))) }
    ensures recorded { (one other : List Job) (schedule : List ℕ) (keeps : Bool)
        (list after after' : List HartObservation) (ends ends' : List HartEnd)
        → AllByRecursion IsFromSource one
        → AllAgree one other
        → RunsHarts one schedule keeps list (Ok ends) after
        → RunsHarts other schedule keeps list (Ok ends') after'
        → after ≡ after' }
{}
