//! What the turns and the ends of a shop's run say of the job that its script means.
//!
//! `ciel_master_board` speaks of any job; here its laws are said of the job of a shop, with the reports that its workers promise. They are
//! contracts of functions that do nothing.
#![tactic(auto)]

pub mod setting;

ghost use Rattle.std.specs.Prelude.{List, ℕ};
ghost use Rattle.sky_base.specs.KitView.{Gives};
ghost use Rattle.sky_base.specs.See as s;
ghost use Rattle.ciel_master_law.specs.Ends.{CircleIsNever, MissedFits, ModestAlike, PerformsPromises, ShopIsSetting, ShownIsMeant};

/// The job of a shop is all that the master's laws ask of a job. What a worker promises of its report is what is asked of one that
/// comes to the master, and what a report says is missing is so, where the plan has the loss and its worker is lost.
pub fn reports_are_promised()
    ensures setting { (digest : List ℕ → List ℕ) (job : s.Job) (gives : Gives) → ShopIsSetting digest job gives }
    ensures performs { (digest : List ℕ → List ℕ) (job : s.Job) (gives : Gives) → PerformsPromises digest job gives }
    ensures missed { (digest : List ℕ → List ℕ) → MissedFits digest }
{}

/// With what is shown the run ends, and the job means it. A circle means that the job has no answer. And a job that means an
/// answer, whose needed tasks make few descriptions of different names, is one whose runs end with nothing else.
pub fn ends_are_meant()
    ensures shown { (digest : List ℕ → List ℕ) (job : s.Job) (gives : Gives) → ShownIsMeant digest job gives }
    ensures circle { (digest : List ℕ → List ℕ) (job : s.Job) (gives : Gives) → CircleIsNever digest job gives }
    ensures modest { (digest : List ℕ → List ℕ) (job : s.Job) (gives : Gives) → ModestAlike digest job gives }
{}
