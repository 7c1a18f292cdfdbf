//! The law of a job's own reports.

ghost use Rattle.ciel_log_model.specs.Laws.{OwnReportsPass};

/// A report's record that tells the next event of the job's own history passes the tests by which it is decided that it fits its order.
pub fn own_reports_pass()
    ensures pass { OwnReportsPass }
{}
