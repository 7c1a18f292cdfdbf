//! The law of the tests. It is the contract of a function that does nothing.

ghost use Rattle.ciel_log_fits.specs.Read.{ReadReportsFit};

/// A report of an order that is out, whose parts passed the tests and whose blocks were put on a shelf of the order's worker, is one that
/// the master takes.
pub fn read_reports_fit()
    ensures fit { ReadReportsFit }
{}
