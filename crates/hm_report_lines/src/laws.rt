//! Laws of the definitions. The function does nothing, and its clause is what is proved.

ghost use Rattle.std.specs.Str.{IsAscii};
ghost use Rattle.hm_run.specs.Report.{report_text};
ghost use Rattle.hm_run.specs.Timed.{Timed};

/// The report of a run is ASCII, whatever it tells.
pub fn report_law()
    ensures ascii { (x : Timed) → IsAscii (report_text x) }
{}
